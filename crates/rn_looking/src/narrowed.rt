//! How many tokens of a choice pass a guard of which all other variables are forced. A choice
//! counts as those, so the order of arcs in the text decides little. It only decides what is tried
//! first: a token that doesn't pass is given up when it is tried (`docs/SEARCH.md`, 'What it does
//! next').
ghost use Rattle.std.specs.Prelude.{◌≡◌, Contains, IfOk, IfSome, [], unwrap_or};
ghost use Rattle.std.specs.Option.{option_copied};
ghost use Rattle.rn_value.specs.Kinds.{HasKind};
ghost use Rattle.rn_value.specs.declared.value.Value.{Value as Token};
ghost use Rattle.rn_model.specs.Markings.{tokens};
ghost use Rattle.rn_looking.specs.link.Views.{IsNodeView};
ghost use Rattle.rn_looking.specs.Guards.{vars_of_guard};
ghost use Rattle.rn_looking.specs.Knowing.{AreOthersOf};
ghost use Rattle.rn_looking.specs.Looks.{IsNarrowed};
ghost use Rattle.rn_looking.specs.NodeKinds.{kinds_at};
ghost use Rattle.rn_looking.specs.Trials.{IsOpenTo};

use crate::guard_vars::put_guard;
use crate::known::values_but;
use crate::look::Look;
use crate::trial::Trial;
use crate::views::NodeView;
use rn_bag::Bag;
use rn_calc::is_true;
use rn_choices::Next;
use rn_growing::{Growing, Head};
use rn_model::{Cond, Expr, NetArc, finds_token};
use rn_search::{Point, Problem};
use rn_value::{InstRef, NoMemory, Value};
use std::alloc::Global;

/// Which tokens of a choice pass a guard: how many, or about how many, and the first of them.
#[derive(Clone, Copy, Debug)]
struct Passing {
    count: usize,
    first: usize,
}

// Where so many tokens passed, and more than one of this many did, the others aren't counted.
const ENOUGH: usize = 4;

const SHARE: usize = 4;

// No more tokens than so many are counted.
const COUNTED: usize = 1024;

/// A guard of a node of which all variables but one are forced: that one, and the values of the
/// others.
#[derive(Drop)]
pub(crate) struct OpenGuard<'a> {
    inst: &'a InstRef,
    guard: &'a Cond,
    var: u32,
    others: Vec<(u32, Value)>,
}

// The values of the other variables of a guard, where it has this one, and they are forced.
fn others_of(
    alloc: Global,
    growing: &Growing<'_>,
    head: &Head,
    guard: &Cond,
    var: u32,
) -> Result<Option<Vec<(u32, Value)>>, NoMemory>
    ensures { IfOk result (λ others. IfSome others (λ ps. AreOthersOf growing.now head.now.path var
        (vars_of_guard guard.now) ps.items)) }
{
    let mut vars = Vec::new(alloc);
    put_guard(guard, &mut vars)?;
    if !vars.contains(&var) {
        return Ok(None);
    }
    values_but(alloc, growing, head.path.as_slice(), var, vars.as_slice())
}

// Whether a guard is true where its variable is a token.
fn is_passed(alloc: Global, open: &OpenGuard<'_>, token: &Value) -> Result<bool, NoMemory>
    requires { IsOpenTo open.now token.now }
{
    let trial = Trial {
        this: open.inst,
        var: open.var,
        token,
        others: open.others.as_slice(),
    };
    is_true(alloc, open.guard, &trial)
}

// About how many of all tokens pass, where so many of the first ones do.
fn about(count: usize, tried: usize, all: usize) -> usize {
    if tried == 0 {
        return all;
    }
    (count.saturating_mul(all) / tried).max(2)
}

// Counts the tokens of a bag that pass a guard, as far as they are fewer than a number, and not where
// many pass.
fn count_passing(
    alloc: Global,
    open: &OpenGuard<'_>,
    bag: &Bag,
    most: usize,
) -> Result<Option<Passing>, NoMemory>
    requires { (v : Token) → Contains bag.now v → IsOpenTo open.now v }
{
    let mut count = 0usize;
    let mut first = 0;
    let all = bag.len();
    let few = all.min(COUNTED);
    for a in 0..few {
        let Some(token) = bag.get(a) else {
            return Ok(None);
        };
        if !is_passed(alloc, open, token)? {
            continue;
        }
        if count == 0 {
            first = a;
        }
        count = count.saturating_add(1);
        if count >= most {
            return Ok(None);
        }
        if count >= ENOUGH && count.saturating_mul(SHARE) > a {
            let count = about(count, a, all);
            return Ok(Some(Passing { count, first }));
        }
    }
    if few < all {
        count = about(count.max(1), few, all);
    }
    Ok(Some(Passing { count, first }))
}

// The tokens of the place of a node's arc.
fn tokens_at<'a>(problem: &'a Problem<'_>, head: &Head, arc: &NetArc) -> Option<&'a Bag>
    ensures { unwrap_or (option_copied result) []
        ≡ tokens problem.now.marking head.now.inst arc.now.place }
{
    match &head.inst {
        InstRef::Old(number) => problem.table().bag(*number, arc.place),
        InstRef::New(_, _) => None,
    }
}

// Which tokens pass the guard that the fewest pass, where those are fewer than a number.
fn fewest_passing(
    alloc: Global,
    at: NodeView<'_>,
    var: u32,
    bag: &Bag,
    most: usize,
) -> Result<Option<Passing>, NoMemory>
    requires at { IsNodeView at }
    requires tokens { (v : Token) → Contains bag.now v
        → HasKind v (kinds_at at.growing.now at.head.now var) }
{
    let mut fewest = None;
    let mut most = most;
    for guard in at.transition.guards.as_slice() {
        let Some(others) = others_of(alloc, at.growing, at.head, guard, var)? else {
            continue;
        };
        let open = OpenGuard {
            inst: &at.head.inst,
            guard,
            var,
            others,
        };
        if let Some(passing) = count_passing(alloc, &open, bag, most)? {
            if passing.count < most {
                most = passing.count;
                fewest = Some(passing);
            }
        }
    }
    Ok(fewest)
}

// A choice that counts as so many alternatives, and begins with the first that passes.
fn counted(look: Look, passing: Passing) -> Look
    ensures { IsNarrowed look result }
{
    match look {
        Look::Goes(Next::Choose(point, of, _), _) => {
            Look::Goes(Next::Choose(point, of, passing.first), passing.count)
        }
        _ => look,
    }
}

/// A look at an arc of a node, which counts as many alternatives as tokens pass one of the guards, where
/// those are fewer than a number.
pub(crate) fn narrowed(
    alloc: Global,
    at: NodeView<'_>,
    arc: &NetArc,
    look: Look,
    most: usize,
) -> Result<Look, NoMemory>
    requires at { IsNodeView at }
    requires there { Contains at.transition.now.arcs arc.now }
    ensures { IfOk result (IsNarrowed look) }
{
    if !finds_token(arc.kind) {
        return Ok(look);
    }
    let Expr::Var(var) = &arc.inscription else {
        return Ok(look);
    };
    let Look::Goes(Next::Choose(Point::Token(_, _, 0), _, _), _) = look else {
        return Ok(look);
    };
    let Some(bag) = tokens_at(at.problem, at.head, arc) else {
        return Ok(look);
    };
    match fewest_passing(alloc, at, *var, bag, most)? {
        Some(passing) => Ok(counted(look, passing)),
        None => Ok(look),
    }
}
