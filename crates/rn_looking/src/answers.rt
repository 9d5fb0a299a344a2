//! Which answers of a call may lead to a binding, as far as it is seen at once: by arguments that
//! are known, guards over them, and places without a token. It only decides what is tried first:
//! whatever it says, each answer is tried (`docs/SEARCH.md`, 'What it does next').
ghost use Rattle.std.specs.Prelude.{◌≡◌, All, IfOk, OnOk, Some, [], slice_get};
ghost use Rattle.std.specs.Option.{option_map_or};
ghost use Rattle.rn_looking.specs.AnswerKinds.{FitAnswer, FitAnswers, HaveKindsOfArgs, KnowsAnswer};
ghost use Rattle.rn_looking.specs.AnswerKinds.{PutsArg, PutsArgs, PutsKnown, PutsVar};
ghost use Rattle.rn_looking.specs.link.Views.{IsNodeView};
ghost use Rattle.rn_looking.specs.NodeKinds.{IsKindedAt};

use crate::arcs::known_value;
use crate::guard_vars::put_guard;
use crate::known::Known;
use crate::views::NodeView;
use rn_calc::{Values, is_true};
use rn_growing::{Growing, Head};
use rn_model::{ArcKind, Downlink, Expr, NetArc, Transition, Uplink, finds_token, transition_at};
use rn_search::{Called, Problem};
use rn_value::{InstRef, NoMemory, Value, copy, same};
use std::alloc::Global;

/// The answers of a call that aren't seen to lead to no binding.
#[derive(Clone, Copy, Debug)]
pub(crate) struct Left {
    pub(crate) count: usize,

    /// The first of them, by its number among all answers.
    pub(crate) first: usize,

    /// Whether one of them calls further.
    pub(crate) calls: bool,

    /// Whether each of them asks for nothing, so that any may come whatever else is decided.
    pub(crate) idle: bool,
}

/// Of how many answers at most this is asked.
const FEW: usize = 64;

// The values of the arguments of a call, as far as they are known.
fn known_args(
    alloc: Global,
    growing: &Growing<'_>,
    head: &Head,
    args: &[Expr],
) -> Result<Vec<Option<Value>>, NoMemory>
    requires { All (IsKindedAt growing.now head.now) args.now }
    ensures { IfOk result (λ values. HaveKindsOfArgs growing.now head.now args.now values.items) }
{
    let mut values = Vec::with_capacity(alloc, args.len())?;
    for arg in args {
        values.push(known_value(alloc, growing, head, arg)?)?;
    }
    Ok(values)
}

// The value beside a variable.
fn beside(pairs: &[(u32, Value)], x: u32) -> Option<&Value> {
    for pair in pairs {
        if pair.0 == x {
            return Some(&pair.1);
        }
    }
    None
}

// Whether a value can't be that of a variable. Where none stands beside it yet, this one does then.
fn differs_from(
    alloc: Global,
    x: u32,
    value: &Value,
    pairs: &mut Vec<(u32, Value)>,
) -> Result<bool, NoMemory>
    ensures { OnOk result (PutsVar x value.now pairs.old.items pairs.new.items) }
{
    if let Some(other) = beside(pairs.as_slice(), x) {
        return Ok(!same(other, value));
    }
    pairs.push((x, copy(alloc, value)?))?;
    Ok(false)
}

// Whether a value can't be that of an argument of an uplink.
fn differs(
    alloc: Global,
    arg: &Expr,
    value: &Value,
    pairs: &mut Vec<(u32, Value)>,
) -> Result<bool, NoMemory>
    ensures { OnOk result (PutsArg arg.now value.now pairs.old.items pairs.new.items) }
{
    match arg {
        Expr::Var(x) => differs_from(alloc, *x, value, pairs),
        Expr::Int(n) => Ok(match value {
            Value::Int(m) => *n != *m,
            _ => true,
        }),
        Expr::Text(text) => Ok(match value {
            Value::Text(other) => text.as_str() != other.as_str(),
            _ => true,
        }),
        _ => Ok(false),
    }
}

// Whether an argument can't have the value that is known of it, if one is.
fn arg_differs(
    alloc: Global,
    arg: &Expr,
    value: &Option<Value>,
    pairs: &mut Vec<(u32, Value)>,
) -> Result<bool, NoMemory>
    ensures { OnOk result (PutsKnown arg.now value.now pairs.old.items pairs.new.items) }
{
    match value {
        Some(value) => differs(alloc, arg, value, pairs),
        None => Ok(false),
    }
}

// Whether an argument of an uplink can't have its known value. The values of variables are put.
fn args_differ(
    alloc: Global,
    args: &[Expr],
    values: &[Option<Value>],
    pairs: &mut Vec<(u32, Value)>,
) -> Result<bool, NoMemory>
    ensures { OnOk result (PutsArgs args.now values.now pairs.old.items pairs.new.items) }
{
    for k in 0..args.len().min(values.len()) {
        if arg_differs(alloc, &args[k], &values[k], pairs)? {
            return Ok(true);
        }
    }
    Ok(false)
}

// Whether an argument of a transition's uplink can't. Without an uplink there is none.
fn uplink_differs(
    alloc: Global,
    uplink: &Option<Uplink>,
    values: &[Option<Value>],
    pairs: &mut Vec<(u32, Value)>,
) -> Result<bool, NoMemory>
    ensures { OnOk result (PutsArgs (option_map_or (λ u. u.args) uplink.now []) values.now
        pairs.old.items pairs.new.items) }
{
    match uplink {
        Some(uplink) => args_differ(alloc, uplink.args.as_slice(), values, pairs),
        None => Ok(false),
    }
}

// Whether the values of these variables are known.
fn are_known(vars: &[u32], known: &Known<'_>) -> bool {
    for x in vars {
        if known.value(*x).is_none() {
            return false;
        }
    }
    true
}

// Whether a guard of a transition isn't true by what is known.
fn fails_guard(alloc: Global, transition: &Transition, known: &Known<'_>) -> Result<bool, NoMemory>
    requires { KnowsAnswer transition.now known.now.pairs.items }
{
    for guard in transition.guards.as_slice() {
        let mut vars = Vec::new(alloc);
        put_guard(guard, &mut vars)?;
        if are_known(vars.as_slice(), known) && !is_true(alloc, guard, known)? {
            return Ok(true);
        }
    }
    Ok(false)
}

// Whether the place of an arc is empty, or lacks the arc's token, where that is known.
fn is_lacking(problem: &Problem<'_>, number: u32, arc: &NetArc, known: &Known<'_>) -> bool {
    let Some(bag) = problem.table().bag(number, arc.place) else {
        return true;
    };
    if bag.is_empty() {
        return true;
    }
    let Expr::Var(x) = &arc.inscription else {
        return false;
    };
    match known.value(*x) {
        Some(value) => !bag.contains(value),
        None => false,
    }
}

// Whether an arc of a transition that finds a token finds none.
fn lacks_token(
    problem: &Problem<'_>,
    inst: &InstRef,
    transition: &Transition,
    known: &Known<'_>,
) -> bool {
    for arc in transition.arcs.as_slice() {
        if finds_token(arc.kind) {
            let InstRef::Old(number) = inst else {
                return true;
            };
            if is_lacking(problem, *number, arc, known) {
                return true;
            }
        }
    }
    false
}

// Whether an answer is seen to lead to no binding, by the known values of its arguments.
fn is_excluded(
    alloc: Global,
    problem: &Problem<'_>,
    inst: &InstRef,
    transition: &Transition,
    values: &[Option<Value>],
) -> Result<bool, NoMemory>
    requires { FitAnswer transition.now values.now }
{
    let mut pairs = Vec::new(alloc);
    if uplink_differs(alloc, &transition.uplink, values, &mut pairs)? {
        return Ok(true);
    }
    let known = Known::of(inst, pairs);
    if fails_guard(alloc, transition, &known)? {
        return Ok(true);
    }
    Ok(lacks_token(problem, inst, transition, &known))
}

// Whether all of these are known.
fn are_all_known(values: &[Option<Value>]) -> bool {
    for value in values {
        if value.is_none() {
            return false;
        }
    }
    true
}

// Whether an argument of an uplink may be given any value, or one that was compared.
fn is_plain(arg: &Expr) -> bool {
    matches!(arg, Expr::Var(_) | Expr::Int(_) | Expr::Text(_))
}

// Whether an uplink asks nothing of known arguments but what was compared.
fn is_plain_uplink(uplink: &Option<Uplink>) -> bool {
    let Some(uplink) = uplink else {
        return false;
    };
    for arg in uplink.args.as_slice() {
        if !is_plain(arg) {
            return false;
        }
    }
    true
}

// Whether arcs only put tokens.
fn only_put(arcs: &[NetArc]) -> bool {
    for arc in arcs {
        if !matches!(arc.kind, ArcKind::Output) {
            return false;
        }
    }
    true
}

// Whether a transition that answers with known arguments asks for nothing: it has no guards,
// equalities and calls, and finds no tokens.
fn is_idle(transition: &Transition) -> bool {
    transition.guards.is_empty()
        && transition.equalities.is_empty()
        && transition.downlinks.is_empty()
        && is_plain_uplink(&transition.uplink)
        && only_put(transition.arcs.as_slice())
}

// All of so many answers.
fn all_of(count: usize) -> Left {
    Left {
        count,
        first: 0,
        calls: true,
        idle: false,
    }
}

// Which of these transitions of a net may answer a call of these values.
fn left_among(
    alloc: Global,
    problem: &Problem<'_>,
    inst: &InstRef,
    net: u32,
    answers: &[u32],
    values: &[Option<Value>],
) -> Result<Left, NoMemory>
    requires { FitAnswers problem.now.system net answers.now values.now }
{
    let mut left = Left {
        count: 0,
        first: 0,
        calls: false,
        idle: are_all_known(values),
    };
    for a in 0..answers.len() {
        let Some(transition) = transition_at(problem.system(), net, answers[a]) else {
            continue;
        };
        if !is_excluded(alloc, problem, inst, transition, values)? {
            if left.count == 0 {
                left.first = a;
            }
            left.count = left.count.saturating_add(1);
            left.calls = left.calls || !transition.downlinks.is_empty();
            left.idle = left.idle && is_idle(transition);
        }
    }
    Ok(left)
}

/// The answers of a call of a node that aren't seen to lead to no binding: a known argument differs
/// from a literal, a guard over known arguments isn't true, or an arc finds no token.
pub(crate) fn answers_left(
    alloc: Global,
    at: NodeView<'_>,
    i: usize,
    downlink: &Downlink,
    inst: &InstRef,
    called: Called,
) -> Result<Left, NoMemory>
    requires at { IsNodeView at }
    requires link { slice_get at.transition.now.downlinks i ≡ Some downlink.now }
{
    let decisions = at.growing.decisions();
    let answers = at.problem.answers(decisions, at.node, i, called);
    if answers.len() < 2 || answers.len() > FEW {
        return Ok(all_of(answers.len()));
    }
    let Some(net) = at.problem.net_called(decisions, called) else {
        return Ok(all_of(answers.len()));
    };
    let values = known_args(alloc, at.growing, at.head, downlink.args.as_slice())?;
    left_among(alloc, at.problem, inst, net, answers, values.as_slice())
}
