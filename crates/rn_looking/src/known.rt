//! What is known of the variables of an expression, or of a guard: the values to which they are
//! forced. Where one isn't forced nothing is known: it is never guessed, since a value that nothing
//! forces belongs to no enabled binding (`docs/SEARCH.md`, 'A binding grows by decisions').
ghost use Rattle.std.specs.Prelude.{◌≡◌, IfOk, IfSome, MatchOption, All};
ghost use Rattle.rn_model.specs.Systems.{vars_in};
ghost use Rattle.rn_looking.specs.Forced.{IsVarForcedIn};
ghost use Rattle.rn_looking.specs.Knowing.{ArePairsOf, KnowsVars, KnowsGuardVars};
ghost use Rattle.rn_looking.specs.Knowing.{AreOthersOf};
ghost use Rattle.rn_looking.specs.NodeKinds.{KnowsForced};

use crate::guard_vars::put_guard;
use rn_calc::Values;
use rn_growing::{Growing, Head};
use rn_model::{Cond, Expr, put_vars};
use rn_value::{InstRef, NoMemory, Value};
use std::alloc::Global;

/// The values to which variables of a node are forced.
#[derive(Drop)]
pub(crate) struct Known<'a> {
    this: &'a InstRef,
    pairs: Vec<(u32, Value)>,
}

impl<'a> Known<'a> {
    /// An instance, and values of variables.
    pub(crate) fn of(this: &'a InstRef, pairs: Vec<(u32, Value)>) -> Known<'a>
        ensures { result.pairs ≡ pairs }
    {
        Known { this, pairs }
    }
}

impl Values for Known<'_> {
    ghost use Rattle.rn_looking.specs.Knowing.{known_env};

    ghost env = { known_env };

    fn this(&self) -> &InstRef {
        self.this
    }

    fn step(&self) -> Option<u64> {
        None
    }

    fn value(&self, x: u32) -> Option<&Value> {
        for pair in self.pairs.as_slice() {
            if pair.0 == x {
                return Some(&pair.1);
            }
        }
        None
    }
}

// The values of these variables of a node, or `None` where one isn't forced. It takes no memory
// where the first isn't.
fn values_of(
    alloc: Global,
    growing: &Growing<'_>,
    path: &[u32],
    vars: &[u32],
) -> Result<Option<Vec<(u32, Value)>>, NoMemory>
    ensures { IfOk result (λ pairs. MatchOption pairs
        (¬ All (IsVarForcedIn growing.now path.now) vars.now)
        (λ ps. ArePairsOf growing.now path.now vars.now ps.items)) }
{
    let mut pairs = Vec::new(alloc);
    for x in vars {
        let Some(value) = growing.value(alloc, path, *x)? else {
            return Ok(None);
        };
        pairs.push((*x, value))?;
    }
    Ok(Some(pairs))
}

/// The values of these variables of a node but for one, or `None` where another isn't forced.
pub fn values_but(
    alloc: Global,
    growing: &Growing<'_>,
    path: &[u32],
    but: u32,
    vars: &[u32],
) -> Result<Option<Vec<(u32, Value)>>, NoMemory>
    ensures { IfOk result (λ pairs. IfSome pairs
        (λ ps. AreOthersOf growing.now path.now but vars.now ps.items)) }
{
    let mut pairs = Vec::new(alloc);
    for x in vars {
        if *x != but {
            let Some(value) = growing.value(alloc, path, *x)? else {
                return Ok(None);
            };
            pairs.push((*x, value))?;
        }
    }
    Ok(Some(pairs))
}

// The values of the variables of an expression of a node, or `None` where one isn't forced.
fn values_in(
    alloc: Global,
    growing: &Growing<'_>,
    path: &[u32],
    expr: &Expr,
) -> Result<Option<Vec<(u32, Value)>>, NoMemory>
    ensures { IfOk result (λ pairs. MatchOption pairs
        (¬ All (IsVarForcedIn growing.now path.now) (vars_in expr.now))
        (λ ps. ArePairsOf growing.now path.now (vars_in expr.now) ps.items)) }
{
    if let Expr::Var(x) = expr {
        return values_of(alloc, growing, path, &[*x]);
    }
    let mut vars = Vec::new(alloc);
    put_vars(expr, &mut vars)?;
    values_of(alloc, growing, path, vars.as_slice())
}

/// What is known of the variables of an expression of a node, or `None` where one isn't forced.
pub(crate) fn known_in<'a>(
    alloc: Global,
    growing: &Growing<'_>,
    head: &'a Head,
    expr: &Expr,
) -> Result<Option<Known<'a>>, NoMemory>
    ensures knows { IfOk result (λ known. KnowsVars growing.now head.now expr.now known) }
    ensures forced { IfOk result (λ known. KnowsForced growing.now head.now known) }
{
    match values_in(alloc, growing, head.path.as_slice(), expr)? {
        Some(pairs) => Ok(Some(Known {
            this: &head.inst,
            pairs,
        })),
        None => Ok(None),
    }
}

/// What is known of the variables of a guard of a node, or `None` where one isn't forced.
pub(crate) fn known_in_guard<'a>(
    alloc: Global,
    growing: &Growing<'_>,
    head: &'a Head,
    guard: &Cond,
) -> Result<Option<Known<'a>>, NoMemory>
    ensures knows { IfOk result (λ known. KnowsGuardVars growing.now head.now guard.now known) }
    ensures forced { IfOk result (λ known. KnowsForced growing.now head.now known) }
{
    let mut vars = Vec::new(alloc);
    put_guard(guard, &mut vars)?;
    match values_of(alloc, growing, head.path.as_slice(), vars.as_slice())? {
        Some(pairs) => Ok(Some(Known {
            this: &head.inst,
            pairs,
        })),
        None => Ok(None),
    }
}
