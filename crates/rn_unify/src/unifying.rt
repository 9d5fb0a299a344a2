//! Unification: what makes two ids one, and binding variables accordingly.
ghost use Rattle.std.specs.Prelude.{◌≡◌, ◌↔◌, ◌<◌, List, IsTrue, length, IfOk, []};
ghost use Rattle.std.specs.Prelude.{MatchOption};
ghost use Rattle.std.specs.List.{AllByRecursion};
ghost use Rattle.rn_value.specs.declared.value.Value.{Value};
ghost use Rattle.rn_term.specs.Assignments.{Keeps, MayBeOne, Satisfies};
ghost use Rattle.rn_term.specs.Undoing.{LeavesEarlier};
ghost use Rattle.rn_unify.specs.link.Binding.{IsBound};
ghost use Rattle.rn_unify.specs.link.Equations.{AreEachOne, AreWithin, Finds, IsFound, Solves};
ghost use Rattle.rn_unify.specs.Unifying.{SaysBoth};

use crate::adding::add_other;
use crate::binding::solve;
use crate::classes::Classes;
use crate::comparing::compare;
use crate::equation::Equation;
use crate::ordering::in_order;
use rn_term::Store;
use rn_value::NoMemory;
use std::alloc::Global;

/// Makes two ids one, by binding variables, or reports that no assignment of the store gives both
/// one value.
///
/// After `true` the assignments of the store, on the ids that were there before, are exactly those
/// from before that give both ids one value. After `false`, or where memory runs out, bindings
/// that were made may stand until they are undone.
pub fn unify(alloc: Global, store: &mut Store, a: usize, b: usize) -> Result<bool, NoMemory>
    requires a_within { a < length store.old.terms }
    requires b_within { b < length store.old.terms }
    ensures exact { IfOk result (λ yes. IsTrue yes ↔ MayBeOne store.old a b) }
    ensures means { IfOk result (λ yes. IsTrue yes → SaysBoth store.old store.new a b) }
    ensures earlier { LeavesEarlier store.old store.new }
{
    let mut pairs = Vec::new(alloc);
    if !solve(alloc, store, a, b, &mut pairs)? {
        return Ok(false);
    }
    while !pairs.is_empty() {
        let mut found = Vec::new(alloc);
        if !compare_all(alloc, store, pairs.as_slice(), &mut found)? {
            return Ok(false);
        }
        if found.is_empty() {
            return Ok(true);
        }
        match bind_all(alloc, store, in_order(store, found))? {
            Some(later) => pairs = later,
            None => return Ok(false),
        }
    }
    Ok(true)
}

/// Appends the equations that make each of some pairs one, or reports that nothing does.
fn compare_all(
    alloc: Global,
    store: &Store,
    pairs: &[(usize, usize)],
    found: &mut Vec<Equation>,
) -> Result<bool, NoMemory>
    requires within { AreWithin store.now pairs.now }
    requires none { found.old.items ≡ [] }
    ensures found { IfOk result
        (λ yes. Finds store.now (AreEachOne pairs.now) found.old.items found.new.items yes) }
    ensures kept { IfOk result (λ yes. 0 < length pairs.now → Keeps store.now) }
{
    let mut made = Classes::new(alloc, store.size());
    for (a, b) in pairs {
        if !compare(alloc, store, *a, *b, &mut made, found)? {
            return Ok(false);
        }
    }
    Ok(true)
}

/// Binds the variables of equations, the last one first. What has to be one besides comes back as
/// pairs. None comes where no assignment satisfies all of them.
fn bind_all(
    alloc: Global,
    store: &mut Store,
    equations: Vec<Equation>,
) -> Result<Option<Vec<(usize, usize)>>, NoMemory>
    requires kept { Keeps store.old }
    requires found { AllByRecursion (IsFound store.old) equations.items }
    ensures bound { IfOk result (λ later. MatchOption later
        ((vs : List Value) → Satisfies store.old vs → ¬ Solves vs equations.items)
        (λ pairs. IsBound store.old equations.items store.new pairs.items)) }
    ensures earlier { LeavesEarlier store.old store.new }
{
    let mut rest = equations;
    let mut later = Vec::new(alloc);
    let mut newest = None;
    while let Some(Equation { var, other }) = rest.pop() {
        let to = add_other(alloc, store, other, &mut newest)?;
        if !solve(alloc, store, var, to, &mut later)? {
            return Ok(None);
        }
    }
    Ok(Some(later))
}
