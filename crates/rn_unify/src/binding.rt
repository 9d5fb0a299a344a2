//! Binding free variables where that is possible.
ghost use Rattle.std.specs.Prelude.{◌≡◌, ◌↔◌, ◌<◌, ◌≢◌, ◌⊎◌, None, IsTrue, length, IfOk, OnErr};
ghost use Rattle.std.specs.Prelude.{MatchBool};
ghost use Rattle.rn_term.specs.declared.term.Term.TheVariants as T;
ghost use Rattle.rn_term.specs.Stores.{link_of, term_at, with_note};
ghost use Rattle.rn_term.specs.Assignments.{Keeps, MayBeOne};
ghost use Rattle.rn_term.specs.Occurring.{IsFree};
ghost use Rattle.rn_term.specs.Forcing.{MayBeList};
ghost use Rattle.rn_unify.specs.link.Binding.{AreEnds, IsLeft, IsLinked, IsSolved};

use crate::comparing::is_variable;
use rn_term::{Store, Term};
use rn_value::{NoMemory, Value, same};
use std::alloc::Global;

/// Makes two ids one where a variable stands at the end of the links from one of them, or reports
/// that no assignment gives both one value. Where terms stand at both ends these are left to be
/// compared.
pub(crate) fn solve(
    alloc: Global,
    store: &mut Store,
    a: usize,
    b: usize,
    later: &mut Vec<(usize, usize)>,
) -> Result<bool, NoMemory>
    requires a_within { a < length store.old.terms }
    requires b_within { b < length store.old.terms }
    ensures solved { IfOk result (λ yes. MatchBool yes
        (IsSolved store.old a b later.old.items store.new later.new.items)
        ((store.new ≡ store.old) × ¬ MayBeOne store.old a b)) }
    ensures kept { Keeps store.new }
    ensures err { OnErr result (store.new ≡ store.old) }
{
    let x = store.follow(a);
    let y = store.follow(b);
    if x == y {
        return Ok(true);
    }
    if is_variable(store, x) || is_variable(store, y) {
        link_ends(alloc, store, x, y)
    } else {
        leave(store, x, y, later)
    }
}

/// Leaves two ids to be compared. Two values are compared at once.
fn leave(
    store: &Store,
    x: usize,
    y: usize,
    later: &mut Vec<(usize, usize)>,
) -> Result<bool, NoMemory>
    requires x_within { x < length store.now.terms }
    requires y_within { y < length store.now.terms }
    ensures left { IfOk result (λ yes. MatchBool yes
        (IsLeft store.now x y later.old.items later.new.items)
        (¬ MayBeOne store.now x y)) }
{
    if let Term::Atom(value) = store.term(x) {
        if let Term::Atom(other) = store.term(y) {
            return Ok(same(value, other));
        }
    }
    later.push((x, y))?;
    Ok(true)
}

/// Binds one of two ids to the other, of which one is a free variable at least, or reports that no
/// assignment gives both one value.
fn link_ends(alloc: Global, store: &mut Store, x: usize, y: usize) -> Result<bool, NoMemory>
    requires ends { AreEnds store.old x y x y }
    requires apart { x ≢ y }
    requires some { (term_at store.old x ≡ T.Free) ⊎ (term_at store.old y ≡ T.Free) }
    ensures linked { IfOk result (λ yes. MatchBool yes (IsLinked store.old x y store.new)
        ((store.new ≡ store.old) × ¬ MayBeOne store.old x y)) }
    ensures kept { Keeps store.new }
    ensures err { OnErr result (store.new ≡ store.old) }
{
    if !is_variable(store, x) {
        return try_bind(alloc, store, y, x);
    }
    if !is_variable(store, y) {
        return try_bind(alloc, store, x, y);
    }
    store.join(x, y)?;
    Ok(true)
}

/// Binds a free variable to what another id names, or reports that no assignment gives both one
/// value: where the variable occurs there, or is always a list and that never is.
fn try_bind(alloc: Global, store: &mut Store, var: usize, to: usize) -> Result<bool, NoMemory>
    requires kept { Keeps store.old }
    requires free { IsFree store.old var }
    requires within { to < length store.old.terms }
    requires end { link_of store.old.notes to ≡ None }
    requires apart { var ≢ to }
    ensures joined { IfOk result (λ yes. MatchBool yes
        (store.new ≡ with_note store.old var to)
        ((store.new ≡ store.old) × ¬ MayBeOne store.old var to)) }
    ensures kept { Keeps store.new }
    ensures err { OnErr result (store.new ≡ store.old) }
{
    if store.occurs(alloc, var, to)? {
        return Ok(false);
    }
    if !may_be_list(store, to) && store.only_lists(var) {
        return Ok(false);
    }
    store.bind(var, to)?;
    Ok(true)
}

fn may_be_list(store: &Store, id: usize) -> bool
    requires kept { Keeps store.now }
    requires within { id < length store.now.terms }
    requires end { link_of store.now.notes id ≡ None }
    ensures exact { IsTrue result ↔ MayBeList store.now id }
{
    match store.term(id) {
        Term::Tuple(_) => false,
        Term::Atom(value) => matches!(value, Value::List(_)),
        _ => true,
    }
}
