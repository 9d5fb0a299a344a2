//! Comparing terms: what makes two terms one.
ghost use Rattle.std.specs.Prelude.{◌≡◌, ◌↔◌, ◌<◌, ◌++◌, ◌∷◌, [], IsTrue, map, length, IfOk, All, None};
ghost use Rattle.rn_term.specs.declared.term.Term.TheVariants as T;
ghost use Rattle.rn_term.specs.Stores.{link_of, term_at};
ghost use Rattle.rn_term.specs.Assignments.{Keeps, value_at};
ghost use Rattle.rn_unify.specs.link.Equations.{Adds, AreMade};
ghost use Rattle.rn_unify.specs.link.Rests.{IsComposed, IsSpelled};
ghost use Rattle.rn_unify.specs.Unifying.{AreOne};

use crate::classes::Classes;
use crate::equation::{Equation, Other};
use crate::lists::compare_lists;
use crate::matching::match_value;
use crate::rests::is_spelled;
use rn_term::{Store, Term};
use rn_value::NoMemory;
use std::alloc::Global;

/// Appends the equations that make two ids one, or reports that nothing makes them one.
///
/// It walks through both terms side by side. Where a free variable stands it notes the equation,
/// and binds nothing. Ids that were made one before are passed over.
#[cycle(comparing)]
pub(crate) fn compare(
    alloc: Global,
    store: &Store,
    a: usize,
    b: usize,
    made: &mut Classes,
    found: &mut Vec<Equation>,
) -> Result<bool, NoMemory>
    requires a_within { a < length store.now.terms }
    requires b_within { b < length store.now.terms }
    requires made { AreMade store.now made.old found.old.items }
    ensures found { IfOk result
        (λ yes. Adds store.now (AreOne a b) made.new found.old.items found.new.items yes) }
    ensures kept { Keeps store.now }
{
    let x = store.follow(a);
    let y = store.follow(b);
    if made.are_one(x, y) {
        return Ok(true);
    }
    if !compare_ends(alloc, store, x, y, made, found)? {
        return Ok(false);
    }
    made.join(alloc, x, y)?;
    Ok(true)
}

/// The same of two ids that are bound to nothing.
#[cycle(comparing)]
fn compare_ends(
    alloc: Global,
    store: &Store,
    x: usize,
    y: usize,
    made: &mut Classes,
    found: &mut Vec<Equation>,
) -> Result<bool, NoMemory>
    requires kept { Keeps store.now }
    requires x_within { x < length store.now.terms }
    requires y_within { y < length store.now.terms }
    requires x_end { link_of store.now.notes x ≡ None }
    requires y_end { link_of store.now.notes y ≡ None }
    requires made { AreMade store.now made.old found.old.items }
    ensures found { IfOk result
        (λ yes. Adds store.now (AreOne x y) made.new found.old.items found.new.items yes) }
{
    if x == y {
        return Ok(true);
    }
    if is_variable(store, x) {
        return note(found, x, Other::Here(y));
    }
    if is_variable(store, y) {
        return note(found, y, Other::Here(x));
    }
    if let Term::Atom(value) = store.term(x) {
        return match_value(alloc, value, Some(x), store, y, found);
    }
    if let Term::Atom(value) = store.term(y) {
        return match_value(alloc, value, Some(y), store, x, found);
    }
    if is_spelled(store, x) && is_spelled(store, y) {
        return compare_lists(alloc, store, x, y, made, found);
    }
    compare_tuples(alloc, store, x, y, made, found)
}

/// Notes an equation.
pub(crate) fn note(found: &mut Vec<Equation>, var: usize, other: Other) -> Result<bool, NoMemory>
    ensures noted { IfOk result (λ yes. IsTrue yes
        × (found.new.items ≡ found.old.items ++ record { var = var; other = other } ∷ [])) }
{
    found.push(Equation { var, other })?;
    Ok(true)
}

pub(crate) fn is_variable(store: &Store, id: usize) -> bool
    requires within { id < length store.now.terms }
    ensures { IsTrue result ↔ (term_at store.now id ≡ T.Free) }
{
    matches!(store.term(id), Term::Free)
}

/// The same of two terms of which one is a tuple, and none is a variable or a value.
#[cycle(comparing)]
fn compare_tuples(
    alloc: Global,
    store: &Store,
    a: usize,
    b: usize,
    made: &mut Classes,
    found: &mut Vec<Equation>,
) -> Result<bool, NoMemory>
    requires kept { Keeps store.now }
    requires a_within { a < length store.now.terms }
    requires b_within { b < length store.now.terms }
    requires a_built { IsComposed (term_at store.now a) }
    requires b_built { IsComposed (term_at store.now b) }
    requires one { IsSpelled (term_at store.now a) → ¬ IsSpelled (term_at store.now b) }
    requires made { AreMade store.now made.old found.old.items }
    ensures found { IfOk result
        (λ yes. Adds store.now (AreOne a b) made.new found.old.items found.new.items yes) }
{
    let Term::Tuple(xs) = store.term(a) else {
        return Ok(false);
    };
    let Term::Tuple(ys) = store.term(b) else {
        return Ok(false);
    };
    if xs.len() == ys.len() {
        compare_each(alloc, store, xs.as_slice(), ys.as_slice(), made, found)
    } else {
        Ok(false)
    }
}

/// The same of ids and others, one by one.
#[cycle(comparing)]
pub(crate) fn compare_each(
    alloc: Global,
    store: &Store,
    xs: &[usize],
    ys: &[usize],
    made: &mut Classes,
    found: &mut Vec<Equation>,
) -> Result<bool, NoMemory>
    requires xs_within { All (λ id. id < length store.now.terms) xs.now }
    requires ys_within { All (λ id. id < length store.now.terms) ys.now }
    requires each { length xs.now ≡ length ys.now }
    requires made { AreMade store.now made.old found.old.items }
    ensures found { IfOk result
        (λ yes. Adds store.now (λ vs. map (value_at vs) xs.now ≡ map (value_at vs) ys.now) made.new
        found.old.items found.new.items yes) }
{
    for k in 0..xs.len() {
        if !compare(alloc, store, xs[k], ys[k], made, found)? {
            return Ok(false);
        }
    }
    Ok(true)
}
