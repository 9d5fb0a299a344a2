//! Comparing lists along their tails: what makes two lists one.
ghost use Rattle.std.specs.Prelude.{◌≡◌, ◌<◌, None, drop, length, IfOk};
ghost use Rattle.rn_term.specs.Stores.{link_of, term_at};
ghost use Rattle.rn_term.specs.Assignments.{Keeps, value_at};
ghost use Rattle.rn_term.specs.Occurring.{IsFree};
ghost use Rattle.rn_term.specs.Forcing.{IsAlwaysList, items_of};
ghost use Rattle.rn_unify.specs.link.Equations.{Adds, AreMade, Finds};
ghost use Rattle.rn_unify.specs.link.Rests.{IsRest, IsSpelled, elements_of, rest_value};
ghost use Rattle.rn_unify.specs.Unifying.{AreOne};

use crate::classes::Classes;
use crate::comparing::{compare_each, note};
use crate::equation::{Equation, Other};
use crate::matching::match_rest;
use crate::rests::{Rest, advance, elements, is_spelled, items};
use rn_term::{Store, Term};
use rn_value::NoMemory;
use std::alloc::Global;

/// Appends the equations that make two lists one, or reports that nothing makes them one. They are
/// gone through side by side, along their tails.
#[cycle(comparing)]
pub(crate) fn compare_lists(
    alloc: Global,
    store: &Store,
    a: usize,
    b: usize,
    made: &mut Classes,
    found: &mut Vec<Equation>,
) -> Result<bool, NoMemory>
    requires kept { Keeps store.now }
    requires a_within { a < length store.now.terms }
    requires b_within { b < length store.now.terms }
    requires a_end { link_of store.now.notes a ≡ None }
    requires b_end { link_of store.now.notes b ≡ None }
    requires a_spelled { IsSpelled (term_at store.now a) }
    requires b_spelled { IsSpelled (term_at store.now b) }
    requires made { AreMade store.now made.old found.old.items }
    ensures found { IfOk result
        (λ yes. Adds store.now (AreOne a b) made.new found.old.items found.new.items yes) }
{
    let mut left = Rest { id: a, from: 0 };
    let mut right = Rest { id: b, from: 0 };
    while is_spelled(store, left.id) && is_spelled(store, right.id) {
        let xs = remaining(store, left);
        let ys = remaining(store, right);
        let count = xs.len().min(ys.len());
        if count == 0 {
            return Ok(xs.len() == ys.len());
        }
        if !compare_each(alloc, store, &xs[..count], &ys[..count], made, found)? {
            return Ok(false);
        }
        left = advance(store, left, count);
        right = advance(store, right, count);
    }
    compare_rests(alloc, store, left, right, found)
}

/// The same of the rests of two lists, of which one is a variable or a value.
fn compare_rests(
    alloc: Global,
    store: &Store,
    left: Rest,
    right: Rest,
    found: &mut Vec<Equation>,
) -> Result<bool, NoMemory>
    requires kept { Keeps store.now }
    requires left { IsRest store.now left }
    requires right { IsRest store.now right }
    requires one { IsSpelled (term_at store.now left.id) →
        ¬ IsSpelled (term_at store.now right.id) }
    ensures found { IfOk result
        (λ yes. Finds store.now (λ vs. rest_value vs left ≡ rest_value vs right)
        found.old.items found.new.items yes) }
{
    match store.term(left.id) {
        Term::Free => variable_as_rest(store, left.id, right, found),
        Term::Atom(value) => { match_rest(alloc, items(value), Some(left.id), store, right, found) }
        _ => match store.term(right.id) {
            Term::Atom(value) => {
                match_rest(alloc, items(value), Some(right.id), store, left, found)
            }
            _ => variable_as_rest(store, right.id, left, found),
        },
    }
}

/// Notes that a free variable has to be the rest of a list.
fn variable_as_rest(
    store: &Store,
    var: usize,
    rest: Rest,
    found: &mut Vec<Equation>,
) -> Result<bool, NoMemory>
    requires kept { Keeps store.now }
    requires free { IsFree store.now var }
    requires list { IsAlwaysList store.now var }
    requires rest { IsRest store.now rest }
    ensures found { IfOk result
        (λ yes. Finds store.now (λ vs. items_of (value_at vs var) ≡ rest_value vs rest)
        found.old.items found.new.items yes) }
{
    if rest.from > 0 {
        return note(found, var, Other::Left(rest));
    }
    if rest.id == var {
        Ok(true)
    } else {
        note(found, var, Other::Here(rest.id))
    }
}

/// The elements of a list from an index on, before its tail.
fn remaining(store: &Store, rest: Rest) -> &[usize]
    requires rest { IsRest store.now rest }
    requires spelled { IsSpelled (term_at store.now rest.id) }
    ensures { result.now ≡ drop rest.from (elements_of (term_at store.now rest.id)) }
{
    &elements(store, rest.id)[rest.from..]
}
