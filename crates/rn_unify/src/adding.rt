//! Adding what a variable has to be to a store, long lists in blocks.
//!
//! A block of a list's elements stands before the next one as its tail. So what is left of a long
//! list after some elements is a part of one block, before a tail that is there already.
ghost use Rattle.std.specs.Prelude.{◌≡◌, ◌≢◌, ◌<◌, length, IfOk};
ghost use Rattle.rn_term.specs.declared.term.Term.TheVariants as T;
ghost use Rattle.rn_term.specs.Stores.{term_at};
ghost use Rattle.rn_term.specs.Assignments.{Keeps};
ghost use Rattle.rn_term.specs.Undoing.{LeavesEarlier};
ghost use Rattle.rn_unify.specs.declared.equation.Other.TheVariants as O;
ghost use Rattle.rn_unify.specs.link.Adding.{IsKnown, IsOf, IsPlaced, MayStand, Turns, list_of};
ghost use Rattle.rn_unify.specs.link.Equations.{CanStand, IsOther};

use crate::equation::Other;
use crate::rests::{Rest, items};
use rn_items::Items;
use rn_term::{Store, Term};
use rn_value::{NoMemory, Value, copy_all, list_value};
use std::alloc::Global;

/// How many elements a list may have that is added whole.
const WHOLE: usize = 32;

/// How many elements of a longer list a block has.
const BLOCK: usize = 16;

/// The rest of a list that was added last, and its id.
pub(crate) type Newest = Option<(Rest, usize)>;

/// The id of what a variable has to be, which is added where it is new. What is left of a list
/// isn't added twice in a row.
pub(crate) fn add_other(
    alloc: Global,
    store: &mut Store,
    other: Other,
    newest: &mut Newest,
) -> Result<usize, NoMemory>
    requires kept { Keeps store.old }
    requires stands { CanStand store.old other }
    requires known { IsKnown store.old newest.old }
    ensures within { IfOk result (λ to. to < length store.new.terms) }
    ensures added { IfOk result (λ to.
        Turns store.old (IsOther other) store.new (IsOther (O.Here to))) }
    ensures placed { IfOk result (λ to. IsPlaced store.new other to) }
    ensures known { IfOk result (λ to. IsKnown store.new newest.new) }
    ensures earlier { LeavesEarlier store.old store.new }
{
    match other {
        Other::Here(id) => Ok(id),
        Other::Value(value) => add_term(store, Term::Atom(value)),
        Other::Values(values) => add_values(alloc, store, values.into_vec()),
        Other::Left(rest) => add_left(alloc, store, rest, newest),
    }
}

/// Adds what is left of a list, but where that was added last.
fn add_left(
    alloc: Global,
    store: &mut Store,
    rest: Rest,
    newest: &mut Newest,
) -> Result<usize, NoMemory>
    requires kept { Keeps store.old }
    requires stands { CanStand store.old (O.Left rest) }
    requires known { IsKnown store.old newest.old }
    ensures within { IfOk result (λ to. to < length store.new.terms) }
    ensures added { IfOk result (λ to.
        Turns store.old (IsOther (O.Left rest)) store.new (IsOther (O.Here to))) }
    ensures placed { IfOk result (λ to. term_at store.new to ≢ T.Free) }
    ensures known { IfOk result (λ to. IsKnown store.new newest.new) }
    ensures earlier { LeavesEarlier store.old store.new }
{
    if let Some((known, to)) = *newest {
        if known == rest {
            return Ok(to);
        }
    }
    let to = add_rest(alloc, store, rest)?;
    *newest = Some((rest, to));
    Ok(to)
}

/// Adds what is left of a list.
fn add_rest(alloc: Global, store: &mut Store, rest: Rest) -> Result<usize, NoMemory>
    requires kept { Keeps store.old }
    requires stands { CanStand store.old (O.Left rest) }
    ensures within { IfOk result (λ to. to < length store.new.terms) }
    ensures added { IfOk result (λ to.
        Turns store.old (IsOther (O.Left rest)) store.new (IsOther (O.Here to))) }
    ensures placed { IfOk result (λ to. term_at store.new to ≢ T.Free) }
    ensures earlier { LeavesEarlier store.old store.new }
{
    match store.term(rest.id) {
        Term::Cons(ids, tail) => {
            let tail = *tail;
            let left = Vec::from_slice(alloc, &ids[rest.from..])?;
            add_list(store, left, Some(tail))
        }
        Term::List(ids) => {
            let left = Vec::from_slice(alloc, &ids[rest.from..])?;
            add_list(store, left, None)
        }
        Term::Atom(list) => {
            let left = copy_all(alloc, &items(list)[rest.from..])?;
            add_values(alloc, store, left.into_vec())
        }
        _ => unreachable!(),
    }
}

/// Adds a term whole, and returns its id.
fn add_term(store: &mut Store, term: Term) -> Result<usize, NoMemory>
    requires kept { Keeps store.old }
    requires stands { MayStand store.old term }
    ensures within { IfOk result (λ to. to < length store.new.terms) }
    ensures added { IfOk result (λ to.
        Turns store.old (IsOf term) store.new (IsOther (O.Here to))) }
    ensures placed { IfOk result (λ to. term_at store.new to ≢ T.Free) }
    ensures earlier { LeavesEarlier store.old store.new }
{
    store.add(term)
}

/// Adds a list of these elements before a tail, or before none: its last elements in blocks.
fn add_list(store: &mut Store, ids: Vec<usize>, tail: Option<usize>) -> Result<usize, NoMemory>
    requires kept { Keeps store.old }
    requires stands { MayStand store.old (list_of ids.items tail) }
    ensures within { IfOk result (λ to. to < length store.new.terms) }
    ensures added { IfOk result (λ to.
        Turns store.old (IsOf (list_of ids.items tail)) store.new (IsOther (O.Here to))) }
    ensures placed { IfOk result (λ to. term_at store.new to ≢ T.Free) }
    ensures earlier { LeavesEarlier store.old store.new }
{
    let mut first = ids;
    let mut tail = tail;
    while first.len() > WHOLE {
        let block = first.split_off(first.len() - BLOCK)?;
        tail = Some(store.add(list_term(block, tail))?);
    }
    add_term(store, list_term(first, tail))
}

fn list_term(ids: Vec<usize>, tail: Option<usize>) -> Term
    ensures { result ≡ list_of ids.items tail }
{
    let ids = Items::from_vec(ids);
    match tail {
        Some(tail) => Term::Cons(ids, tail),
        None => Term::List(ids),
    }
}

/// Adds a list of values, the values of a long one each by itself.
fn add_values(alloc: Global, store: &mut Store, values: Vec<Value>) -> Result<usize, NoMemory>
    requires kept { Keeps store.old }
    ensures within { IfOk result (λ to. to < length store.new.terms) }
    ensures added { IfOk result (λ to.
        Turns store.old (IsOther (O.Values values.items)) store.new (IsOther (O.Here to))) }
    ensures placed { IfOk result (λ to. term_at store.new to ≢ T.Free) }
    ensures earlier { LeavesEarlier store.old store.new }
{
    if values.len() > WHOLE {
        let ids = add_each(alloc, store, values)?;
        add_list(store, ids, None)
    } else {
        let list = list_value(alloc, Items::from_vec(values))?;
        add_term(store, Term::Atom(list))
    }
}

/// Adds values, each by itself, and returns their ids.
fn add_each(alloc: Global, store: &mut Store, values: Vec<Value>) -> Result<Vec<usize>, NoMemory>
    requires kept { Keeps store.old }
    ensures stand { IfOk result (λ ids. MayStand store.new (T.List ids.items)) }
    ensures added { IfOk result (λ ids.
        Turns store.old (IsOther (O.Values values.items)) store.new
        (IsOf (T.List ids.items))) }
    ensures earlier { LeavesEarlier store.old store.new }
{
    let mut left = values;
    left.reverse();
    let mut ids = Vec::with_capacity(alloc, left.len())?;
    while let Some(value) = left.pop() {
        ids.push(store.add(Term::Atom(value))?)?;
    }
    Ok(ids)
}
