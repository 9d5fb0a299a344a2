//! Matching terms against values: what gives a term a value.
ghost use Rattle.std.specs.Prelude.{◌≡◌, ◌<◌, map, length, IfOk, All};
ghost use Rattle.rn_value.specs.declared.value.Value.TheVariants as Worth;
ghost use Rattle.rn_term.specs.Assignments.{Keeps, value_at};
ghost use Rattle.rn_unify.specs.link.Equations.{Finds, IsSource, left_other};
ghost use Rattle.rn_unify.specs.link.Rests.{IsRest, rest_value};

use crate::comparing::note;
use crate::equation::{Equation, Other};
use crate::rests::{Rest, advance, items};
use rn_term::{Store, Term};
use rn_value::{NoMemory, Value, copy, copy_all, same, same_all};
use std::alloc::Global;

/// Appends the equations that give an id this value, or reports that nothing gives it. Where the
/// value stands in the store, `source` is the id that names it.
#[cycle(matching)]
pub(crate) fn match_value(
    alloc: Global,
    value: &Value,
    source: Option<usize>,
    store: &Store,
    id: usize,
    found: &mut Vec<Equation>,
) -> Result<bool, NoMemory>
    requires within { id < length store.now.terms }
    requires source { IsSource store.now source value.now }
    ensures found { IfOk result
        (λ yes. Finds store.now (λ vs. value_at vs id ≡ value.now)
        found.old.items found.new.items yes) }
{
    let end = store.follow(id);
    match store.term(end) {
        Term::Free => {
            let value = copy(alloc, value)?;
            note(found, end, Other::Value(value))
        }
        Term::Atom(other) => Ok(same(other, value)),
        Term::Tuple(ids) => match value {
            Value::Tuple(parts) => {
                match_parts(alloc, parts.as_slice(), store, ids.as_slice(), found)
            }
            _ => Ok(false),
        },
        _ => match value {
            Value::List(parts) => {
                match_rest(
                    alloc,
                    parts.as_slice(),
                    source,
                    store,
                    Rest { id: end, from: 0 },
                    found,
                )
            }
            _ => Ok(false),
        },
    }
}

/// The same of ids and values, one by one. They have to be as many.
#[cycle(matching)]
fn match_parts(
    alloc: Global,
    values: &[Value],
    store: &Store,
    ids: &[usize],
    found: &mut Vec<Equation>,
) -> Result<bool, NoMemory>
    requires within { All (λ id. id < length store.now.terms) ids.now }
    ensures found { IfOk result
        (λ yes. Finds store.now (λ vs. map (value_at vs) ids.now ≡ values.now)
        found.old.items found.new.items yes) }
{
    if values.len() != ids.len() {
        return Ok(false);
    }
    for k in 0..values.len() {
        if !match_value(alloc, &values[k], None, store, ids[k], found)? {
            return Ok(false);
        }
    }
    Ok(true)
}

/// The same of the rest of a list and its elements. It is gone through along its tails. Where the
/// elements are those of a list of the store, `source` is the id that names this.
#[cycle(matching)]
pub(crate) fn match_rest(
    alloc: Global,
    values: &[Value],
    source: Option<usize>,
    store: &Store,
    rest: Rest,
    found: &mut Vec<Equation>,
) -> Result<bool, NoMemory>
    requires kept { Keeps store.now }
    requires rest { IsRest store.now rest }
    requires source { IsSource store.now source (Worth.List values.now) }
    ensures found { IfOk result
        (λ yes. Finds store.now (λ vs. rest_value vs rest ≡ values.now)
        found.old.items found.new.items yes) }
{
    let all = values.len();
    let mut values = values;
    let mut rest = rest;
    loop {
        match store.term(rest.id) {
            Term::Cons(ids, _) => {
                let count = ids.len() - rest.from;
                if values.len() < count {
                    return Ok(false);
                }
                let (prefix, later) = values.split_at(count);
                if !match_parts(alloc, prefix, store, &ids[rest.from..], found)? {
                    return Ok(false);
                }
                values = later;
                rest = advance(store, rest, count);
            }
            Term::List(ids) => {
                return match_parts(alloc, values, store, &ids[rest.from..], found);
            }
            Term::Atom(list) => return Ok(same_all(items(list), values)),
            Term::Free => {
                let left = left_of(alloc, source, all - values.len(), values)?;
                return note(found, rest.id, left);
            }
            Term::Tuple(_) => unreachable!(),
        }
    }
}

/// What is left of a list's elements from one on. It is copied where no id names the list.
fn left_of(
    alloc: Global,
    source: Option<usize>,
    from: usize,
    left: &[Value],
) -> Result<Other, NoMemory>
    ensures { IfOk result (λ other. other ≡ left_other source from left.now) }
{
    match source {
        Some(id) => Ok(Other::Left(Rest { id, from })),
        None => Ok(Other::Values(copy_all(alloc, left)?)),
    }
}
