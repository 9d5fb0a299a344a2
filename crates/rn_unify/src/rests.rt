//! Rests of lists: what is left of a list from an element on.
ghost use Rattle.std.specs.Prelude.{◌≡◌, ◌<◌, ◌≤◌, ◌+◌, List, drop, length};
ghost use Rattle.rn_value.specs.declared.value.Value.{Value};
ghost use Rattle.rn_value.specs.declared.value.Value.TheVariants as Worth;
ghost use Rattle.rn_term.specs.Stores.{term_at};
ghost use Rattle.rn_term.specs.Assignments.{Keeps, Satisfies};
ghost use Rattle.rn_unify.specs.link.Rests.{IsFurther, IsRest, IsSpelled, elements_of, spelled};
ghost use Rattle.rn_unify.specs.link.Rests.{rest_value};

use rn_term::{Store, Term};
use rn_value::Value;

/// What is left of a list from one of its elements on. The list is that of an id, and the element
/// is one before its tail, by its index from 0.
#[derive(Clone, Copy, Debug, PartialEq, Eq)]
pub(crate) struct Rest {
    pub(crate) id: usize,
    pub(crate) from: usize,
}

/// Whether this is a list whose first elements are terms of the store.
pub(crate) fn is_spelled(store: &Store, id: usize) -> bool
    requires within { id < length store.now.terms }
    ensures { result ≡ spelled (term_at store.now id) }
{
    match store.term(id) {
        Term::List(_) => true,
        Term::Cons(_, _) => true,
        _ => false,
    }
}

/// The elements of such a list before its tail.
pub(crate) fn elements(store: &Store, id: usize) -> &[usize]
    requires within { id < length store.now.terms }
    requires spelled { IsSpelled (term_at store.now id) }
    ensures { result.now ≡ elements_of (term_at store.now id) }
{
    match store.term(id) {
        Term::List(ids) => ids.as_slice(),
        Term::Cons(ids, _) => ids.as_slice(),
        _ => unreachable!(),
    }
}

/// The elements of a list that is a value.
pub(crate) fn items(list: &Value) -> &[Value]
    requires list { (items : List Value) × (list.now ≡ Worth.List items) }
    ensures { list.now ≡ Worth.List result.now }
{
    match list {
        Value::List(items) => items.as_slice(),
        _ => unreachable!(),
    }
}

/// The rest of a list after some more elements. After the last one before a tail it is in the tail.
pub(crate) fn advance(store: &Store, rest: Rest, count: usize) -> Rest
    requires kept { Keeps store.now }
    requires rest { IsRest store.now rest }
    requires spelled { IsSpelled (term_at store.now rest.id) }
    requires within { rest.from + count ≤ length (elements_of (term_at store.now rest.id)) }
    ensures rest { IsRest store.now result }
    ensures further { IsFurther store.now rest count result }
    ensures passes { (vs : List Value) → Satisfies store.now vs →
        rest_value vs result ≡ drop count (rest_value vs rest) }
{
    let end = elements(store, rest.id).len();
    let from = rest.from + count;
    match store.term(rest.id) {
        Term::Cons(_, tail) if from == end => Rest {
            id: store.follow(*tail),
            from: 0,
        },
        _ => Rest { id: rest.id, from },
    }
}
