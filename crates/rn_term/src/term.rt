//! Terms, and the undo marks of a store.
use rn_items::Items;
use rn_value::Value;

/// Indices of terms in a store, from 0.
pub type Ids = Items<usize>;

/// A term of a store. Its parts are named by their ids.
///
/// `Free` is a variable. `Cons(a, b, t)` is the list of `a`, `b` and then the elements of the list
/// `t`.
#[derive(Debug, Drop)]
pub enum Term {
    Free,
    Atom(Value),
    Tuple(Ids),
    List(Ids),
    Cons(Ids, usize),
}

/// An undo mark: how many terms a store had, and how many notes its trail had.
#[derive(Clone, Copy, Debug, PartialEq, Eq)]
pub struct Mark {
    pub size: usize,
    pub notes: usize,
}
