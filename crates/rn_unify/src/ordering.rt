//! In which order the variables of equations are bound.
//!
//! The occurs check is cheap where a variable is bound after those that occur in its term: then it
//! ends at what those were bound to, which was gone through before. The order that is chosen
//! changes no answer, and no clause speaks of it.
ghost use Rattle.std.specs.Prelude.{◌≡◌, ◌↔◌, List, length};
ghost use Rattle.std.specs.List.{AllByRecursion};
ghost use Rattle.rn_value.specs.declared.value.Value.{Value};
ghost use Rattle.rn_unify.specs.link.Equations.{IsFound, Solves};

use crate::equation::{Equation, Other};
use crate::rests::Rest;
use rn_term::{Store, Term};

/// The same equations, the last one to be bound first.
pub(crate) fn in_order(store: &Store, equations: Vec<Equation>) -> Vec<Equation>
    requires found { AllByRecursion (IsFound store.now) equations.items }
    ensures found { AllByRecursion (IsFound store.now) result.items }
    ensures same { (vs : List Value) → Solves vs equations.items ↔ Solves vs result.items }
    ensures each { length result.items ≡ length equations.items }
{
    let mut equations = equations;
    if leads_back(store, equations.as_slice()) {
        equations.reverse();
    }
    equations
}

/// Whether more equations lead back to the variable of the one before than on to that of the next.
fn leads_back(store: &Store, equations: &[Equation]) -> bool {
    let mut onward = 0usize;
    let mut back = 0usize;
    for k in 1..equations.len() {
        if leads_to(store, &equations[k - 1].other, equations[k].var) {
            onward = onward.saturating_add(1);
        }
        if leads_to(store, &equations[k].other, equations[k - 1].var) {
            back = back.saturating_add(1);
        }
    }
    back > onward
}

fn leads_to(store: &Store, other: &Other, var: usize) -> bool {
    match other {
        Other::Here(id) => *id < store.size() && ends_in(store, store.term(*id), var),
        Other::Left(rest) => rest_ends_in(store, *rest, var),
        _ => false,
    }
}

/// Whether a term's tail, its first or its last part leads to a variable.
fn ends_in(store: &Store, term: &Term, var: usize) -> bool {
    match term {
        Term::Cons(_, tail) => is_at(store, *tail, var),
        Term::Tuple(ids) => begins_or_ends(store, ids.as_slice(), var),
        Term::List(ids) => begins_or_ends(store, ids.as_slice(), var),
        _ => false,
    }
}

/// The same of what is left of a list.
fn rest_ends_in(store: &Store, rest: Rest, var: usize) -> bool {
    if rest.id >= store.size() {
        return false;
    }
    match store.term(rest.id) {
        Term::Cons(_, tail) => is_at(store, *tail, var),
        Term::List(ids) => {
            rest.from < ids.len() && begins_or_ends(store, &ids[rest.from..], var)
        }
        _ => false,
    }
}

fn begins_or_ends(store: &Store, ids: &[usize], var: usize) -> bool {
    !ids.is_empty() && (is_at(store, ids[0], var) || is_at(store, ids[ids.len() - 1], var))
}

fn is_at(store: &Store, id: usize, var: usize) -> bool {
    id < store.size() && store.follow(id) == var
}
