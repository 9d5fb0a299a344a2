//! What is a list under all assignments.
ghost use Rattle.std.specs.Prelude.{◌≡◌, ◌↔◌, ◌<◌, length, None, IsTrue};
ghost use Rattle.rn_term.specs.Stores.{link_of};
ghost use Rattle.rn_term.specs.Assignments.{Keeps};
ghost use Rattle.rn_term.specs.Forcing.{IsAlwaysList, EndsAList};

use crate::store::Store;
use crate::term::Term;
use rn_value::Value;

impl Store {
    /// Whether all assignments give this id a list, as they do where a list ends in it.
    ///
    /// Of a free variable it is found by a walk through lists that have a tail, from the last one
    /// down to where those that end in it begin. Where none ends in it there is mostly no step.
    pub fn only_lists(&self, id: usize) -> bool
        requires within { id < length self.now.terms }
        ensures exact { IsTrue result ↔ IsAlwaysList self.now id }
    {
        let end = self.follow(id);
        match self.term(end) {
            Term::List(_) => true,
            Term::Cons(_, _) => true,
            Term::Atom(value) => matches!(value, Value::List(_)),
            Term::Tuple(_) => false,
            Term::Free => self.ends_a_list(end),
        }
    }

    /// Whether a list ends in a free variable. The lists with a tail are looked through, the last one
    /// first, each naming the one before it, down to where those that end in it begin.
    fn ends_a_list(&self, var: usize) -> bool
        requires within { var < length self.now.terms }
        requires kept { Keeps self.now }
        requires unbound { link_of self.now.notes var ≡ None }
        ensures exact { IsTrue result ↔ EndsAList self.now var }
    {
        let floor = self.floor(var);
        let mut next = self.last_list(self.size());
        while let Some(id) = next {
            if id < floor {
                return false;
            }
            if let Term::Cons(_, tail) = self.term(id) {
                if self.follow(*tail) == var {
                    return true;
                }
            }
            next = self.last_list(id);
        }
        false
    }
}
