//! Looking for free variables in a term: each shared term is gone through once.
ghost use Rattle.std.specs.Prelude.{◌≡◌, ◌↔◌, ◌⊎◌, ◌<◌, ◌++◌, length, IsTrue, IfOk};
ghost use Rattle.rn_term.specs.Assignments.{Keeps};
ghost use Rattle.rn_term.specs.link.Seen.{IsSeen};
ghost use Rattle.rn_term.specs.Occurring.{HasSought, IsFree, IsSoughtHere, Occurs, parts_of};

use crate::seen::Seen;
use crate::store::Store;
use crate::term::Term;
use rn_value::NoMemory;
use std::alloc::Global;

impl Store {
    /// Whether a free variable occurs in what an id names. It goes through each shared term once, and
    /// not at all where it is known that no variable stands in the term.
    pub fn occurs(&self, alloc: Global, var: usize, id: usize) -> Result<bool, NoMemory>
        requires free { IsFree self.now var }
        requires within { id < length self.now.terms }
        ensures exact { IfOk result (λ yes. IsTrue yes ↔ Occurs self.now var id) }
    {
        let end = self.follow(id);
        if end == var {
            return Ok(true);
        }
        if self.lacks(Some(var), end) {
            return Ok(false);
        }
        match self.term(end) {
            Term::Free => Ok(false),
            _ => self.has_sought(alloc, Some(var), end),
        }
    }

    /// Whether this free variable, or any where none is given, occurs in what an id names. What is
    /// left to look at stands on a stack, the next one last.
    pub(crate) fn has_sought(
        &self,
        alloc: Global,
        sought: Option<usize>,
        id: usize,
    ) -> Result<bool, NoMemory>
        requires kept { Keeps self.now }
        requires within { id < length self.now.terms }
        ensures exact { IfOk result (λ yes. IsTrue yes ↔ HasSought self.now sought id) }
    {
        let mut seen = Seen::new(alloc, self.size());
        let mut rest = Vec::new(alloc);
        rest.push(id)?;
        while let Some(next) = rest.pop() {
            let end = self.follow(next);
            if !self.is_done(&seen, sought, end) {
                seen.add(alloc, end)?;
                if self.is_sought(sought, end) {
                    return Ok(true);
                }
                push_parts(self.term(end), &mut rest)?;
            }
        }
        Ok(false)
    }

    /// Whether a walk needn't go through a term: it did already, or finds nothing there.
    fn is_done(&self, seen: &Seen, sought: Option<usize>, id: usize) -> bool
        requires kept { Keeps self.now }
        ensures done { IsTrue result → IsSeen seen.now id ⊎ (¬ HasSought self.now sought id) }
    {
        seen.has(id) || self.lacks(sought, id)
    }

    /// Whether it is known without a walk that no variable that is looked for occurs in a term.
    fn lacks(&self, sought: Option<usize>, id: usize) -> bool
        requires kept { Keeps self.now }
        ensures none { IsTrue result → ¬ HasSought self.now sought id }
    {
        self.is_closed(id)
            || match sought {
                Some(var) => self.is_above(id, var),
                None => false,
            }
    }

    /// Whether an id that isn't bound is a free variable that is looked for.
    fn is_sought(&self, sought: Option<usize>, end: usize) -> bool
        requires within { end < length self.now.terms }
        ensures exact { IsTrue result ↔ IsSoughtHere self.now sought end }
    {
        match self.term(end) {
            Term::Free => match sought {
                Some(var) => var == end,
                None => true,
            },
            _ => false,
        }
    }
}

/// Appends the ids that a term is built of.
pub(crate) fn push_parts(term: &Term, rest: &mut Vec<usize>) -> Result<(), NoMemory>
    ensures pushed { IfOk result (λ _. rest.new.items ≡ rest.old.items ++ parts_of term.now) }
{
    match term {
        Term::Tuple(ids) => rest.extend_from_slice(ids.as_slice())?,
        Term::List(ids) => rest.extend_from_slice(ids.as_slice())?,
        Term::Cons(ids, tail) => {
            rest.extend_from_slice(ids.as_slice())?;
            rest.push(*tail)?;
        }
        _ => {}
    }
    Ok(())
}
