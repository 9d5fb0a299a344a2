//! The values of terms in which no free variable occurs.
ghost use Rattle.std.specs.Prelude.{◌≡◌, ◌↔◌, ◌<◌, ◌++◌, List, length, Some, IfOk, IsNone, All};
ghost use Rattle.rn_value.specs.declared.value.Value.{Value};
ghost use Rattle.rn_value.specs.declared.value.Value.TheVariants as Worth;
ghost use Rattle.rn_term.specs.Assignments.{Keeps};
ghost use Rattle.rn_term.specs.Occurring.{HasFree};
ghost use Rattle.rn_term.specs.Forcing.{IsForced, IsAlwaysList, IsAnswer, AreAnswers};

use crate::store::Store;
use crate::term::Term;
use rn_items::Items;
use rn_value::{NoMemory, Value, copy, list_value, tuple_value};
use std::alloc::Global;

impl Store {
    /// The value of an id, or none where a free variable occurs in its term. So there is one
    /// exactly where all assignments give the id the same.
    ///
    /// A free variable is looked for first, once through each shared term. What makes the value
    /// recurses as deep as the value nests, and goes along links and tails by loops. There a term that
    /// occurs several times is gone through each time, as it then stands in the value.
    pub fn ground(&self, alloc: Global, id: usize) -> Result<Option<Value>, NoMemory>
        requires within { id < length self.now.terms }
        ensures none { IfOk result (λ answer. IsNone answer ↔ HasFree self.now id) }
        ensures some { IfOk result
            (λ answer. (v : Value) → (answer ≡ Some v) ↔ IsForced self.now id v) }
    {
        if self.is_composed(id) && self.has_sought(alloc, None, id)? {
            return Ok(None);
        }
        self.value_of(alloc, id)
    }

    /// Whether links lead to a term that is built of others.
    fn is_composed(&self, id: usize) -> bool
        requires within { id < length self.now.terms }
        ensures kept { Keeps self.now }
    {
        !matches!(self.term(self.follow(id)), Term::Free | Term::Atom(_))
    }

    #[cycle(ground)]
    fn value_of(&self, alloc: Global, id: usize) -> Result<Option<Value>, NoMemory>
        requires within { id < length self.now.terms }
        ensures answer { IfOk result (λ answer. IsAnswer self.now id answer) }
        ensures kept { Keeps self.now }
    {
        let end = self.follow(id);
        match self.term(end) {
            Term::Free => Ok(None),
            Term::Atom(value) => Ok(Some(copy(alloc, value)?)),
            Term::Tuple(ids) => {
                let mut values = Vec::new(alloc);
                if self.values_onto(alloc, ids.as_slice(), &mut values)? {
                    Ok(Some(tuple_value(alloc, Items::from_vec(values))?))
                } else {
                    Ok(None)
                }
            }
            Term::List(_) => self.list_value(alloc, end),
            Term::Cons(_, _) => self.list_value(alloc, end),
        }
    }

    /// Appends the values of ids to others, up to one in which a free variable occurs.
    #[cycle(ground)]
    fn values_onto(
        &self,
        alloc: Global,
        ids: &[usize],
        values: &mut Vec<Value>,
    ) -> Result<bool, NoMemory>
        requires within { All (λ id. id < length self.now.terms) ids.now }
        ensures answer { IfOk result
            (λ all. AreAnswers self.now ids.now values.old.items values.new.items all) }
    {
        for id in ids {
            match self.value_of(alloc, *id)? {
                Some(value) => values.push(value)?,
                None => return Ok(false),
            }
        }
        Ok(true)
    }

    /// The value of a list, along its tails.
    #[cycle(ground)]
    fn list_value(&self, alloc: Global, id: usize) -> Result<Option<Value>, NoMemory>
        requires within { id < length self.now.terms }
        requires list { IsAlwaysList self.now id }
        ensures answer { IfOk result (λ answer. IsAnswer self.now id answer) }
    {
        let mut values = Vec::new(alloc);
        let mut rest = id;
        loop {
            let end = self.follow(rest);
            match self.term(end) {
                Term::Cons(ids, tail) => {
                    if !self.values_onto(alloc, ids.as_slice(), &mut values)? {
                        return Ok(None);
                    }
                    rest = *tail;
                }
                Term::List(ids) => {
                    if !self.values_onto(alloc, ids.as_slice(), &mut values)? {
                        return Ok(None);
                    }
                    return Ok(Some(list_value(alloc, Items::from_vec(values))?));
                }
                Term::Atom(value) => return Ok(Some(list_onto(alloc, values, value)?)),
                Term::Free => return Ok(None),
                Term::Tuple(_) => unreachable!(),
            }
        }
    }
}

/// The list of these values and then the elements of a list.
fn list_onto(alloc: Global, values: Vec<Value>, list: &Value) -> Result<Value, NoMemory>
    requires list { (others : List Value) × (list.now ≡ Worth.List others) }
    ensures all { IfOk result (λ v. (others : List Value) → list.now ≡ Worth.List others →
        v ≡ Worth.List (values.items ++ others)) }
{
    match list {
        Value::List(items) => {
            let mut all = values;
            for item in items.as_slice() {
                all.push(copy(alloc, item)?)?;
            }
            list_value(alloc, Items::from_vec(all))
        }
        _ => unreachable!(),
    }
}
