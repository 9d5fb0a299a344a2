//! A store with the ids of its unknowns. An unknown has one id at most, so what one equation says
//! of it holds in all others. Store and slots are taken back together, to one frame, or a slot
//! would name an id that the store doesn't have any more (`docs/SEARCH.md`, 'A binding grows by
//! decisions').
ghost use Rattle.std.specs.Prelude.{◌≡◌, ◌↔◌, ◌<◌, [], All, IfOk, IsTrue, Some, length};
ghost use Rattle.rn_value.specs.declared.value.Value.{Value};
ghost use Rattle.rn_value.specs.declared.value.Value.TheVariants as Worth;
ghost use Rattle.rn_term.specs.Assignments.{Keeps};
ghost use Rattle.rn_growing.specs.link.Building.{IsMade, PutsBefore};
ghost use Rattle.rn_growing.specs.link.Grown.{IsEarlier, laid_at};
ghost use Rattle.rn_growing.specs.link.Laid.{Builds, Equates, Grows, IsGiven};
ghost use Rattle.rn_growing.specs.link.Layouts.{IsLaidIn, asked, id_of};

use crate::slot::{Frame, Slot, Unknown};
use crate::slots::Slots;
use rn_items::Items;
use rn_shared::Shared;
use rn_term::{Ids, Mark, Store, Term};
use rn_unify::unify;
use rn_value::{NoMemory, Path, Value};
use std::alloc::Global;
use std::marker::Model;

/// A store with the ids of its unknowns.
#[derive(Drop)]
pub(crate) struct Laid {
    store: Store,
    slots: Slots,
}

impl Model for Laid {
    ghost use Rattle.rn_growing.specs.link.Laid.{LaidState};
    ghost use Rattle.rn_growing.specs.link.Layouts.{IsLaidIn, id_of};
    ghost use Rattle.rn_value.specs.contracts.value.Value as value;
    ghost use Rattle.std.specs.Coded.{codes};

    ghost Value = { LaidState };

    ghost coded = { Prim.hlevel (codes, value.the_row.coded) };

    ghost view = { λ l. record { store = l.store; slots = l.slots } };

    ghost invariant = { λ l. IsLaidIn (id_of l.slots) l.store };
}

impl Laid {
    pub(crate) fn new(alloc: Global) -> Laid
        ensures { result ≡ record { store = record { terms = []; notes = [] }; slots = [] } }
    {
        Laid {
            store: Store::new(alloc),
            slots: Slots::new(alloc),
        }
    }

    /// The same, with room for so many slots.
    pub(crate) fn with_room(alloc: Global, slots: usize) -> Result<Laid, NoMemory>
        ensures { IfOk result
            (λ laid. laid ≡ record { store = record { terms = []; notes = [] }; slots = [] }) }
    {
        let slots = Slots::with_room(alloc, slots)?;
        Ok(Laid {
            store: Store::new(alloc),
            slots,
        })
    }

    /// The sizes as they are.
    pub(crate) fn frame(&self) -> Frame
        ensures now { laid_at self.now result ≡ self.now }
        ensures earlier { IsEarlier result self.now }
        ensures kept { Keeps self.now.store }
        ensures laid { IsLaidIn (id_of self.now.slots) self.now.store }
    {
        Frame {
            mark: self.store.mark(),
            slots: self.slots.len(),
        }
    }

    /// Takes back what came after a frame.
    pub(crate) fn undo(&mut self, to: &Frame)
        requires earlier { IsEarlier to.now self.old }
        requires keeps { Keeps (laid_at self.old to.now).store }
        requires laid { IsLaidIn (id_of (laid_at self.old to.now).slots)
            (laid_at self.old to.now).store }
        ensures { self.new ≡ laid_at self.old to.now }
    {
        self.store.undo(&to.mark);
        self.slots.truncate(to.slots);
    }

    /// Takes back all.
    pub(crate) fn clear(&mut self)
        ensures { self.new ≡ record { store = record { terms = []; notes = [] }; slots = [] } }
    {
        self.undo(&Frame {
            mark: Mark { size: 0, notes: 0 },
            slots: 0,
        });
    }

    /// The id of an unknown of a node, which is new where it has none yet.
    pub(crate) fn unknown(
        &mut self,
        alloc: Global,
        path: &Shared<Path>,
        unknown: Unknown,
    ) -> Result<usize, NoMemory>
        ensures built { IfOk result
            (λ id. Builds self.old (λ a. Some (asked a path.now unknown)) self.new id) }
        ensures grows { Grows self.old self.new }
    {
        match self.slots.id(path.as_slice(), &unknown) {
            Some(id) => Ok(id),
            None => {
                let path = path.share()?;
                // For its clause: what each store keeps (`Keeps`).
                let _kept = self.store.mark();
                let id = self.store.new_var()?;
                self.slots.push(alloc, Slot { path, unknown, id })?;
                Ok(id)
            }
        }
    }

    /// The value that all assignments given give an unknown, where they give it one value.
    pub(crate) fn value(
        &self,
        alloc: Global,
        path: &[u32],
        unknown: &Unknown,
    ) -> Result<Option<Value>, NoMemory>
        ensures { IfOk result (λ told. (v : Value) → (told ≡ Some v)
            ↔ IsGiven self.now path.now unknown.now v) }
    {
        // For its clause: what each store keeps (`Keeps`).
        let _kept = self.store.mark();
        match self.slots.id(path, unknown) {
            Some(id) => self.store.ground(alloc, id),
            None => Ok(None),
        }
    }

    /// Whether all assignments given give an unknown one value.
    pub(crate) fn is_given(
        &self,
        alloc: Global,
        path: &[u32],
        unknown: &Unknown,
    ) -> Result<bool, NoMemory>
        ensures { IfOk result (λ told. IsTrue told
            ↔ ((v : Value) × IsGiven self.now path.now unknown.now v)) }
    {
        // For its clause: what each store keeps (`Keeps`).
        let _kept = self.store.mark();
        let id = match self.slots.id(path, unknown) {
            Some(id) => id,
            None => return Ok(false),
        };
        let end = self.store.follow(id);
        match self.store.term(end) {
            Term::Free => Ok(false),
            Term::Atom(_) => Ok(true),
            _ => {
                let value = self.store.ground(alloc, id)?;
                Ok(value.is_some())
            }
        }
    }

    /// The id of a value.
    pub(crate) fn atom(&mut self, value: Value) -> Result<usize, NoMemory>
        ensures built { IfOk result (λ id. Builds self.old (λ a. Some value) self.new id) }
        ensures grows { Grows self.old self.new }
    {
        // For its clause: what each store keeps (`Keeps`).
        let _kept = self.store.mark();
        self.store.add(Term::Atom(value))
    }

    /// The id of a tuple of what ids name.
    pub(crate) fn tuple(&mut self, ids: Ids) -> Result<usize, NoMemory>
        requires within { All (λ id. id < length self.old.store.terms) ids }
        ensures made { IfOk result (λ id. IsMade self.old (λ vs. Worth.Tuple vs) ids self.new id) }
        ensures grows { Grows self.old self.new }
    {
        // For its clause: what each store keeps (`Keeps`).
        let _kept = self.store.mark();
        self.store.add(Term::Tuple(ids))
    }

    /// The id of a list of what ids name.
    pub(crate) fn list(&mut self, ids: Ids) -> Result<usize, NoMemory>
        requires within { All (λ id. id < length self.old.store.terms) ids }
        ensures made { IfOk result (λ id. IsMade self.old (λ vs. Worth.List vs) ids self.new id) }
        ensures grows { Grows self.old self.new }
    {
        // For its clause: what each store keeps (`Keeps`).
        let _kept = self.store.mark();
        self.store.add(Term::List(ids))
    }

    /// The id of a list of what ids name before what a tail names, or none where no assignment
    /// given gives the tail a list.
    pub(crate) fn cons(
        &mut self,
        alloc: Global,
        ids: Ids,
        tail: usize,
    ) -> Result<Option<usize>, NoMemory>
        requires within { All (λ id. id < length self.old.store.terms) ids }
        requires tail_within { tail < length self.old.store.terms }
        ensures put { IfOk result (λ told. PutsBefore self.old ids tail self.new told) }
        ensures grows { Grows self.old self.new }
    {
        if !ids.is_empty() {
            return self.some_before(alloc, ids, tail);
        }
        // For its clause: the ids of the slots are ids of the store.
        let _laid_in = self.frame();
        let mut other = Vec::new(alloc);
        other.push(self.atom(Value::Int(0))?)?;
        match self.some_before(alloc, Items::from_vec(other), tail)? {
            Some(_) => Ok(Some(tail)),
            None => Ok(None),
        }
    }

    /// The same of at least one id. The list goes over a new variable, which is then made one with
    /// the tail.
    fn some_before(
        &mut self,
        alloc: Global,
        ids: Ids,
        tail: usize,
    ) -> Result<Option<usize>, NoMemory>
        requires within { All (λ id. id < length self.old.store.terms) ids }
        requires some { 0 < length ids }
        requires tail_within { tail < length self.old.store.terms }
        ensures put { IfOk result (λ told. PutsBefore self.old ids tail self.new told) }
        ensures grows { Grows self.old self.new }
    {
        // For their clauses, this and the two below: what each store keeps (`Keeps`).
        let _kept = self.store.mark();
        let rest = self.store.new_var()?;
        let _still = self.store.mark();
        let id = self.store.add(Term::Cons(ids, rest))?;
        let _yet = self.store.mark();
        if !unify(alloc, &mut self.store, rest, tail)? {
            return Ok(None);
        }
        Ok(Some(id))
    }

    /// Makes two ids one, or says that no assignment given does.
    pub(crate) fn equal(&mut self, alloc: Global, p: usize, q: usize) -> Result<bool, NoMemory>
        requires p_within { p < length self.old.store.terms }
        requires q_within { q < length self.old.store.terms }
        ensures equates { IfOk result (λ yes. Equates self.old p q self.new yes) }
        ensures grows { Grows self.old self.new }
    {
        unify(alloc, &mut self.store, p, q)
    }
}
