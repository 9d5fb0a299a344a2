//! The store: its terms, the links of its variables, and the trail by which bindings are undone.
ghost use Rattle.std.specs.Prelude.{◌≡◌, ◌↔◌, ◌<◌, ◌≤◌, [], length, IfOk, OnOk, OnErr};
ghost use Rattle.std.specs.Prelude.{◌⊎◌, ◌≢◌, IsTrue};
ghost use Rattle.std.specs.Prelude.{ℕ, List, Some, None, take};
ghost use Rattle.rn_term.specs.declared.term.Term.TheVariants as T;
ghost use Rattle.rn_term.specs.declared.term.Mark.{Mark};
ghost use Rattle.rn_value.specs.declared.value.Value.{Value};
ghost use Rattle.rn_term.specs.Stores.{link_of, term_at, Leads, IsBuiltBelow, with_term, with_note};
ghost use Rattle.rn_term.specs.Assignments.{Satisfies, value_at, HasListTail, MayBeOne, Keeps};
ghost use Rattle.rn_term.specs.Occurring.{IsFree, Occurs};
ghost use Rattle.rn_term.specs.link.Kept.{AreFresh, AreLinks, floor_of, last_cons, or_cons};
ghost use Rattle.rn_term.specs.link.Kept.{AreLowered, HasNoListBelow, IsClosed, IsLowAlong};
ghost use Rattle.rn_term.specs.Undoing.{Rolled, mark_of, IsNotLater, LeavesEarlier};

use crate::flags::{is_built_of_flagged, is_flagged};
use crate::levels::{level, raise};
use crate::term::{Mark, Term};
use rn_value::NoMemory;
use std::alloc::Global;
use std::marker::Model;

/// No list ends in a variable beside which this stands: it is past all ids.
const NO_LIST: usize = usize::MAX;

/// Terms with unknown parts, and which variables were bound to which terms, in order.
#[derive(Debug, Drop)]
pub struct Store {
    terms: Vec<Term>,
    links: Vec<Option<usize>>,
    lists: Vec<Option<usize>>,
    floors: Vec<usize>,
    flags: Vec<bool>,
    levels: Vec<usize>,
    rest: Vec<usize>,
    weights: Vec<usize>,
    notes: Vec<(usize, usize)>,
}

impl Model for Store {
    ghost use Rattle.rn_term.specs.Stores.{State};
    ghost use Rattle.rn_value.specs.contracts.value.Value as value;
    ghost use Rattle.std.specs.Coded.{codes};

    ghost Value = { State };

    ghost coded = { Prim.hlevel (codes, value.the_row.coded) };

    ghost view = { λ s. record { terms = s.terms.items; notes = s.notes.items } };

    ghost use Rattle.rn_term.specs.link.Kept.{KeepsAll};

    ghost invariant = { λ s. KeepsAll s.terms.items s.links.items s.lists.items s.floors.items
        s.flags.items s.levels.items s.notes.items };
}

impl Store {
    /// A store without terms, and no memory.
    pub fn new(alloc: Global) -> Store
        ensures { result ≡ record { terms = []; notes = [] } }
    {
        Store {
            terms: Vec::new(alloc),
            links: Vec::new(alloc),
            lists: Vec::new(alloc),
            floors: Vec::new(alloc),
            flags: Vec::new(alloc),
            levels: Vec::new(alloc),
            rest: Vec::new(alloc),
            weights: Vec::new(alloc),
            notes: Vec::new(alloc),
        }
    }

    /// How many terms it has.
    pub fn size(&self) -> usize
        ensures { result ≡ length self.now.terms }
    {
        self.terms.len()
    }

    /// The term that was added under this id, `Free` for a variable.
    pub fn term(&self, id: usize) -> &Term
        requires within { id < length self.now.terms }
        ensures { result.now ≡ term_at self.now id }
    {
        &self.terms[id]
    }

    /// The id to which this variable was bound.
    pub fn link(&self, id: usize) -> Option<usize>
        requires within { id < length self.now.terms }
        ensures { result ≡ link_of self.now.notes id }
    {
        self.links[id]
    }

    /// The id at which the links from this one end. They never lead in a circle, as some assignment
    /// satisfies the store.
    pub fn follow(&self, id: usize) -> usize
        requires within { id < length self.now.terms }
        ensures within { result < length self.now.terms }
        ensures leads { Leads self.now.notes id result }
        ensures end { link_of self.now.notes result ≡ None }
        ensures kept { Keeps self.now }
    {
        let mut end = id;
        while let Some(to) = self.links[end] {
            end = to;
        }
        end
    }

    /// The last list before a tail that was added under an id below this one.
    pub(crate) fn last_list(&self, end: usize) -> Option<usize>
        requires within { end ≤ length self.now.terms }
        ensures { result ≡ last_cons self.now.terms end }
    {
        if end == 0 { None } else { self.lists[end - 1] }
    }

    /// An id below which no list before a tail ends in this variable.
    pub(crate) fn floor(&self, var: usize) -> usize
        requires within { var < length self.now.terms }
        ensures none { HasNoListBelow self.now var result }
    {
        self.floors[var]
    }

    /// Whether it is known that no variable occurs in a term, free or bound.
    pub(crate) fn is_closed(&self, id: usize) -> bool
        ensures closed { IsTrue result → IsClosed self.now id }
    {
        is_flagged(&self.flags, id)
    }

    /// Whether it is known by their levels that a variable doesn't occur in a term.
    pub(crate) fn is_above(&self, id: usize, var: usize) -> bool
        ensures apart { IsTrue result → IsFree self.now var → ¬ Occurs self.now var id }
    {
        level(&self.levels, var) < level(&self.levels, id)
    }

    /// The last list before a tail where this term is added.
    fn last_with(&self, term: &Term) -> Option<usize>
        ensures { result ≡ or_cons term.now (length self.now.terms)
            (last_cons self.now.terms (length self.now.terms)) }
    {
        let size = self.terms.len();
        match term {
            Term::Cons(_, _) => Some(size),
            _ => self.last_list(size),
        }
    }

    /// Adds a variable that isn't bound, and returns its id.
    pub fn new_var(&mut self) -> Result<usize, NoMemory>
        ensures id { IfOk result (λ id. id ≡ length self.old.terms) }
        ensures added { OnOk result (self.new ≡ with_term self.old T.Free) }
        ensures err { OnErr result (self.new ≡ self.old) }
        ensures earlier { LeavesEarlier self.old self.new }
    {
        self.add(Term::Free)
    }

    /// Adds a term whose parts are there, and returns its id.
    ///
    /// Adding a `Cons` is itself an equation on its tail: from then on all assignments give the tail
    /// a list, whoever uses the term.
    pub fn add(&mut self, term: Term) -> Result<usize, NoMemory>
        requires built { IsBuiltBelow (length self.old.terms) term }
        requires list { HasListTail self.old term }
        ensures id { IfOk result (λ id. id ≡ length self.old.terms) }
        ensures added { OnOk result (self.new ≡ with_term self.old term) }
        ensures err { OnErr result (self.new ≡ self.old) }
        ensures earlier { LeavesEarlier self.old self.new }
    {
        let id = self.terms.len();
        let last = self.last_with(&term);
        let flag = is_built_of_flagged(&self.flags, &term);
        self.terms.reserve(1)?;
        self.links.reserve(1)?;
        self.lists.reserve(1)?;
        self.floors.reserve(1)?;
        self.flags.reserve(1)?;
        self.weights.reserve(1)?;
        self.floors.push(NO_LIST)?;
        lower_for(
            &self.terms,
            &self.notes,
            &self.links,
            &mut self.floors,
            &term,
        );
        self.terms.push(term)?;
        self.links.push(None)?;
        self.lists.push(last)?;
        self.flags.push(flag)?;
        self.weights.push(0)?;
        Ok(id)
    }

    /// Binds a variable, and notes that in the trail. The assignments of the store are then exactly
    /// those from before that give both ids one value.
    pub fn bind(&mut self, var: usize, to: usize) -> Result<(), NoMemory>
        requires var_within { var < length self.old.terms }
        requires to_within { to < length self.old.terms }
        requires free { term_at self.old var ≡ T.Free }
        requires unbound { link_of self.old.notes var ≡ None }
        requires apart { ¬ Leads self.old.notes to var }
        requires possible { MayBeOne self.old var to }
        ensures noted { OnOk result (self.new ≡ with_note self.old var to) }
        ensures means { OnOk result ((vs : List Value) → Satisfies self.new vs
            ↔ (Satisfies self.old vs × (value_at vs var ≡ value_at vs to))) }
        ensures err { OnErr result (self.new ≡ self.old) }
        ensures earlier { LeavesEarlier self.old self.new }
    {
        self.notes.reserve(1)?;
        let floor = self.floors[var];
        lower_along(
            &self.terms,
            &self.notes,
            &self.links,
            &mut self.floors,
            to,
            floor,
        );
        raise(
            &self.terms,
            &self.notes,
            &self.links,
            &self.flags,
            &mut self.levels,
            &mut self.rest,
            var,
            to,
        );
        self.notes.push((var, to))?;
        self.links[var] = Some(to);
        add_weight(&mut self.weights, var, to);
        Ok(())
    }

    /// Makes two free variables one: the one to which fewer variables were bound is bound to the
    /// other. So links lead to their ends in few steps.
    pub fn join(&mut self, a: usize, b: usize) -> Result<(), NoMemory>
        requires a_free { IsFree self.old a }
        requires b_free { IsFree self.old b }
        requires apart { a ≢ b }
        ensures noted { OnOk result
            ((self.new ≡ with_note self.old a b) ⊎ (self.new ≡ with_note self.old b a)) }
        ensures kept { OnOk result (Keeps self.new) }
        ensures err { OnErr result (self.new ≡ self.old) }
        ensures earlier { LeavesEarlier self.old self.new }
    {
        let _ = &self.terms;
        if self.weight(a) < self.weight(b) {
            self.bind(a, b)
        } else {
            self.bind(b, a)
        }
    }

    /// How many variables were bound to one, directly or not.
    fn weight(&self, id: usize) -> usize {
        if id < self.weights.len() {
            self.weights[id]
        } else {
            0
        }
    }

    /// An undo mark: the sizes of the store and of its trail.
    pub fn mark(&self) -> Mark
        ensures sizes { result ≡ mark_of self.now }
        ensures now { Rolled self.now result ≡ self.now }
        ensures kept { Keeps self.now }
        ensures not_later { IsNotLater result self.now }
    {
        Mark {
            size: self.terms.len(),
            notes: self.notes.len(),
        }
    }

    /// Takes back what came after an undo mark: later terms are gone, later variables are unbound.
    pub fn undo(&mut self, to: &Mark)
        requires not_later { IsNotLater to.now self.old }
        requires keeps { Keeps (Rolled self.old to.now) }
        ensures rolled { self.new ≡ Rolled self.old to.now }
        ensures earlier { (m : Mark) → IsNotLater m self.new →
            Rolled self.new m ≡ Rolled self.old m }
    {
        take_back(
            &mut self.links,
            &mut self.weights,
            &mut self.notes,
            to.notes,
        );
        self.terms.truncate(to.size);
        self.links.truncate(to.size);
        self.lists.truncate(to.size);
        self.floors.truncate(to.size);
        self.flags.truncate(to.size);
        self.levels.truncate(to.size);
        self.weights.truncate(to.size);
    }
}

/// Lowers what stands beside the tail of a term that is added, where it has one, and beside the ids
/// to which links lead from there.
fn lower_for(
    terms: &Vec<Term>,
    notes: &Vec<(usize, usize)>,
    links: &Vec<Option<usize>>,
    floors: &mut Vec<usize>,
    term: &Term,
)
    requires kept { Keeps (record { terms = terms.now.items; notes = notes.now.items }) }
    requires linked { AreLinks links.now.items notes.now.items }
    requires each { length links.now.items ≡ length terms.now.items }
    requires built { IsBuiltBelow (length terms.now.items) term.now }
    ensures lowered { AreLowered floors.old.items floors.new.items }
    ensures along { (ids : List ℕ) (tail : ℕ) → term.now ≡ T.Cons ids tail →
        IsLowAlong notes.now.items tail (length terms.now.items) floors.new.items }
{
    if let Term::Cons(_, tail) = term {
        lower_along(terms, notes, links, floors, *tail, terms.len());
    }
}

/// Lowers what stands beside an id, and beside those to which links lead from it.
fn lower_along(
    terms: &Vec<Term>,
    notes: &Vec<(usize, usize)>,
    links: &Vec<Option<usize>>,
    floors: &mut Vec<usize>,
    from: usize,
    floor: usize,
)
    requires kept { Keeps (record { terms = terms.now.items; notes = notes.now.items }) }
    requires linked { AreLinks links.now.items notes.now.items }
    requires each { length links.now.items ≡ length terms.now.items }
    requires within { from < length terms.now.items }
    ensures lowered { AreLowered floors.old.items floors.new.items }
    ensures along { IsLowAlong notes.now.items from floor floors.new.items }
{
    let mut end = from;
    lower(floors, end, floor);
    while let Some(to) = links[end] {
        end = to;
        lower(floors, end, floor);
    }
}

/// Lowers what stands beside an id.
fn lower(floors: &mut Vec<usize>, id: usize, floor: usize)
    ensures lowered { AreLowered floors.old.items floors.new.items }
    ensures low { floor_of floors.new.items id ≤ floor }
{
    if id < floors.len() && floor < floors[id] {
        floors[id] = floor;
    }
}

/// Counts a variable, and what was bound to it, where it is bound to another id.
fn add_weight(weights: &mut Vec<usize>, var: usize, to: usize) {
    if var < weights.len() && to < weights.len() {
        weights[to] = weights[to].saturating_add(weights[var]).saturating_add(1);
    }
}

/// Counts them no longer.
fn remove_weight(weights: &mut Vec<usize>, var: usize, to: usize) {
    if var < weights.len() && to < weights.len() {
        weights[to] = weights[to].saturating_sub(weights[var]).saturating_sub(1);
    }
}

/// Takes the later notes back.
fn take_back(
    links: &mut Vec<Option<usize>>,
    weights: &mut Vec<usize>,
    notes: &mut Vec<(usize, usize)>,
    left: usize,
)
    requires linked { AreLinks links.old.items notes.old.items }
    requires noted { AreFresh (length links.old.items) notes.old.items }
    requires within { left ≤ length notes.old.items }
    ensures notes { notes.new.items ≡ take left notes.old.items }
    ensures links { AreLinks links.new.items notes.new.items }
    ensures each { length links.new.items ≡ length links.old.items }
{
    while notes.len() > left {
        if let Some((var, to)) = notes.pop() {
            links[var] = None;
            remove_weight(weights, var, to);
        }
    }
}
