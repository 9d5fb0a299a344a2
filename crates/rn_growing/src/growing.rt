//! Bindings that grow: what is decided of them, and what that forces. The store says just what the
//! decisions bring, and a frame before each of them says how far the store was then. So taking
//! decisions back is undoing the store to a frame, and nothing is worked out again
//! (`docs/SEARCH.md`, 'A binding grows by decisions').
ghost use Rattle.std.specs.Prelude.{◌≡◌, ◌↔◌, ◌≤◌, [], ◌∷◌, ◌++◌, length};
ghost use Rattle.std.specs.Prelude.{IfOk, IsTrue, OnErr, Some, true, false};
ghost use Rattle.rn_value.specs.declared.value.InstRef.{InstRef};
ghost use Rattle.rn_value.specs.declared.value.Value.{Value};
ghost use Rattle.rn_value.specs.declared.value.Value.TheVariants as Worth;
ghost use Rattle.std.specs.List.{list_any};
ghost use Rattle.rn_growing.specs.Decided.{computes, enters, finds};
ghost use Rattle.rn_growing.specs.link.DecisionKeys.{decision_key};
ghost use Rattle.rn_growing.specs.Decisions.{site_of};
ghost use Rattle.rn_growing.specs.Equations.{Brings, IsForced, IsForcedTo, IsSolvable, read_at};
ghost use Rattle.rn_growing.specs.Grown.{HasFewCreations, IsNew, Tries, first_decisions};
ghost use Rattle.rn_growing.specs.link.Grown.{TriesIn};
ghost use Rattle.rn_growing.specs.link.Laid.{Grows};
ghost use Rattle.rn_growing.specs.link.Layouts.{asked};
ghost use Rattle.rn_growing.specs.Turns.{MayCome};
ghost use Rattle.rn_growing.specs.declared.decision.Decision.TheVariants as D;

use crate::bringing::try_bring;
use crate::decision::{Caller, Decision, Head, Site, Way};
use crate::laid::Laid;
use crate::room::GrowingRoom;
use crate::slot::{Frame, Unknown};
use crate::thing::{Thing, is_decided, key_of};
use rn_chains::Chains;
use rn_model::{Expr, System};
use rn_value::{InstRef, NoMemory, Value, copy_inst};
use std::alloc::Global;
use std::marker::Model;

/// A binding that grows by decisions, each of which may come in by those before it.
#[derive(Drop)]
pub struct Growing<'a> {
    system: &'a System,
    laid: Laid,
    decisions: Vec<Decision>,
    frames: Vec<Frame>,

    /// The keys of what the decisions are on.
    keys: Chains,
}

impl<'a> Model for Growing<'a> {
    ghost use Rattle.std.specs.Prelude.{◌≡◌, map};
    ghost use Rattle.rn_growing.specs.link.DecisionKeys.{decision_key};
    ghost use Rattle.rn_growing.specs.Grown.{Grown};
    ghost use Rattle.rn_growing.specs.link.Grown.{KeepsGrowing};
    ghost use Rattle.rn_value.specs.contracts.value.Value as value;
    ghost use Rattle.rn_value.specs.contracts.value.Kind as kind;
    ghost use Rattle.rn_model.specs.contracts.expr.Expr as expr;
    ghost use Rattle.rn_model.specs.contracts.expr.Cond as cond;
    ghost use Rattle.std.specs.Coded.{codes};

    ghost Value = { Grown };

    ghost coded = { Prim.hlevel (
      codes,
      value.the_row.coded,
      kind.the_row.coded,
      expr.the_row.coded,
      cond.the_row.coded,
    ) };

    ghost view = { λ g. record { system = g.system.now; decisions = g.decisions.items } };

    ghost invariant = { λ g. KeepsGrowing g.system.now g.laid g.decisions.items g.frames.items
        × (g.keys ≡ map decision_key g.decisions.items) };
}

impl<'a> Growing<'a> {
    /// Nothing is decided, and no memory is taken.
    pub fn open(alloc: Global, system: &'a System) -> Growing<'a>
        requires { HasFewCreations system.now }
        ensures { result ≡ record { system = system.now; decisions = [] } }
    {
        Growing::open_in(GrowingRoom::new(alloc), system)
    }

    /// The same, in the room of another binding.
    pub fn open_in(room: GrowingRoom, system: &'a System) -> Growing<'a>
        requires { HasFewCreations system.now }
        ensures { result ≡ record { system = system.now; decisions = [] } }
    {
        let GrowingRoom {
            laid,
            decisions,
            frames,
            keys,
        } = room;
        // For its clauses: what each store keeps (`Keeps`), and that it has the ids of the slots.
        let _kept = laid.frame();
        Growing {
            system,
            laid,
            decisions,
            frames,
            keys,
        }
    }

    /// Its room, for another binding.
    pub fn into_room(self) -> GrowingRoom {
        let Growing {
            mut laid,
            mut decisions,
            mut frames,
            mut keys,
            ..
        } = self;
        laid.clear();
        decisions.clear();
        frames.clear();
        keys.truncate(0);
        GrowingRoom {
            laid,
            decisions,
            frames,
            keys,
        }
    }

    /// The decisions, the oldest first.
    pub fn decisions(&self) -> &[Decision]
        ensures { result.now ≡ self.now.decisions }
    {
        self.decisions.as_slice()
    }

    /// How many decisions there are.
    pub fn mark(&self) -> usize
        ensures { result ≡ length self.now.decisions }
    {
        self.decisions.len()
    }

    /// Takes back the decisions that came after a mark.
    pub fn undo(&mut self, to: usize)
        requires { to ≤ length self.old.decisions }
        ensures { self.new ≡ first_decisions to self.old }
    {
        if to < self.decisions.len() {
            let frame = self.frames[to];
            self.laid.undo(&frame);
            self.decisions.truncate(to);
            self.frames.truncate(to);
            self.keys.truncate(to);
        }
    }

    /// A node is entered: the start without a caller, and each other one by the node that calls.
    pub fn enter(
        &mut self,
        alloc: Global,
        head: Head,
        caller: Option<Caller>,
    ) -> Result<bool, NoMemory>
        requires may_come { MayCome self.old.system self.old.decisions
            (D.Entered head caller) }
        requires fresh { IsNew self.old.decisions (D.Entered head caller) }
        ensures tries { IfOk result (λ yes. Tries self.old (D.Entered head caller) self.new yes) }
        ensures exact { IfOk result (λ yes. IsTrue yes
            ↔ IsSolvable self.old.system (self.old.decisions ++ D.Entered head caller ∷ [])) }
        ensures err { OnErr result (self.new ≡ self.old) }
    {
        self.decide(alloc, Decision::Entered(head, caller))
    }

    /// An arc of a node finds a token, or the list of a clear arc.
    pub fn find(
        &mut self,
        alloc: Global,
        head: Head,
        arc: usize,
        value: Value,
    ) -> Result<bool, NoMemory>
        requires may_come { MayCome self.old.system self.old.decisions (D.Found head arc value) }
        requires fresh { IsNew self.old.decisions (D.Found head arc value) }
        ensures tries { IfOk result (λ yes. Tries self.old (D.Found head arc value) self.new yes) }
        ensures exact { IfOk result (λ yes. IsTrue yes
            ↔ IsSolvable self.old.system (self.old.decisions ++ D.Found head arc value ∷ [])) }
        ensures err { OnErr result (self.new ≡ self.old) }
    {
        self.decide(alloc, Decision::Found(head, arc, value))
    }

    /// An outermost operator application of a node has a value. It is given by its site and the way
    /// to it.
    pub fn compute(
        &mut self,
        alloc: Global,
        head: Head,
        site: Site,
        way: Way,
        value: Value,
    ) -> Result<bool, NoMemory>
        requires may_come { MayCome self.old.system self.old.decisions
            (D.Computed head site way value) }
        requires fresh { IsNew self.old.decisions (D.Computed head site way value) }
        ensures tries { IfOk result
            (λ yes. Tries self.old (D.Computed head site way value) self.new yes) }
        ensures exact { IfOk result (λ yes. IsTrue yes ↔ IsSolvable self.old.system
            (self.old.decisions ++ D.Computed head site way value ∷ [])) }
        ensures err { OnErr result (self.new ≡ self.old) }
    {
        self.decide(alloc, Decision::Computed(head, site, way, value))
    }

    /// One more decision, where some assignment satisfies it with those before.
    fn decide(&mut self, alloc: Global, decision: Decision) -> Result<bool, NoMemory>
        requires may_come { MayCome self.old.system self.old.decisions decision }
        requires fresh { IsNew self.old.decisions decision }
        ensures tries { IfOk result (λ yes. Tries self.old decision self.new yes) }
        ensures exact { IfOk result (λ yes. IsTrue yes
            ↔ IsSolvable self.old.system (self.old.decisions ++ decision ∷ [])) }
        ensures err { OnErr result (self.new ≡ self.old) }
    {
        self.decisions.reserve(1)?;
        self.frames.reserve(1)?;
        let frame = self.laid.frame();
        if !try_keyed(
            alloc,
            self.system,
            &mut self.laid,
            &mut self.keys,
            &decision,
        )? {
            return Ok(false);
        }
        // For its clauses: what each store keeps (`Keeps`), and that it has the ids of the slots.
        let _kept = self.laid.frame();
        self.decisions.push(decision)?;
        self.frames.push(frame)?;
        Ok(true)
    }

    /// Whether the node on a path was entered.
    pub fn was_entered(&self, path: &[u32]) -> bool
        ensures { result ≡ list_any (enters path.now) self.now.decisions }
    {
        let thing = Thing::Entry(path);
        is_decided(self.decisions.as_slice(), &self.keys, &thing)
    }

    /// Whether the node that a downlink of the node on a path calls was entered. It takes no
    /// memory.
    pub fn was_called(&self, path: &[u32], i: u32) -> bool
        ensures { result ≡ list_any (enters (path.now ++ i ∷ [])) self.now.decisions }
    {
        let thing = Thing::Called(path, i);
        is_decided(self.decisions.as_slice(), &self.keys, &thing)
    }

    /// Whether an arc of the node on a path found its value.
    pub fn was_found(&self, path: &[u32], arc: usize) -> bool
        ensures { result ≡ list_any (finds path.now arc) self.now.decisions }
    {
        let thing = Thing::Found(path, arc);
        is_decided(self.decisions.as_slice(), &self.keys, &thing)
    }

    /// Whether an operator application of the node on a path was computed.
    pub fn was_computed(&self, path: &[u32], site: Site, way: &[usize]) -> bool
        ensures { result ≡ list_any (computes path.now site way.now) self.now.decisions }
    {
        let thing = Thing::Computed(path, site, way);
        is_decided(self.decisions.as_slice(), &self.keys, &thing)
    }

    /// The value of a variable of a node, where it is forced.
    pub fn value(&self, alloc: Global, path: &[u32], x: u32) -> Result<Option<Value>, NoMemory>
        ensures { IfOk result (λ told. (v : Value) → (told ≡ Some v)
            ↔ IsForcedTo self.now.system self.now.decisions (λ a. Some (a.var path.now x)) v) }
    {
        self.laid.value(alloc, path, &Unknown::Var(x))
    }

    /// Whether a variable of a node is forced. Where its value isn't built of terms, nothing is
    /// copied.
    pub fn is_forced(&self, alloc: Global, path: &[u32], x: u32) -> Result<bool, NoMemory>
        ensures { IfOk result (λ told. IsTrue told
            ↔ IsForced self.now.system self.now.decisions (λ a. Some (a.var path.now x))) }
    {
        self.laid.is_given(alloc, path, &Unknown::Var(x))
    }

    /// The instance that an expression at a site of a node is forced to be. This is for targets of
    /// downlinks: variables, and `this`.
    pub fn target(
        &self,
        alloc: Global,
        head: &Head,
        site: Site,
        target: &Expr,
    ) -> Result<Option<InstRef>, NoMemory>
        ensures { IfOk result (λ told. (i : InstRef) → (told ≡ Some i)
            ↔ IsForcedTo self.now.system self.now.decisions
            (λ a. read_at a head.now (site_of site) target.now) (Worth.Inst i)) }
    {
        // For the type's invariant: the store says just what the decisions bring.
        let _ = &self.laid;
        match target {
            Expr::This => {
                let inst = copy_inst(alloc, &head.inst)?;
                Ok(Some(inst))
            }
            Expr::Var(x) => self.instance(alloc, head, &Unknown::Var(*x)),
            Expr::Neg(_) => self.instance(alloc, head, &Unknown::Hole(site, Way::new(alloc))),
            Expr::Op(_, _, _) => self.instance(alloc, head, &Unknown::Hole(site, Way::new(alloc))),
            Expr::Int(_) => Ok(None),
            Expr::Text(_) => Ok(None),
            Expr::Step => Ok(None),
            Expr::Tuple(_) => Ok(None),
            Expr::List(_) => Ok(None),
            Expr::Cons(_, _) => Ok(None),
        }
    }

    /// The instance that an unknown of a node is forced to be.
    fn instance(
        &self,
        alloc: Global,
        head: &Head,
        unknown: &Unknown,
    ) -> Result<Option<InstRef>, NoMemory>
        ensures { IfOk result (λ told. (i : InstRef) → (told ≡ Some i)
            ↔ IsForcedTo self.now.system self.now.decisions
            (λ a. Some (asked a head.now.path unknown.now)) (Worth.Inst i)) }
    {
        match self.laid.value(alloc, head.path.as_slice(), unknown)? {
            Some(value) => Ok(instance_in(value)),
            None => Ok(None),
        }
    }
}

/// Brings in what a decision brings and puts its key behind, or leaves all as it was.
fn try_keyed(
    alloc: Global,
    system: &System,
    laid: &mut Laid,
    keys: &mut Chains,
    decision: &Decision,
) -> Result<bool, NoMemory>
    requires { HasFewCreations system.now }
    ensures tried { IfOk result
        (λ yes. TriesIn laid.old (λ a. Brings system.now a decision.now) laid.new yes) }
    ensures grows { IfOk result (λ yes. Grows laid.old laid.new) }
    ensures err { OnErr result (laid.new ≡ laid.old) }
    ensures put { IfOk result
        (λ yes. yes ≡ true → keys.new ≡ keys.old ++ decision_key decision.now ∷ []) }
    ensures kept { IfOk result (λ yes. yes ≡ false → keys.new ≡ keys.old) }
    ensures keys_err { OnErr result (keys.new ≡ keys.old) }
{
    let count = keys.len();
    keys.push(alloc, key_of(decision))?;
    match try_bring(alloc, system, laid, decision) {
        Ok(true) => Ok(true),
        Ok(false) => {
            keys.truncate(count);
            Ok(false)
        }
        Err(error) => {
            keys.truncate(count);
            Err(error)
        }
    }
}

/// The instance that a value names.
fn instance_in(value: Value) -> Option<InstRef>
    ensures { (i : InstRef) → (result ≡ Some i) ↔ (value ≡ Worth.Inst i) }
{
    match value {
        Value::Inst(inst) => Some(inst),
        _ => None,
    }
}
