//! What the alternatives of a point mean, and how many there are. An alternative is a number, and
//! its decision is made only when it is tried, so of a choice among tokens just that one is copied.
//! Of equal tokens only the first is a decision, or a binding would be found twice
//! (`docs/SEARCH.md`, 'What it does next').
ghost use Rattle.std.specs.Prelude.{◌≡◌, ◌<◌, ◌^◌, [], Some, IfOk, List, OnSome, ℕ, slice_get, length};
ghost use Rattle.std.specs.Prelude.{Contains, IfSome, IfNone, IsTrue, ◌≤◌, ◌↔◌};
ghost use Rattle.std.specs.Prelude.{◌+◌, None, unwrap_or};
ghost use Rattle.std.specs.Option.{option_copied};
ghost use Rattle.rn_bag.specs.Cuts.{has_first};
ghost use Rattle.rn_growing.specs.Decisions.{transition_in};
ghost use Rattle.rn_growing.specs.declared.decision.Decision.{Decision as Decided};
ghost use Rattle.rn_value.specs.declared.value.Value.{Value as Token};
ghost use Rattle.rn_search.specs.Offering.{alternatives, answers};
ghost use Rattle.rn_search.specs.Points.{child, instance_of, net_called, node_of};
ghost use Rattle.rn_search.specs.Points.{first_token, offered, tokens_of};
ghost use Rattle.rn_search.specs.declared.point.Point.TheVariants as P;

use crate::deciding_node::node_on;
use crate::point::{Called, Point};
use crate::problem::Problem;
use crate::tokens::{first_token_after, index_of, repeats_from};
use rn_bag::Bag;
use rn_growing::{Caller, Decision, Head, copy_head, transition_in};
use rn_items::Items;
use rn_model::Downlink;
use rn_shared::Shared;
use rn_value::{InstRef, NoMemory, Value, copy, list_value};
use std::alloc::Global;
use std::ops::Range;

impl<'a> Problem<'a> {
    /// The node of the decision at an index, or the start.
    pub fn node_of<'b>(&'b self, decisions: &'b [Decision], k: usize) -> &'b Head
        ensures { result.now ≡ node_of self.now decisions.now k }
    {
        match decisions.get(k) {
            Some(decision) => node_on(decision),
            None => self.start(),
        }
    }

    // The tokens that lie in the place of a node's arc, where there are some.
    fn tokens_of(&self, head: &Head, arc: usize) -> Option<&Bag>
        ensures { unwrap_or (option_copied result) [] ≡ tokens_of self.now head.now arc }
    {
        let Some(transition) = transition_in(self.system(), head) else {
            return None;
        };
        let Some(arc) = transition.arcs.get(arc) else {
            return None;
        };
        match &head.inst {
            InstRef::Old(number) => self.table().bag(*number, arc.place),
            InstRef::New(_, _) => None,
        }
    }

    // The downlink of a node.
    fn downlink(&self, head: &Head, i: usize) -> Option<&Downlink>
        ensures there { option_copied result
            ≡ slice_get (transition_in self.now.system head.now).downlinks i }
        ensures few { OnSome result (i < 2 ^ 32) }
    {
        match transition_in(self.system(), head) {
            Some(transition) => transition.downlinks.get(i),
            None => None,
        }
    }

    /// The net of the instance on which a called transition occurs.
    pub fn net_called(&self, decisions: &[Decision], called: Called) -> Option<u32>
        ensures { result ≡ net_called self.now decisions.now called }
    {
        match called {
            Called::Kept(number) => self.table().net_of(number),
            Called::Made(k, j) => {
                let head = self.node_of(decisions, k);
                let Some(transition) = transition_in(self.system(), head) else {
                    return None;
                };
                match transition.creations.get(j as usize) {
                    Some(creation) => Some(creation.net),
                    None => None,
                }
            }
        }
    }

    // That instance.
    fn instance_of(
        &self,
        alloc: Global,
        decisions: &[Decision],
        called: Called,
    ) -> Result<InstRef, NoMemory>
        ensures { IfOk result (λ inst. inst ≡ instance_of self.now decisions.now called) }
    {
        match called {
            Called::Kept(number) => Ok(InstRef::Old(number)),
            Called::Made(k, j) => {
                let head = self.node_of(decisions, k);
                let path = Vec::from_slice(alloc, head.path.as_slice())?;
                Ok(InstRef::New(Items::from_vec(path), j))
            }
        }
    }

    /// The transitions that answer a downlink of a node, by their indices in the net that is called.
    pub fn answers(&self, decisions: &[Decision], node: usize, i: usize, called: Called) -> &[u32]
        ensures { result.now ≡ answers self.now decisions.now node i called }
    {
        let Some(net) = self.net_called(decisions, called) else {
            return &[];
        };
        let head = (&*self).node_of(&*decisions, node);
        match self.downlink(head, i) {
            Some(downlink) => self.answering(net, downlink.channel),
            None => &[],
        }
    }

    /// The decision that an alternative of the start means, where it is one.
    pub fn entry(&self, alloc: Global, a: usize) -> Result<Option<Decision>, NoMemory>
        ensures { (ds : List Decided) → IfOk result (λ d. d ≡ offered self.now ds P.Start a) }
    {
        if a > 0 {
            return Ok(None);
        }
        let head = copy_head(alloc, self.start())?;
        Ok(Some(Decision::Entered(head, None)))
    }

    /// The decision that an alternative of an arc that finds a token means, where it is one. No
    /// token of the place but that one is copied.
    pub fn token(
        &self,
        alloc: Global,
        decisions: &[Decision],
        node: usize,
        arc: usize,
        from: usize,
        a: usize,
    ) -> Result<Option<Decision>, NoMemory>
        ensures { IfOk result (λ d. d ≡ offered self.now decisions.now (P.Token node arc from) a) }
    {
        let head = self.node_of(decisions, node);
        let Some(bag) = self.tokens_of(head, arc) else {
            return Ok(None);
        };
        match first_token_after(bag, from, a) {
            Some(token) => {
                let head = copy_head(alloc, head)?;
                Ok(Some(Decision::Found(head, arc, copy(alloc, token)?)))
            }
            None => Ok(None),
        }
    }

    /// The decision that an alternative of a clear arc means, where it is one.
    pub fn list(
        &self,
        alloc: Global,
        decisions: &[Decision],
        node: usize,
        arc: usize,
        a: usize,
    ) -> Result<Option<Decision>, NoMemory>
        ensures { IfOk result (λ d. d ≡ offered self.now decisions.now (P.List node arc) a) }
    {
        if a > 0 {
            return Ok(None);
        }
        let head = self.node_of(decisions, node);
        let tokens = match self.tokens_of(head, arc) {
            Some(bag) => bag.sorted_list()?,
            None => Items::new(alloc),
        };
        let head = copy_head(alloc, head)?;
        Ok(Some(Decision::Found(head, arc, list_value(alloc, tokens)?)))
    }

    /// The decision that an alternative of a call means, where it is one: the entry of a child.
    pub fn call(
        &self,
        alloc: Global,
        decisions: &[Decision],
        node: usize,
        i: usize,
        called: Called,
        a: usize,
    ) -> Result<Option<Decision>, NoMemory>
        ensures { IfOk result (λ d. d ≡ offered self.now decisions.now (P.Call node i called) a) }
    {
        let Some(net) = self.net_called(decisions, called) else {
            return Ok(None);
        };
        let head = self.node_of(decisions, node);
        let Some(downlink) = self.downlink(head, i) else {
            return Ok(None);
        };
        let Some(transition) = self.answering(net, downlink.channel).get(a) else {
            return Ok(None);
        };
        let inst = self.instance_of(alloc, decisions, called)?;
        Ok(Some(child(alloc, head, i, inst, net, *transition)?))
    }

    /// The index at which a token stands first in the place of a node's arc, where it is there. It
    /// takes no memory.
    pub fn only_token(
        &self,
        decisions: &[Decision],
        node: usize,
        arc: usize,
        token: &Value,
    ) -> Option<usize>
        ensures first { IfSome result (λ k. first_token
            (tokens_of self.now (node_of self.now decisions.now node) arc) k ≡ Some token.now) }
        ensures absent { IfNone result
            (¬ Contains (tokens_of self.now (node_of self.now decisions.now node) arc) token.now) }
    {
        let head = self.node_of(decisions, node);
        match self.tokens_of(head, arc) {
            Some(bag) => index_of(bag, token),
            None => None,
        }
    }

    /// The indices at which the tuples with this first part stand in the place of a node's arc. It
    /// takes no memory.
    pub fn range_of_first(
        &self,
        decisions: &[Decision],
        node: usize,
        arc: usize,
        first: &Value,
    ) -> Range<usize>
        ensures order { result.start ≤ result.end }
        ensures bound { result.end
            ≤ length (tokens_of self.now (node_of self.now decisions.now node) arc) }
        ensures exact { (k : ℕ) (v : Token) →
            slice_get (tokens_of self.now (node_of self.now decisions.now node) arc) k ≡ Some v →
            (IsTrue (has_first first.now v) ↔ ((result.start ≤ k) × (k < result.end))) }
    {
        let head = self.node_of(decisions, node);
        match self.tokens_of(head, arc) {
            Some(bag) => bag.range_of_first(first),
            None => 0..0,
        }
    }

    /// How many alternatives of an arc from one on are tokens that equal an earlier one, so that none
    /// of them is a decision. It takes no memory.
    pub fn repeats(
        &self,
        decisions: &[Decision],
        node: usize,
        arc: usize,
        from: usize,
        a: usize,
    ) -> usize
        ensures { (b : ℕ) → a ≤ b → b < a + result →
            offered self.now decisions.now (P.Token node arc from) b ≡ None }
    {
        let head = self.node_of(decisions, node);
        let Some(bag) = self.tokens_of(head, arc) else {
            return 0;
        };
        match from.checked_add(a) {
            Some(index) => repeats_from(bag, index),
            None => 0,
        }
    }

    /// How many alternatives a point has. It takes no memory.
    pub fn alternatives(&self, decisions: &[Decision], point: Point) -> usize
        ensures count { result ≡ alternatives self.now decisions.now point }
        ensures within { (a : ℕ) (d : Decided) → offered self.now decisions.now point a ≡ Some d →
            a < result }
    {
        match point {
            Point::Start => 1,
            Point::Token(node, arc, from) => {
                let head = self.node_of(decisions, node);
                match self.tokens_of(head, arc) {
                    Some(bag) => bag.len().saturating_sub(from),
                    None => 0,
                }
            }
            Point::List(_, _) => 1,
            Point::Result(_, _, _) => 1,
            Point::Call(node, i, called) => self.answers(decisions, node, i, called).len(),
        }
    }
}

// The entry of the child at a node's downlink.
fn child(
    alloc: Global,
    from: &Head,
    i: usize,
    inst: InstRef,
    net: u32,
    transition: u32,
) -> Result<Decision, NoMemory>
    requires { i < 2 ^ 32 }
    ensures { IfOk result (λ d. d ≡ child from.now i inst net transition) }
{
    let downlink = i as u32;
    let caller = copy_head(alloc, from)?;
    let mut path = Vec::from_slice(alloc, from.path.as_slice())?;
    path.push(downlink)?;
    let head = Head {
        path: Shared::new(alloc, Items::from_vec(path))?,
        inst,
        net,
        transition,
    };
    let caller = Caller {
        head: caller,
        downlink,
    };
    Ok(Decision::Entered(head, Some(caller)))
}
