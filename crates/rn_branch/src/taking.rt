//! What one decision takes: the token that an `in` or `reserve` arc finds, from a place of an
//! instance. A test arc takes nothing, so its token is still there for others. Takings are the same
//! by instance, place and token, of instances that exist (`docs/SEARCH.md`, 'A binding grows by
//! decisions').
ghost use Rattle.std.specs.Prelude.{◌≡◌, ◌∷◌, [], IfSome, IsTrue};
ghost use Rattle.rn_value.specs.declared.value.Value.{Value as Taken};
ghost use Rattle.rn_model.specs.Demands.{takes};
ghost use Rattle.rn_branch.specs.Takings.{Takes};

use rn_growing::{Decision, transition_in};
use rn_model::{ArcKind, System};
use rn_value::{InstRef, Value, same};

/// From so many decisions on, what they take is found by its key, and choices begin behind it.
pub(crate) const MANY: usize = 24;

/// A token that is taken from a place of an instance.
#[derive(Drop)]
pub(crate) struct Taking<'a> {
    pub(crate) inst: &'a InstRef,
    pub(crate) place: u32,
    pub(crate) token: &'a Value,
}

/// Whether an arc takes the token that it finds.
pub(crate) fn takes_token(kind: ArcKind) -> bool
    ensures { (v : Taken) → IsTrue result → takes kind v ≡ v ∷ [] }
{
    matches!(kind, ArcKind::Input | ArcKind::Reserve)
}

/// What a decision takes, where it is the token of an arc that takes what it finds.
pub(crate) fn taking_of<'a>(system: &System, decision: &'a Decision) -> Option<Taking<'a>>
    ensures { IfSome result
        (λ t. Takes system.now decision.now t.inst.now t.place t.token.now) }
{
    let Decision::Found(head, k, token) = decision else {
        return None;
    };
    let Some(transition) = transition_in(system, head) else {
        return None;
    };
    let Some(arc) = transition.arcs.get(*k) else {
        return None;
    };
    if !takes_token(arc.kind) {
        return None;
    }
    Some(Taking {
        inst: &head.inst,
        place: arc.place,
        token,
    })
}

/// Whether both are one instance that exists.
pub(crate) fn is_same_old(one: &InstRef, other: &InstRef) -> bool
    ensures { IsTrue result → one.now ≡ other.now }
{
    match (one, other) {
        (InstRef::Old(m), InstRef::Old(n)) => m == n,
        _ => false,
    }
}

/// Whether a decision takes a token of a place of an instance.
pub(crate) fn takes_it(system: &System, decision: &Decision, taking: &Taking<'_>) -> bool
    ensures { IsTrue result → Takes system.now decision.now taking.now.inst.now taking.now.place
        taking.now.token.now }
{
    let Some(other) = taking_of(system, decision) else {
        return false;
    };
    if other.place != taking.place {
        return false;
    }
    if !is_same_old(other.inst, taking.inst) {
        return false;
    }
    same(other.token, taking.token)
}
