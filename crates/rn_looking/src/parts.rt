//! Parts of a system and of decisions, looked up. By the contract the net and the transition of a
//! node are there, so looks have no case without them. Which kinds of arcs inhibit, or take the
//! elements of a list, is said here for all looks.
ghost use Rattle.std.specs.Prelude.{◌≡◌, ◌<◌, ◌↔◌, ◌∷◌, [], IfSome, IsTrue, length};
ghost use Rattle.rn_model.specs.declared.system.ArcKind.TheVariants.{FlexInput, Inhibit};
ghost use Rattle.rn_model.specs.Systems.{net_at};
ghost use Rattle.rn_growing.specs.Decisions.{transition_in};
ghost use Rattle.rn_looking.specs.Forced.{IsFirstPart};

use rn_growing::Head;
use rn_model::{ArcKind, Cond, Expr, Simple, System, Transition, net_at};

/// The transition of a node.
pub fn transition_in<'a>(system: &'a System, head: &Head) -> &'a Transition
    requires net { head.now.net < length system.now.nets }
    requires transition { head.now.transition < length
        (net_at system.now head.now.net).transitions }
    ensures { result.now ≡ transition_in system.now head.now }
{
    &net_at(system, head.net).transitions.as_slice()[head.transition as usize]
}

/// The first part of a tuple.
pub(crate) fn first_part(expr: &Expr) -> Option<&Expr>
    ensures { IfSome result (λ part. IsFirstPart expr.now part.now) }
{
    let Expr::Tuple(parts) = expr else {
        return None;
    };
    match parts.as_slice() {
        [part, ..] => Some(part),
        [] => None,
    }
}

/// The conditions of a guard that is one list of them.
pub(crate) fn only_list(guard: &Cond) -> Option<&[Simple]>
    ensures { IfSome result (λ simples. guard.now.any ≡ simples.now ∷ []) }
{
    match guard.any.as_slice() {
        [simples] => Some(simples.as_slice()),
        _ => None,
    }
}

/// Whether an arc is an inhibitor arc.
pub(crate) fn is_inhibitor(kind: ArcKind) -> bool
    ensures { IsTrue result ↔ (kind ≡ Inhibit) }
{
    matches!(kind, ArcKind::Inhibit)
}

/// Whether an arc is a flexible arc that takes the elements of a list.
pub(crate) fn is_flexible(kind: ArcKind) -> bool
    ensures { IsTrue result ↔ (kind ≡ FlexInput) }
{
    matches!(kind, ArcKind::FlexInput)
}
