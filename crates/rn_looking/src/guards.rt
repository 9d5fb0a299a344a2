//! What is known of the guards of a node. Each binding to which the decisions lead has the forced
//! values, so a guard that isn't true of them ends the branch at once. One that is true stays so
//! with further decisions, and needn't be worked out again (`docs/SEARCH.md`, 'What it does next').
ghost use Rattle.std.specs.Prelude.{◌≡◌, ◌⊎◌, IfOk};
ghost use Rattle.rn_looking.specs.declared.told.Verdict.TheVariants.{Fails};
ghost use Rattle.rn_looking.specs.link.Views.{IsNodeStuck, IsNodeView};
ghost use Rattle.rn_looking.specs.Guards.{IsKnownUntrue};
ghost use Rattle.rn_looking.specs.NodeKinds.{IsGuardAt};
ghost use Rattle.rn_looking.specs.UntrueParts.{IsPartlyUntrue};

use crate::guard_parts::is_partly_untrue;
use crate::known::known_in_guard;
use crate::told::{Verdict, fails_or_waits, unless_waits};
use crate::views::NodeView;
use rn_calc::is_true;
use rn_growing::{Growing, Head};
use rn_model::Cond;
use rn_value::NoMemory;
use std::alloc::Global;

// What is known of a guard of a node: it fails where all its variables are forced, and it isn't
// true, or so is one of the conditions that it joins.
fn test_guard(
    alloc: Global,
    growing: &Growing<'_>,
    head: &Head,
    guard: &Cond,
) -> Result<Verdict, NoMemory>
    requires kinds { IsGuardAt growing.now head.now guard.now }
    ensures { IfOk result (λ told. told ≡ Fails → IsKnownUntrue growing.now head.now guard.now
        ⊎ IsPartlyUntrue growing.now head.now guard.now) }
{
    match known_in_guard(alloc, growing, head, guard)? {
        Some(known) => {
            if is_true(alloc, guard, &known)? {
                Ok(Verdict::Holds)
            } else {
                Ok(Verdict::Fails)
            }
        }
        None => Ok(fails_or_waits(is_partly_untrue(alloc, growing, head, guard)?)),
    }
}

/// What is known of the guards of a node. Where one of them fails, the decisions lead to no binding:
/// each has the forced values, and a guard that isn't true.
pub(crate) fn test_guards(alloc: Global, at: NodeView<'_>) -> Result<Verdict, NoMemory>
    requires { IsNodeView at }
    ensures { IfOk result (λ told. told ≡ Fails → IsNodeStuck at.entry) }
{
    let mut waits = false;
    for guard in at.transition.guards.as_slice() {
        match test_guard(alloc, at.growing, at.head, guard)? {
            Verdict::Fails => return Ok(Verdict::Fails),
            Verdict::Waits => waits = true,
            Verdict::Holds => {}
        }
    }
    Ok(unless_waits(waits))
}
