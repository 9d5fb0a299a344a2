//! What the firing of a binding comes to, before it is done.
ghost use Rattle.std.specs.Prelude.{◌≤◌, ◌+◌, ◌^◌, All, IfOk, length};
ghost use Rattle.rn_model.specs.Bindings.{IsNodeOf};
ghost use Rattle.rn_model.specs.Firing.{creations_of};
ghost use Rattle.rn_model.specs.Good.{Good};
ghost use Rattle.rn_model.specs.Limits.{greatest_instance, greatest_step};
ghost use Rattle.rn_calc.specs.OwnKinds.{HaveOwnKinds};
ghost use Rattle.rn_fire.specs.link.Outcomes.{IsOutcome};

use rn_acts::{Acted, act, change_of, gives_too_many};
use rn_items::NoMemory;
use rn_model::{Binding, FaultKind, System, named};
use rn_table::Change;
use rn_value::Vals;
use std::alloc::Global;

/// A firing that is undefined by a cause, or what it prints and changes.
#[derive(Drop)]
pub(crate) enum Outcome {
    Undefined(FaultKind),
    Defined(Vals, Change),
}

/// What the firing of a binding comes to, as the firing with this number, where new instances get
/// the numbers from `next`. It is undefined by its actions first.
pub(crate) fn outcome_of(
    alloc: Global,
    system: &System,
    binding: &Binding,
    next: u32,
    step: u64,
) -> Result<Outcome, NoMemory>
    requires good { Good system.now }
    requires nodes { All (IsNodeOf system.now) binding.now.nodes }
    requires kinds { All (HaveOwnKinds system.now) binding.now.nodes }
    requires numbers { next + length (creations_of system.now binding.now) ≤ 2 ^ 32 }
    requires next { next ≤ greatest_instance + 1 }
    requires step { step ≤ greatest_step }
    ensures { IfOk result (λ outcome. IsOutcome system.now binding.now next step outcome) }
{
    let numbered = named(alloc, system, binding, next)?;
    let Some(acted) = act(alloc, system, &numbered, step)? else {
        return Ok(Outcome::Undefined(FaultKind::Action));
    };
    let Acted { outs, put } = acted;
    let change = change_of(alloc, system, &numbered, put)?;
    if gives_too_many(next, change.made.len()) {
        return Ok(Outcome::Undefined(FaultKind::Instances));
    }
    Ok(Outcome::Defined(outs, change))
}
