//! The first broken rule of a net text.
ghost use Rattle.std.specs.Prelude.{◌≡◌, ◌↔◌, [], None, Some, IfOk};
ghost use Rattle.rn_notation.specs.declared.token.Spot.{Spot};
ghost use Rattle.rn_declared.specs.declared.fault.Rule.{Rule};
ghost use Rattle.rn_declared.specs.Faults.{broken};
ghost use Rattle.rn_rules.specs.Systems.{system_faults};
ghost use Rattle.rn_rules.specs.Broken.{BreaksFirst};

use crate::nets::see_system;
use rn_declared::{Fault, First};
use rn_net::Plain;
use rn_value::NoMemory;
use std::alloc::Global;

/// The first broken rule of a net text, and where it is broken; none where none is broken.
pub fn first_fault(alloc: Global, plain: &Plain) -> Result<Option<Fault>, NoMemory>
    ensures unbroken { IfOk result (λ fault. (fault ≡ None) ↔ (system_faults plain.now ≡ [])) }
    ensures first { IfOk result (λ fault. (rule : Rule) (spot : Spot) →
        (fault ≡ Some (broken rule spot)) ↔ BreaksFirst plain.now rule spot) }
{
    let mut first = First { fault: None };
    see_system(alloc, plain, &mut first)?;
    Ok(first.fault)
}
