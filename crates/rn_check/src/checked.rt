//! The check of a net text.
ghost use Rattle.std.specs.Prelude.{◌≡◌, ℕ, List, Ok, Err, IfOk};
ghost use Rattle.rn_model.specs.declared.system.System.{System as Made};
ghost use Rattle.rn_model.specs.Good.{Good};
ghost use Rattle.rn_net.specs.Texts.{Spells};
ghost use Rattle.rn_notation.specs.declared.token.Spot.{Spot};
ghost use Rattle.rn_declared.specs.declared.fault.Rule.{Rule};
ghost use Rattle.rn_declared.specs.Faults.{report_of};
ghost use Rattle.rn_rules.specs.Broken.{BreaksFirst};
ghost use Rattle.rn_check.specs.Checked.{Checked, Answers};
ghost use Rattle.rn_spelled.specs.WellFormed.{IsWellFormed};

use rn_declared::CheckFault;
use rn_model::System;
use rn_net::Plain;
use rn_numbering::system_of;
use rn_rules::first_fault;
use std::alloc::Global;

/// The system that a net text means, or why it means none.
///
/// It recurses as deep as expressions nest, which in what a text spells is by 64 levels and 256
/// operators at most.
pub fn check_system(alloc: Global, plain: Plain) -> Result<System, CheckFault>
    // What is returned is checked, and what is refused is refused for the first broken rule.
    ensures accepted { IfOk result (λ system. Checked plain system) }
    ensures refused { (rule : Rule) (spot : Spot) → result ≡ Err (report_of rule spot) →
        BreaksFirst plain rule spot }
    // Where no rule is broken the system is returned, and where one is the first is reported.
    ensures accepts { (system : Made) → Checked plain system → Answers result (Ok system) }
    ensures refuses { (rule : Rule) (spot : Spot) → BreaksFirst plain rule spot →
        Answers result (Err (report_of rule spot)) }
    // The system of a plain form that is well formed is good, and so is that of a text.
    ensures good { IfOk result (λ system. IsWellFormed plain → Good system) }
    ensures good_text { IfOk result (λ system.
        (bytes : List ℕ) → Spells bytes plain → Good system) }
{
    if let Some(fault) = first_fault(alloc, &plain)? {
        return Err(fault.report());
    }
    Ok(system_of(alloc, plain)?)
}
