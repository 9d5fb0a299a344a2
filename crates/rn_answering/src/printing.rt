//! The command `print`: the canonical text of a net text.
ghost use Rattle.std.specs.Prelude.{◌⊎◌};
ghost use Rattle.rn_answering.specs.TextCommands.{PrintsTo};
ghost use Rattle.rn_answering.specs.NetTexts.{RefusesNet};
ghost use Rattle.rn_answering.specs.Refusing.{Concludes};

use crate::answer::{Answer, done};
use crate::net_text::{checked, plain_of};
use crate::stopped::Stopped;
use rn_print::print_system;
use std::alloc::Global;

/// What `print` comes to on this net text. The check uses the plain form up, so the canonical text
/// is made first; it is dropped where the check refuses.
#[tactic(auto, using(crate::proofs::Causes::refusals))]
pub fn print(alloc: Global, bytes: &[u8]) -> Result<Answer, Stopped>
    ensures { Concludes (λ a. RefusesNet bytes.now a ⊎ PrintsTo bytes.now a) result }
{
    let plain = plain_of(alloc, bytes)?;
    let text = print_system(alloc, &plain)?;
    let _system = checked(alloc, plain)?;
    Ok(done(alloc, text))
}
