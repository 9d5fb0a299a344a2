//! The command `check`: whether a net text is accepted.
ghost use Rattle.std.specs.Prelude.{◌≡◌, ◌⊎◌, IfOk, codes};
ghost use Rattle.rn_answering.specs.TextCommands.{ChecksTo};
ghost use Rattle.rn_answering.specs.NetTexts.{RefusesNet};
ghost use Rattle.rn_answering.specs.Refusing.{Concludes};

use crate::answer::{Answer, done};
use crate::net_text::system_of;
use crate::stopped::Stopped;
use rn_items::NoMemory;
use std::alloc::Global;

// The text of an accepted net text.
fn ok_text(alloc: Global) -> Result<Vec<u8>, NoMemory>
    ensures { IfOk result (λ text. text.items ≡ codes "ok\n") }
{
    let text = Vec::from_slice(alloc, b"ok\n")?;
    Ok(text)
}

/// What `check` comes to on this net text.
pub fn check(alloc: Global, bytes: &[u8]) -> Result<Answer, Stopped>
    ensures { Concludes (λ a. RefusesNet bytes.now a ⊎ ChecksTo bytes.now a) result }
{
    let _system = system_of(alloc, bytes)?;
    let text = ok_text(alloc)?;
    Ok(done(alloc, text))
}
