//! The command `session`: stepping through a net by lines.
ghost use Rattle.std.specs.Prelude.{IfOk};
ghost use Rattle.rn_model.specs.Good.{Good, IsInLimits};
ghost use Rattle.rn_served.specs.Entries.{nothing};
ghost use Rattle.rn_served.specs.Lines.{lines_of};
ghost use Rattle.rn_served.specs.Served.{Served};
ghost use Rattle.rn_answering.specs.Refusing.{Concludes};
ghost use Rattle.rn_commands.specs.Stepping.{SessionComesTo};

use crate::replays::parted;
use rn_answering::{Answer, Stopped, done, system_of};
use rn_items::NoMemory;
use rn_model::{Options, System};
use rn_session::serve;
use std::alloc::Global;
use std::sync::Arc;

// All that a session answers to these lines.
fn session_text(
    alloc: Global,
    system: System,
    options: Options,
    lines: &[u8],
) -> Result<Vec<u8>, NoMemory>
    requires good { Good system }
    requires limits { IsInLimits options }
    ensures { IfOk result (λ text. Served system options (lines_of lines.now) nothing text.items) }
{
    let system = Arc::new(alloc, system)?;
    serve(alloc, system, options, lines)
}

/// What `session` comes to on this input, with these options.
pub fn session(alloc: Global, options: Options, bytes: &[u8]) -> Result<Answer, Stopped>
    requires { IsInLimits options }
    ensures { Concludes (SessionComesTo options bytes.now) result }
{
    let (net, rest) = parted(bytes);
    let system = system_of(alloc, net)?;
    let text = session_text(alloc, system, options, rest)?;
    Ok(done(alloc, text))
}
