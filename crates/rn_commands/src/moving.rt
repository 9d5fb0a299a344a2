//! The command `moves`: which tokens each firing of a record took and put.
ghost use Rattle.std.specs.Prelude.{◌≤◌, IfOk, length};
ghost use Rattle.rn_model.specs.Good.{IsInLimits};
ghost use Rattle.rn_fire.specs.States.{IsState, logged};
ghost use Rattle.rn_record_reader.specs.Runs.{longest_record};
ghost use Rattle.rn_moves.specs.MovesText.{MovesText};
ghost use Rattle.rn_answering.specs.Refusing.{Concludes};
ghost use Rattle.rn_commands.specs.Moves.{MovesComeTo};

use crate::replays::{parted, refused_replay, replayed, told_of};
use rn_answering::{Answer, Stopped, done, net_of};
use rn_fire::SimState;
use rn_items::NoMemory;
use rn_model::Options;
use rn_moves::{logs_have_moves, write_moves};
use std::alloc::Global;

// The moves of the log of a state.
fn moves_text(alloc: Global, state: &SimState) -> Result<Vec<u8>, NoMemory>
    ensures text { IfOk result (λ text.
        MovesText state.now.setup.system (logged state.now) text.items) }
    ensures state { IsState state.now }
{
    logs_have_moves();
    // For its clause: it is a state of a run (`IsState`).
    let _length = state.length();
    write_moves(alloc, state.system(), state.entries())
}

/// What `moves` comes to on this input, with these options.
pub fn moves(alloc: Global, options: Options, bytes: &[u8]) -> Result<Answer, Stopped>
    requires limits { IsInLimits options }
    requires few { length bytes.now ≤ longest_record }
    ensures { Concludes (MovesComeTo options bytes.now) result }
{
    let (net, rest) = parted(bytes);
    let accepted = net_of(alloc, net)?;
    let told = told_of(alloc, &accepted.system, accepted.notation, rest)?;
    match replayed(alloc, accepted.system, options, &told) {
        Ok(state) => {
            let text = moves_text(alloc, &state)?;
            Ok(done(alloc, text))
        }
        Err(fault) => Err(refused_replay(alloc, fault)),
    }
}
