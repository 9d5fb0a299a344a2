//! Writing what is reported of a run.
ghost use Rattle.std.specs.Prelude.{◌≡◌, ◌≢◌, ◌<◌, None, IfSome};
ghost use Rattle.rn_record.specs.RecordText.{IsFormat};
ghost use Rattle.rn_commands.specs.Written.{Tells, HasEndless};
ghost use Rattle.rn_commands.specs.link.Closings.{TellsEnd};
ghost use Rattle.rn_commands.specs.link.Ends.{IsWrittenBy};
ghost use Rattle.rn_commands.specs.link.Workloads.{IsTalliedBy};

use crate::closing::Closing;
use crate::tallying::tally_of;
use rn_answering::WRITE_FAULT;
use rn_fire::SimState;
use rn_outside::Sink;
use rn_pour::write_text;
use rn_state_record::{PourFault, pour_record};
use rn_window::Window;

// Writes the line of an end, and returns its status. Memory that ran out stays reported where that
// fails.
fn tell<E: Sink>(closing: Closing, window: &mut Window, err: &mut E) -> u8
    requires room { 0 < window.old.room }
    ensures { TellsEnd closing result
        (record {
          held = E.held err.old;
          faults = E.faults err.old;
          writes = E.writes err.old;
          empty_writes = E.empty_writes err.old;
        })
        (record {
          held = E.held err.new;
          faults = E.faults err.new;
          writes = E.writes err.new;
          empty_writes = E.empty_writes err.new;
        })
        err.old err.new }
{
    match closing {
        Closing::Done => closing.status(),
        Closing::Memory => {
            let _written = write_text(&closing, window, err);
            closing.status()
        }
        Closing::Fault(_, _) => match write_text(&closing, window, err) {
            Ok(()) => closing.status(),
            Err(_) => WRITE_FAULT,
        },
    }
}

/// Writes the record of a run whose log has ended, and the line of its end. `None` where a line of
/// the record has 2^64 - 1 bytes or more: then nothing is written.
pub(crate) fn write_recorded<O: Sink, E: Sink>(
    state: SimState,
    format: u32,
    window: &mut Window,
    out: &mut O,
    err: &mut E,
) -> Option<u8>
    requires ended { state.ended ≢ None }
    requires format { IsFormat format }
    requires room { 0 < window.old.room }
    ensures told { IfSome result (λ status. Tells (IsWrittenBy format state) status
        (record {
          held = O.held out.old;
          faults = O.faults out.old;
          writes = O.writes out.old;
          empty_writes = O.empty_writes out.old;
        })
        (record {
          held = O.held out.new;
          faults = O.faults out.new;
          writes = O.writes out.new;
          empty_writes = O.empty_writes out.new;
        })
        (record {
          held = E.held err.old;
          faults = E.faults err.old;
          writes = E.writes err.old;
          empty_writes = E.empty_writes err.old;
        })
        (record {
          held = E.held err.new;
          faults = E.faults err.new;
          writes = E.writes err.new;
          empty_writes = E.empty_writes err.new;
        })
        err.old err.new) }
    ensures none { result ≡ None → (out.new ≡ out.old) × (err.new ≡ err.old) }
    ensures endless { result ≡ None → HasEndless (IsWrittenBy format state) }
{
    let closing = Closing::of(&state);
    match pour_record(state, format, window, out) {
        Ok(()) => Some(tell(closing, window, err)),
        Err(PourFault::Write) => Some(WRITE_FAULT),
        Err(PourFault::Endless) => None,
    }
}

/// Writes the tally of a run whose log has ended, and the line of its end.
pub(crate) fn write_tallied<O: Sink, E: Sink>(
    state: SimState,
    window: &mut Window,
    out: &mut O,
    err: &mut E,
) -> u8
    requires ended { state.ended ≢ None }
    requires room { 0 < window.old.room }
    ensures { Tells (IsTalliedBy state) result
        (record {
          held = O.held out.old;
          faults = O.faults out.old;
          writes = O.writes out.old;
          empty_writes = O.empty_writes out.old;
        })
        (record {
          held = O.held out.new;
          faults = O.faults out.new;
          writes = O.writes out.new;
          empty_writes = O.empty_writes out.new;
        })
        (record {
          held = E.held err.old;
          faults = E.faults err.old;
          writes = E.writes err.old;
          empty_writes = E.empty_writes err.old;
        })
        (record {
          held = E.held err.new;
          faults = E.faults err.new;
          writes = E.writes err.new;
          empty_writes = E.empty_writes err.new;
        })
        err.old err.new }
{
    let closing = Closing::of(&state);
    let tally = tally_of(state);
    match write_text(&tally, window, out) {
        Ok(()) => tell(closing, window, err),
        Err(_) => WRITE_FAULT,
    }
}
