//! The record of a state that isn't needed any more, written in pieces.
ghost use Rattle.std.specs.Prelude.{◌≡◌, ◌≢◌, ◌↔◌, ◌<◌, ◌^◌, ◌++◌, ℕ, List, [], Some, None, true};
ghost use Rattle.std.specs.Prelude.{length, OnOk, OnErr};
ghost use Rattle.std.specs.Result.{IsErrOf};
ghost use Rattle.rn_model.specs.declared.log.MarkLine.{MarkLine};
ghost use Rattle.rn_model.specs.Liveness.{IsLive, LivePart};
ghost use Rattle.rn_model.specs.Markings.{Instance, instance_at};
ghost use Rattle.rn_live.specs.Rooms.{is_marked};
ghost use Rattle.rn_pour.specs.Flows.{Standing, Flows, Breaks};
ghost use Rattle.rn_record.specs.RecordText.{IsFormat, entries_text, header_text};
ghost use Rattle.rn_record.specs.Nets.{EntriesFit, first_of};
ghost use Rattle.rn_record.specs.Parts.{AreShort, entry_parts};
ghost use Rattle.rn_end_marking.specs.MarkTexts.{AreShort as AreShortMarks, marks_text};
ghost use Rattle.rn_state_record.specs.Poured.{TakesRecord, BreaksRecord, HasEndlessRecord};

use rn_end_marking::{LiveMarks, marks_are_short, pour_marks};
use rn_fire::{Parts, SimState};
use rn_model::System;
use rn_outside::{Sink, WriteFault};
use rn_pour::flush;
use rn_record::{LogText, count_named, log_is_short, pour_log};
use rn_window::Window;

/// Why the record of a state wasn't written, or not whole.
#[derive(Clone, Copy, Debug, PartialEq, Eq)]
pub enum PourFault {
    /// A write failed.
    Write,
    /// The lines of an entry, or the line of a mark, have 2^64 - 1 bytes or more. Nothing was
    /// written.
    Endless,
}

/// Writes the record of a state whose log has ended into a sink, by pieces of the window's room:
/// the text that `write_record` gives. It takes no memory. Where the lines of an entry or the line
/// of a mark have 2^64 - 1 bytes or more, which no memory holds, nothing is written.
pub fn pour_record<O: Sink>(
    state: SimState,
    format: u32,
    window: &mut Window,
    out: &mut O,
) -> Result<(), PourFault>
    requires ended { state.ended ≢ None }
    requires format { IsFormat format }
    requires room { 0 < window.old.room }
    ensures took { OnOk result (TakesRecord format state
        (record {
          held = O.held out.old;
          faults = O.faults out.old;
          writes = O.writes out.old;
          empty_writes = O.empty_writes out.old;
        })
        (record {
          held = O.held out.new;
          faults = O.faults out.new;
          writes = O.writes out.new;
          empty_writes = O.empty_writes out.new;
        })) }
    ensures broke { IsErrOf result PourFault.Write → BreaksRecord format state
        (record {
          held = O.held out.old;
          faults = O.faults out.old;
          writes = O.writes out.old;
          empty_writes = O.empty_writes out.old;
        })
        (record {
          held = O.held out.new;
          faults = O.faults out.new;
          writes = O.writes out.new;
          empty_writes = O.empty_writes out.new;
        }) }
    ensures endless { IsErrOf result PourFault.Endless → out.new ≡ out.old }
    ensures long { IsErrOf result PourFault.Endless → HasEndlessRecord format state }
    ensures room { window.new.room ≡ window.old.room }
{
    let Parts {
        system: shared,
        entries,
        table,
        nets,
        mut live,
    } = state.into_parts();
    let system: &System = &shared;
    live.mark(system, &table);
    let log = LogText {
        system,
        format,
        entries: entries.as_slice(),
        nets: nets.as_slice(),
    };
    let named = count_named(&log);
    let marks = LiveMarks {
        system,
        table: &table,
        live: &live,
        nets: &log.nets[..named],
        format,
    };
    if !log_is_short(&log, window) || !marks_are_short(&marks, window) {
        return Err(PourFault::Endless);
    }
    match pour_parts(&log, &marks, window, out) {
        Ok(()) => Ok(()),
        Err(WriteFault) => Err(PourFault::Write),
    }
}

// Writes the entries of a log and the marks of its end.
fn pour_parts<O: Sink>(
    log: &LogText<'_>,
    marks: &LiveMarks<'_>,
    window: &mut Window,
    out: &mut O,
) -> Result<(), WriteFault>
    requires room { 0 < window.old.room }
    requires fit { EntriesFit log.now.system.now log.now.nets.now 1 log.now.entries.now }
    requires short { AreShort (entry_parts log.now.system.now
        (first_of log.now.system.now log.now.nets.now 1) 1 log.now.entries.now) }
    requires live { (n : ℕ) → (is_marked marks.now.live.now.marks n ≡ true)
        ↔ IsLive marks.now.system.now marks.now.table.now.marking n }
    requires places { (n : ℕ) (i : Instance) →
        instance_at marks.now.table.now.marking n ≡ Some i → length i.places < 2 ^ 32 }
    requires marks { AreShortMarks marks.now.format marks.now.system.now marks.now.nets.now
        marks.now.table.now.marking }
    ensures ok { OnOk result ((lines : List MarkLine) →
        LivePart marks.now.system.now marks.now.table.now.marking lines → Flows
        (record {
          held = O.held out.old;
          faults = O.faults out.old;
          writes = O.writes out.old;
          empty_writes = O.empty_writes out.old;
        }) [] ((header_text log.now.format ++ entries_text log.now.system.now
        (first_of log.now.system.now log.now.nets.now 1) 1 log.now.entries.now)
        ++ marks_text marks.now.format marks.now.system.now marks.now.nets.now lines)
        (record {
          held = O.held out.new;
          faults = O.faults out.new;
          writes = O.writes out.new;
          empty_writes = O.empty_writes out.new;
        }) []) }
    ensures err { OnErr result ((lines : List MarkLine) →
        LivePart marks.now.system.now marks.now.table.now.marking lines → Breaks
        (record {
          held = O.held out.old;
          faults = O.faults out.old;
          writes = O.writes out.old;
          empty_writes = O.empty_writes out.old;
        }) [] ((header_text log.now.format ++ entries_text log.now.system.now
        (first_of log.now.system.now log.now.nets.now 1) 1 log.now.entries.now)
        ++ marks_text marks.now.format marks.now.system.now marks.now.nets.now lines)
        (record {
          held = O.held out.new;
          faults = O.faults out.new;
          writes = O.writes out.new;
          empty_writes = O.empty_writes out.new;
        })) }
    ensures room { window.new.room ≡ window.old.room }
{
    window.begin(0, 0);
    pour_log(log, window, out)?;
    pour_marks(marks, window, out)?;
    flush(window, out)
}
