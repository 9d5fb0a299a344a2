//! The entries of a run, written into a sink piece by piece.
ghost use Rattle.std.specs.Prelude.{◌≡◌, ◌↔◌, ◌<◌, ◌≤◌, ◌++◌, length, take, min, IsTrue, OnOk, OnErr};
ghost use Rattle.rn_window.specs.Windows.{top};
ghost use Rattle.rn_pour.specs.Flows.{Standing, Flows, Breaks};
ghost use Rattle.rn_record.specs.RecordText.{IsFormat, entry_text, entries_text, header_text};
ghost use Rattle.rn_record.specs.RecordText.{names_at_end};
ghost use Rattle.rn_record.specs.Nets.{EntryFits, EntriesFit, first_of};
ghost use Rattle.rn_record.specs.Parts.{entry_parts, AreShort};

use crate::entry_text::EntryText;
use crate::nets::{count_fired, count_made};
use crate::record::header;
use rn_model::{Entry, System};
use rn_outside::{Sink, WriteFault};
use rn_pour::{measure, pour};
use rn_spell::NetNames;
use rn_window::{Plain, Window};

/// The entries of a run, whose record has format 1 or 2.
#[derive(Drop)]
pub struct LogText<'a> {
    pub system: &'a System,
    pub format: u32,
    pub entries: &'a [Entry],
    /// The index of the net of each instance, from the one with number 1: of the first, and of
    /// those that the entries make, or would make by a fault.
    pub nets: &'a [u32],
}

/// How many instances there are at the end of a log: the one at the start, and those that its
/// firings make.
pub fn count_named(log: &LogText<'_>) -> usize
    requires { EntriesFit log.now.system.now log.now.nets.now 1 log.now.entries.now }
    ensures within { result ≤ length log.now.nets.now }
    ensures named { first_of log.now.system.now log.now.nets.now result
        ≡ names_at_end log.now.system.now
        (first_of log.now.system.now log.now.nets.now 1) log.now.entries.now }
{
    let mut before = 1;
    for entry in log.entries {
        before += count_fired(log.system, entry);
    }
    before
}

/// Whether the lines of each entry have fewer than 2^64 - 1 bytes. Each is written into the window
/// once, and counted. It takes no memory.
pub fn log_is_short(log: &LogText<'_>, window: &mut Window) -> bool
    requires { EntriesFit log.now.system.now log.now.nets.now 1 log.now.entries.now }
    ensures short { IsTrue result ↔ AreShort (entry_parts log.now.system.now
        (first_of log.now.system.now log.now.nets.now 1) 1 log.now.entries.now) }
    ensures room { window.new.room ≡ window.old.room }
{
    let mut before = 1;
    for i in 0..log.entries.len() {
        let entry = &log.entries[i];
        if measure_entry(log, i as u64 + 1, entry, before, window) == usize::MAX {
            return false;
        }
        before += count_fired(log.system, entry);
    }
    true
}

/// Writes the first line of the record, where its format has one, and the lines of the entries,
/// behind what waits in the window. It takes no memory.
pub fn pour_log<O: Sink>(
    log: &LogText<'_>,
    window: &mut Window,
    sink: &mut O,
) -> Result<(), WriteFault>
    requires fit { EntriesFit log.now.system.now log.now.nets.now 1 log.now.entries.now }
    requires room { 0 < window.old.room }
    requires short { AreShort (entry_parts log.now.system.now
        (first_of log.now.system.now log.now.nets.now 1) 1 log.now.entries.now) }
    ensures ok { OnOk result (Flows
        (record {
          held = O.held sink.old;
          faults = O.faults sink.old;
          writes = O.writes sink.old;
          empty_writes = O.empty_writes sink.old;
        }) window.old.kept
        (header_text log.now.format ++ entries_text log.now.system.now
        (first_of log.now.system.now log.now.nets.now 1) 1 log.now.entries.now)
        (record {
          held = O.held sink.new;
          faults = O.faults sink.new;
          writes = O.writes sink.new;
          empty_writes = O.empty_writes sink.new;
        }) window.new.kept) }
    ensures err { OnErr result (Breaks
        (record {
          held = O.held sink.old;
          faults = O.faults sink.old;
          writes = O.writes sink.old;
          empty_writes = O.empty_writes sink.old;
        }) window.old.kept
        (header_text log.now.format ++ entries_text log.now.system.now
        (first_of log.now.system.now log.now.nets.now 1) 1 log.now.entries.now)
        (record {
          held = O.held sink.new;
          faults = O.faults sink.new;
          writes = O.writes sink.new;
          empty_writes = O.empty_writes sink.new;
        })) }
    ensures room { window.new.room ≡ window.old.room }
{
    let first = Plain {
        bytes: header(log.format),
    };
    pour(&first, window, sink)?;
    pour_entries(log, window, sink)
}

/// How many bytes the lines of the entry with this number have, after so many instances.
fn measure_entry(
    log: &LogText<'_>,
    step: u64,
    entry: &Entry,
    before: usize,
    window: &mut Window,
) -> usize
    requires { EntryFits log.now.system.now log.now.nets.now before entry.now }
    ensures length { result ≡ min top (length
        (entry_text log.now.system.now (first_of log.now.system.now
        log.now.nets.now before) step entry.now)) }
    ensures room { window.new.room ≡ window.old.room }
{
    let made = count_made(log.system, entry);
    let names = NetNames {
        system: log.system,
        nets: &log.nets[..before + made],
    };
    let text = EntryText {
        system: log.system,
        step,
        entry,
        names: &names,
        before,
    };
    measure(&text, window)
}

/// Writes the entries.
fn pour_entries<O: Sink>(
    log: &LogText<'_>,
    window: &mut Window,
    sink: &mut O,
) -> Result<(), WriteFault>
    requires fit { EntriesFit log.now.system.now log.now.nets.now 1 log.now.entries.now }
    requires room { 0 < window.old.room }
    requires short { AreShort
        (entry_parts log.now.system.now (first_of log.now.system.now log.now.nets.now 1) 1
        log.now.entries.now) }
    ensures ok { OnOk result (Flows (record {
      held = O.held sink.old;
      faults = O.faults sink.old;
      writes = O.writes sink.old;
      empty_writes = O.empty_writes sink.old;
    })
        window.old.kept (entries_text log.now.system.now (first_of log.now.system.now
        log.now.nets.now 1) 1 log.now.entries.now)
        (record {
          held = O.held sink.new;
          faults = O.faults sink.new;
          writes = O.writes sink.new;
          empty_writes = O.empty_writes sink.new;
        }) window.new.kept) }
    ensures err { OnErr result (Breaks
        (record {
          held = O.held sink.old;
          faults = O.faults sink.old;
          writes = O.writes sink.old;
          empty_writes = O.empty_writes sink.old;
        })
        window.old.kept (entries_text log.now.system.now (first_of log.now.system.now
        log.now.nets.now 1) 1 log.now.entries.now)
        (record {
          held = O.held sink.new;
          faults = O.faults sink.new;
          writes = O.writes sink.new;
          empty_writes = O.empty_writes sink.new;
        })) }
    ensures room { window.new.room ≡ window.old.room }
{
    let mut before = 1;
    for i in 0..log.entries.len() {
        let entry = &log.entries[i];
        pour_entry(log, i as u64 + 1, entry, before, window, sink)?;
        before += count_fired(log.system, entry);
    }
    Ok(())
}

/// Writes the lines of the entry with this number, after so many instances.
fn pour_entry<O: Sink>(
    log: &LogText<'_>,
    step: u64,
    entry: &Entry,
    before: usize,
    window: &mut Window,
    sink: &mut O,
) -> Result<(), WriteFault>
    requires fits { EntryFits log.now.system.now log.now.nets.now before entry.now }
    requires room { 0 < window.old.room }
    requires short { length (entry_text log.now.system.now (first_of log.now.system.now
        log.now.nets.now before)
        step entry.now) < top }
    ensures ok { OnOk result (Flows (record {
      held = O.held sink.old;
      faults = O.faults sink.old;
      writes = O.writes sink.old;
      empty_writes = O.empty_writes sink.old;
    })
        window.old.kept (entry_text log.now.system.now (first_of log.now.system.now
        log.now.nets.now before) step entry.now)
        (record {
          held = O.held sink.new;
          faults = O.faults sink.new;
          writes = O.writes sink.new;
          empty_writes = O.empty_writes sink.new;
        }) window.new.kept) }
    ensures err { OnErr result (Breaks
        (record {
          held = O.held sink.old;
          faults = O.faults sink.old;
          writes = O.writes sink.old;
          empty_writes = O.empty_writes sink.old;
        })
        window.old.kept (entry_text log.now.system.now (first_of log.now.system.now
        log.now.nets.now before) step entry.now)
        (record {
          held = O.held sink.new;
          faults = O.faults sink.new;
          writes = O.writes sink.new;
          empty_writes = O.empty_writes sink.new;
        })) }
    ensures room { window.new.room ≡ window.old.room }
{
    let made = count_made(log.system, entry);
    let names = NetNames {
        system: log.system,
        nets: &log.nets[..before + made],
    };
    let text = EntryText {
        system: log.system,
        step,
        entry,
        names: &names,
        before,
    };
    pour(&text, window, sink)
}
