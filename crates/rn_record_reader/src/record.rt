//! Whole records.
ghost use Rattle.std.specs.Prelude.{◌≡◌, ◌≤◌, ◌+◌, length, codes, option_map, unwrap_or};
ghost use Rattle.rn_model.specs.Good.{Good};
ghost use Rattle.rn_lookup.specs.Found.{net_named};
ghost use Rattle.rn_record.specs.RecordText.{IsFormat, header_text};
ghost use Rattle.rn_record_reader.specs.Lines.{lines_in};
ghost use Rattle.rn_record_reader.specs.Runs.{Tells, TellsRecord, Verdict, longest_record};
ghost use Rattle.rn_record_reader.specs.Runs.{bytes_after, first_made};
ghost use Rattle.rn_record_reader.specs.link.RunsAhead.{FaultTells, RecordTells, end_verdict, with_entries};

use crate::ends::EndRead;
use crate::entries::{EntryRead, next_entry};
use crate::fault::RecordFault;
use crate::reader::Reader;
use rn_items::Items;
use rn_lookup::{Directory, Refusal};
use rn_model::{Entry, System, Told};
use std::alloc::Global;

/// The number of the net `main`.
fn main_net(system: &System) -> u32
    requires { Good system.now }
    ensures { result ≡ unwrap_or (net_named system.now (codes "main")) 0 }
{
    for (i, net) in system.nets.as_slice().iter().enumerate() {
        if net.name.as_str().as_bytes() == "main".as_bytes() {
            return i as u32;
        }
    }
    0
}

fn fault_at(line: u32, refusal: Refusal) -> RecordFault
    ensures { FaultTells (λ v. v ≡ Verdict.bad line refusal) result }
{
    match refusal {
        Refusal::Form => RecordFault::Q1(line),
        Refusal::Name => RecordFault::Q2(line),
        Refusal::Step => RecordFault::Q3(line),
        Refusal::Many => RecordFault::Q4(line),
        Refusal::Memory(no_memory) => RecordFault::NoMemory(no_memory),
    }
}

/// What a record tells, by its firings and what comes after them.
#[tactic(auto, using(crate::proofs::RunLemmas::entries_tell, crate::proofs::RunLemmas::fault_tells))]
fn told(mut entries: Vec<Entry>, end: EndRead) -> Result<Told, RecordFault>
    ensures { RecordTells
        (λ v. v ≡ with_entries entries.items (end_verdict end)) result }
{
    match end {
        EndRead::Told(reason, marks) => {
            entries.push(Entry::End(reason))?;
            Ok(Told {
                entries: Items::from_vec(entries),
                marks: Items::from_vec(marks),
            })
        }
        EndRead::Bad(line, refusal) => Err(fault_at(line, refusal)),
    }
}

/// The bytes after the name of the format, where it stands there.
fn after_name(format: u32, bytes: &[u8]) -> Option<&[u8]>
    ensures { option_map (λ rest. rest.now) result ≡ bytes_after (header_text format) bytes.now }
{
    if format == 1 {
        return Some(bytes);
    }
    bytes.strip_prefix(b"run 2\n".as_slice())
}

/// What lines tell, the first with this number.
fn read_lines(
    alloc: Global,
    system: &System,
    format: u32,
    first: u32,
    bytes: &[u8],
) -> Result<Told, RecordFault>
    requires good { Good system.now }
    requires low { first ≤ 2 }
    requires few { length bytes.now ≤ longest_record }
    ensures { RecordTells
        (Tells format system.now (first_made system.now) 1 first (lines_in bytes.now)) result }
{
    let directory = Directory::new(alloc, system)?;
    let by = Reader {
        system,
        directory: &directory,
        format,
    };
    let mut made = Vec::new(alloc);
    made.push(main_net(system))?;
    let mut entries = Vec::new(alloc);
    let mut step = 1;
    let mut line = first;
    let mut rest = bytes;
    loop {
        match next_entry(alloc, by, &mut made, step, line, rest)? {
            EntryRead::Fired(entry, count, after) => {
                entries.push(entry)?;
                step += 1;
                line += count as u32;
                rest = after;
            }
            EntryRead::Over(end) => return told(entries, end),
        }
    }
}

/// What a record tells: its firings, its end, and the marks after it; or its first bad line.
///
/// ```text
/// 1 w1 main[1].make w=worker[2]
/// 2 w1 main[1].step k=0 w=worker[2]
/// 2 w1 + worker[2].go k=0
/// 2 w1 > "done"
/// end dead
/// worker[2].q []
/// ```
///
/// Of the instances that a firing makes each has the next number, in the order of the firing's nodes
/// and of their creations. Its own lines name them by these numbers, and they are read as the
/// creations that they are. A line that names an instance that isn't made, or that has another net,
/// is refused as `Q2`.
///
/// In format 2 the first line is `run 2`, and of equal values side by side a mark has one, with their
/// number, as in `main[1].q 5*3`.
///
/// The bytes are at most 64 MiB.
pub fn read_record(
    alloc: Global,
    system: &System,
    format: u32,
    bytes: &[u8],
) -> Result<Told, RecordFault>
    requires good { Good system.now }
    requires format { IsFormat format }
    requires few { length bytes.now ≤ longest_record }
    ensures { RecordTells (TellsRecord system.now format bytes.now) result }
{
    let Some(rest) = after_name(format, bytes) else {
        return Err(RecordFault::Q1(1));
    };
    let first = if format == 1 { 1 } else { 2 };
    read_lines(alloc, system, format, first, rest)
}
