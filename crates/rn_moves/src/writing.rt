//! The text of the moves of a log.
ghost use Rattle.std.specs.Prelude.{length, IfOk, OnOk};
ghost use Rattle.rn_model.specs.Good.{Good};
ghost use Rattle.rn_moves.specs.link.Connecting.{WritesAll, WritesEntry};
ghost use Rattle.rn_moves.specs.Laws.{LogsHaveMoves};
ghost use Rattle.rn_moves.specs.link.Movable.{HasEntryMoves, HaveMoves};
ghost use Rattle.rn_moves.specs.MovesText.{MovesText, nets_of};

use crate::lines::put_moves;
use crate::moving::{first_moves, first_net, moves_of};
use crate::naming::{names_of, nets_of};
use crate::writer::Writer;
use rn_acts::nets_made;
use rn_items::NoMemory;
use rn_model::{Entry, System};
use std::alloc::Global;

/// The number of the next firing, and the one that the next instance gets.
#[derive(Clone, Copy, Debug, PartialEq, Eq)]
struct Numbers {
    next: u32,
    step: u64,
}

/// Appends the lines of an entry. The answer is the numbers after it.
fn put_entry(
    alloc: Global,
    by: Writer<'_>,
    numbers: Numbers,
    entry: &Entry,
    out: &mut Vec<u8>,
) -> Result<Numbers, NoMemory>
    requires good { Good by.system.now }
    requires moves { HasEntryMoves by.system.now (length by.names.now) numbers.next numbers.step
        entry.now }
    ensures { IfOk result (λ after. WritesEntry by.entry.system.now by.entry.nets.now
        by.entry.names.now numbers.next numbers.step entry.now after.next after.step out.old.items
        out.new.items) }
{
    match entry {
        Entry::Fire {
            worker: _,
            binding,
            outs: _,
        } => {
            let Numbers { next, step } = numbers;
            let moves = moves_of(alloc, by.system, binding, next, step)?;
            put_moves(alloc, by, step, &moves, out)?;
            let made = nets_made(alloc, by.system, binding)?;
            Ok(Numbers {
                next: next + made.len() as u32,
                step: step + 1,
            })
        }
        Entry::End(_) => Ok(numbers),
    }
}

/// Appends the lines of entries, of which the first firing has the number 1 and makes instances from
/// number 2.
fn put_entries(
    alloc: Global,
    by: Writer<'_>,
    entries: &[Entry],
    out: &mut Vec<u8>,
) -> Result<(), NoMemory>
    requires good { Good by.system.now }
    requires moves { HaveMoves by.system.now (length by.names.now) 2 1 entries.now }
    ensures { OnOk result (WritesAll by.entry.system.now by.entry.nets.now by.entry.names.now
        entries.now out.old.items out.new.items) }
{
    let mut numbers = Numbers { next: 2, step: 1 };
    for entry in entries {
        numbers = put_entry(alloc, by, numbers, entry, out)?;
    }
    Ok(())
}

/// The moves of a log: a line for each token that one of its firings takes or puts, as
/// `3 + cup[2].tea 1`. Those of the start have the number 0.
///
/// ```text
/// 0 + main[1].kettle 5
/// 1 - main[1].kettle 5
/// 1 + main[1].kettle 3
/// 1 + main[1].table cup[2]
/// 1 + cup[2].tea 2
/// ```
pub fn write_moves(alloc: Global, system: &System, entries: &[Entry]) -> Result<Vec<u8>, NoMemory>
    requires good { Good system.now }
    requires moves { HaveMoves system.now (length (nets_of system.now entries.now)) 2 1 entries.now }
    ensures { IfOk result (λ text. MovesText system.now entries.now text.items) }
{
    let main = first_net(system);
    let nets = nets_of(alloc, system, main, entries)?;
    let names = names_of(alloc, system, nets.as_slice())?;
    let first = first_moves(alloc, system, main)?;
    let mut text = Vec::new(alloc);
    let by = Writer {
        system,
        nets: nets.as_slice(),
        names: &names,
    };
    put_moves(alloc, by, 0, &first, &mut text)?;
    put_entries(alloc, by, entries, &mut text)?;
    Ok(text)
}

/// The moves of each log of a good system can be listed.
pub fn logs_have_moves()
    ensures { LogsHaveMoves }
{}
