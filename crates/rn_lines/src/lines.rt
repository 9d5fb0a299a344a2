//! Lines of records, each by itself.
ghost use Rattle.std.specs.Prelude.{◌≡◌, IfOk, Some};
ghost use Rattle.rn_lines.specs.LineReading.{worker_at, lead_at, last_at, mark_at};
ghost use Rattle.rn_lines.specs.LineReading.{firing_at, fault_at, ending_at, line_at};
ghost use Rattle.rn_lines.specs.LineText.{LineSaid, IsLine};
ghost use Rattle.rn_lines.specs.link.LinesSeen.{lead, token, line};
ghost use Rattle.rn_lines.specs.Reading.{ReturnsRead};

use crate::instances::{Mention, byte_at, inst_at, name_at};
use crate::items::{ReadItem, items_at};
use crate::nodes::{ReadNode, node_at};
use crate::numerals::{numeral_at, step_at};
use crate::unread::Unread;
use crate::values::seen_at;
use rn_value::{Value, is_digit};
use std::alloc::Global;

/// The greatest number of a worker.
const GREATEST_WORKER: u64 = 64;

/// How the lines of a firing begin, as `3 w1 `: the digits of its step, and its worker.
#[derive(Clone, Copy, Debug, Drop)]
pub struct Lead<'a> {
    pub step: &'a [u8],
    pub worker: u32,
}

/// A value, and the instances that its text names.
#[derive(Debug, Drop)]
pub struct ReadToken<'a> {
    pub value: Value,
    pub mentions: Vec<Mention<'a>>,
}

/// A place of an instance with its tokens, as `main[1].q [] 5*3`.
#[derive(Debug, Drop)]
pub struct ReadMark<'a> {
    pub inst: Mention<'a>,
    pub place: &'a [u8],
    pub items: Vec<ReadItem<'a>>,
}

/// How a run ended, by its line: `end dead`, `end steps`, `end memory`, `end fault action` or
/// `end fault instances`.
#[derive(Clone, Copy, Debug, PartialEq, Eq)]
pub enum Ending {
    Dead,
    Steps,
    Memory,
    ActionFault,
    InstancesFault,
}

/// A line of a record, without its line feed.
#[derive(Debug, Drop)]
pub enum Line<'a> {
    /// The first node of a firing, as `1 w1 main[1].t x=5`.
    Fires(Lead<'a>, ReadNode<'a>),

    /// A further node of a firing, as `1 w1 + worker[2].go k=0`.
    Calls(Lead<'a>, ReadNode<'a>),

    /// A value that a firing printed, as `1 w1 > "done"`.
    Prints(Lead<'a>, ReadToken<'a>),

    /// The end of the run.
    Ends(Ending),

    /// The first node of a firing that is undefined, as `! main[1].t x=5`.
    WouldFire(ReadNode<'a>),

    /// A further node of such a firing, as `! + worker[2].go k=0`.
    WouldCall(ReadNode<'a>),

    /// The tokens of a place.
    Holds(ReadMark<'a>),
}

/// The line that the bytes are, all of the bytes, without a line feed.
///
/// It is read by itself and by names alone: whether the line may stand there, and whether what it
/// names is there, is for the caller to find out.
pub fn read_line(alloc: Global, bytes: &[u8]) -> Result<Line<'_>, Unread>
    ensures found { IfOk result (λ l. IsLine (line l) bytes.now) }
    ensures only { (x : LineSaid) → IsLine x bytes.now → ReturnsRead line result (Some x) }
{
    line_at(alloc, bytes)
}

fn line_at(alloc: Global, bytes: &[u8]) -> Result<Line<'_>, Unread>
    ensures { ReturnsRead line result (line_at bytes.now) }
{
    let Some((first, rest)) = bytes.split_first() else {
        return Err(Unread::NotThere);
    };
    if *first == b'!' {
        return fault_at(alloc, byte_at(b' ', rest)?);
    }
    if is_digit(*first) {
        let (lead, rest) = lead_at(bytes)?;
        return firing_at(alloc, lead, rest);
    }
    match ending_at(bytes) {
        Some(ending) => Ok(Line::Ends(ending)),
        None => mark_at(alloc, bytes),
    }
}

/// The rest of a line of a firing.
fn firing_at<'a>(alloc: Global, begins: Lead<'a>, bytes: &'a [u8]) -> Result<Line<'a>, Unread>
    ensures { ReturnsRead line result (firing_at (lead begins.entry) bytes.now) }
{
    let Some((first, rest)) = bytes.split_first() else {
        return Err(Unread::NotThere);
    };
    if *first == b'+' {
        let rest = byte_at(b' ', rest)?;
        return Ok(Line::Calls(begins, node_at(alloc, rest)?));
    }
    if *first == b'>' {
        let rest = byte_at(b' ', rest)?;
        return Ok(Line::Prints(begins, last_at(alloc, rest)?));
    }
    Ok(Line::Fires(begins, node_at(alloc, bytes)?))
}

/// The rest of a line of a firing that is undefined.
fn fault_at(alloc: Global, bytes: &[u8]) -> Result<Line<'_>, Unread>
    ensures { ReturnsRead line result (fault_at bytes.now) }
{
    let Some((first, rest)) = bytes.split_first() else {
        return Err(Unread::NotThere);
    };
    if *first == b'+' {
        let rest = byte_at(b' ', rest)?;
        return Ok(Line::WouldCall(node_at(alloc, rest)?));
    }
    Ok(Line::WouldFire(node_at(alloc, bytes)?))
}

/// The number of a worker before a space, and the bytes after it.
fn worker_at(bytes: &[u8]) -> Result<(u32, &[u8]), Unread>
    ensures { ReturnsRead (λ x. (x.0, x.1.now)) result (worker_at bytes.now) }
{
    let (worker, rest) = numeral_at(GREATEST_WORKER, bytes)?;
    if worker == 0 {
        return Err(Unread::NotThere);
    }
    let rest = byte_at(b' ', rest)?;
    Ok((worker as u32, rest))
}

/// How a line of a firing begins, and the bytes after it.
fn lead_at(bytes: &[u8]) -> Result<(Lead<'_>, &[u8]), Unread>
    ensures { ReturnsRead (λ x. (lead x.0, x.1.now)) result (lead_at bytes.now) }
{
    let (step, rest) = step_at(bytes)?;
    let rest = byte_at(b' ', rest)?;
    let rest = byte_at(b'w', rest)?;
    let (worker, rest) = worker_at(rest)?;
    Ok((Lead { step, worker }, rest))
}

/// The value that the bytes are, all of them.
fn last_at(alloc: Global, bytes: &[u8]) -> Result<ReadToken<'_>, Unread>
    ensures { ReturnsRead token result (last_at bytes.now) }
{
    let read = seen_at(alloc, bytes)?;
    if !read.rest.is_empty() {
        return Err(Unread::NotThere);
    }
    Ok(ReadToken {
        value: read.value,
        mentions: read.mentions,
    })
}

/// The end of a run whose line the bytes are.
fn ending_at(bytes: &[u8]) -> Option<Ending>
    ensures { result ≡ ending_at bytes.now }
{
    if bytes == b"end dead".as_slice() {
        Some(Ending::Dead)
    } else if bytes == b"end steps".as_slice() {
        Some(Ending::Steps)
    } else if bytes == b"end memory".as_slice() {
        Some(Ending::Memory)
    } else if bytes == b"end fault action".as_slice() {
        Some(Ending::ActionFault)
    } else if bytes == b"end fault instances".as_slice() {
        Some(Ending::InstancesFault)
    } else {
        None
    }
}

/// The mark that the bytes are.
fn mark_at(alloc: Global, bytes: &[u8]) -> Result<Line<'_>, Unread>
    ensures { ReturnsRead line result (mark_at bytes.now) }
{
    let (inst, rest) = inst_at(bytes)?;
    let rest = byte_at(b'.', rest)?;
    let (place, rest) = name_at(rest)?;
    let items = items_at(alloc, rest)?;
    if items.is_empty() {
        return Err(Unread::NotThere);
    }
    Ok(Line::Holds(ReadMark { inst, place, items }))
}
