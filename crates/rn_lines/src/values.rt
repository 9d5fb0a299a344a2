//! Values, as records have them.
ghost use Rattle.std.specs.Prelude.{◌≡◌, ◌-◌, ◌<◌, [], map, IfOk, Some};
ghost use Rattle.rn_lines.specs.Reading.{ReturnsRead, with_front, after, tail_at, rows_at, value_at};
ghost use Rattle.rn_lines.specs.Reading.{front_at, is_delimited, seen_at};
ghost use Rattle.rn_lines.specs.link.Said.{said, seen};
ghost use Rattle.rn_lines.specs.ValueText.{Seen, Begins, most_brackets};

use crate::instances::{Mention, byte_at, bytes_after, inst_at};
use crate::numerals::whole_at;
use crate::quoted::text_at;
use crate::unread::Unread;
use rn_items::Items;
use rn_shared::Shared;
use rn_value::{InstRef, Vals, Value, is_letter};
use std::alloc::Global;

/// How many brackets of tuples and lists may be open at once.
pub const MOST_BRACKETS: u8 = 128;

/// A value that was read, the instances that its text names, in order, and the bytes after it.
#[derive(Debug, Drop)]
pub struct ReadValue<'a> {
    pub value: Value,
    pub mentions: Vec<Mention<'a>>,
    pub rest: &'a [u8],
}

/// The value whose text bytes begin with, where the end or a delimiter follows: a space, a newline,
/// a comma, `]` or `}`.
///
/// A value has one text, as in `[-5,"a",{},worker[2]]`: without spaces, a number without leading
/// zeros, a text with `\"`, `\\`, `\n` and `\t` for the quote, the backslash, the newline and the
/// tab. At most 128 brackets of tuples and lists may be open at once. An instance is read by its
/// number, and what its text calls it is returned as a mention: whether there is such an instance
/// of that net is for the caller to find out.
pub fn read_value(alloc: Global, bytes: &[u8]) -> Result<ReadValue<'_>, Unread>
    ensures found { IfOk result (λ r. Begins most_brackets bytes.now (seen r)) }
    ensures only { (x : Seen) → Begins most_brackets bytes.now x → ReturnsRead seen result (Some x) }
{
    seen_at(alloc, bytes)
}

/// The value that bytes begin with, before a delimiter or the end.
pub(crate) fn seen_at(alloc: Global, bytes: &[u8]) -> Result<ReadValue<'_>, Unread>
    ensures { ReturnsRead seen result (seen_at bytes.now) }
{
    let mut mentions = Vec::new(alloc);
    let (value, rest) = value_at(alloc, MOST_BRACKETS, bytes, &mut mentions)?;
    if !is_delimited(rest) {
        return Err(Unread::NotThere);
    }
    Ok(ReadValue {
        value,
        mentions,
        rest,
    })
}

/// The value that bytes begin with, whatever follows it.
pub(crate) fn front_at(alloc: Global, bytes: &[u8]) -> Result<ReadValue<'_>, Unread>
    ensures { ReturnsRead seen result (front_at bytes.now) }
{
    let mut mentions = Vec::new(alloc);
    let (value, rest) = value_at(alloc, MOST_BRACKETS, bytes, &mut mentions)?;
    Ok(ReadValue {
        value,
        mentions,
        rest,
    })
}

/// Whether there are no bytes, or a space, a newline, a comma, `]` or `}` stands first.
fn is_delimited(bytes: &[u8]) -> bool
    ensures { result ≡ is_delimited bytes.now }
{
    match bytes.split_first() {
        None => true,
        Some((first, _)) => matches!(*first, b' ' | b'\n' | b',' | b']' | b'}'),
    }
}

/// The value that bytes begin with, and the bytes after it. This many brackets may open in it.
#[cycle(values)]
fn value_at<'a>(
    alloc: Global,
    depth: u8,
    bytes: &'a [u8],
    mentions: &mut Vec<Mention<'a>>,
) -> Result<(Value, &'a [u8]), Unread>
    ensures { ReturnsRead (λ x. (x.0, map said mentions.new.items, x.1.now)) result
        (after (map said mentions.old.items) (value_at depth bytes.now)) }
{
    let Some((first, rest)) = bytes.split_first() else {
        return Err(Unread::NotThere);
    };
    if *first == b'[' {
        let (values, rest) = row_at(alloc, depth, b']', rest, mentions)?;
        return Ok((Value::Tuple(Shared::new(alloc, values)?), rest));
    }
    if *first == b'{' {
        let (values, rest) = row_at(alloc, depth, b'}', rest, mentions)?;
        return Ok((Value::List(Shared::new(alloc, values)?), rest));
    }
    if *first == b'"' {
        let (text, rest) = text_at(alloc, rest)?;
        return Ok((Value::Text(Shared::new(alloc, text)?), rest));
    }
    if is_letter(*first) {
        let (mention, rest) = inst_at(bytes)?;
        mentions.push(mention)?;
        return Ok((Value::Inst(InstRef::Old(mention.number)), rest));
    }
    let (number, rest) = whole_at(bytes)?;
    Ok((Value::Int(number), rest))
}

/// The values up to a closing bracket, and the bytes after it. This many brackets may open, the
/// one before the values among them.
#[cycle(values)]
fn row_at<'a>(
    alloc: Global,
    depth: u8,
    close: u8,
    bytes: &'a [u8],
    mentions: &mut Vec<Mention<'a>>,
) -> Result<(Vals, &'a [u8]), Unread>
    ensures { ReturnsRead (λ x. (x.0, map said mentions.new.items, x.1.now)) result
        (with_front [] (map said mentions.old.items) (rows_at depth close bytes.now)) }
{
    if depth == 0 {
        return Err(Unread::NotThere);
    }
    if let Some(rest) = bytes_after(close, bytes) {
        return Ok((Items::new(alloc), rest));
    }
    let (first, rest) = value_at(alloc, depth - 1, bytes, mentions)?;
    let mut values = Vec::new(alloc);
    values.push(first)?;
    let rest = others_at(
        alloc,
        depth - 1,
        close,
        bytes.len(),
        rest,
        &mut values,
        mentions,
    )?;
    Ok((Items::from_vec(values), rest))
}

/// Adds the values that follow another up to a closing bracket, each behind a comma, and gives the
/// bytes after it.
#[cycle(values)]
fn others_at<'a>(
    alloc: Global,
    depth: u8,
    close: u8,
    most: usize,
    bytes: &'a [u8],
    values: &mut Vec<Value>,
    mentions: &mut Vec<Mention<'a>>,
) -> Result<&'a [u8], Unread>
    ensures { ReturnsRead (λ x. (values.new.items, map said mentions.new.items, x.now)) result
        (with_front values.old.items (map said mentions.old.items)
        (tail_at (value_at depth) close most bytes.now)) }
{
    let mut rest = bytes;
    for _ in 0..most {
        let Some((first, others)) = rest.split_first() else {
            return Err(Unread::NotThere);
        };
        if *first != b',' {
            return byte_at(close, rest);
        }
        let (value, more) = value_at(alloc, depth, others, mentions)?;
        values.push(value)?;
        rest = more;
    }
    Err(Unread::NotThere)
}
