//! The lines that are printed.
ghost use Rattle.std.specs.Prelude.{◌≤◌, length};

use crate::calling::Found;
use crate::judging::{Judged, agrees};
use crate::row::Wanted;
use crate::tally::RowTally;
use rn_items::NoMemory;
use rn_value::write_numeral;
use std::alloc::Global;

/// How many bytes of a text are printed at most.
const TOLD: usize = 60;

// A hexadecimal digit.
fn digit(number: u8) -> u8 {
    if number < 10 {
        b'0' + number
    } else {
        b'a' + (number - 10) % 16
    }
}

// Appends a byte as rows spell it, and a quote too by its escape.
fn put_byte(line: &mut Vec<u8>, byte: u8) -> Result<(), NoMemory> {
    if byte < b' ' || b'~' < byte || byte == b'\\' || byte == b'"' {
        line.push(b'\\')?;
        line.push(digit(byte / 16))?;
        line.push(digit(byte % 16))?;
    } else {
        line.push(byte)?;
    }
    Ok(())
}

// Appends the first bytes of a text in quotes, and dots where it goes on.
fn put_quoted(line: &mut Vec<u8>, text: &[u8]) -> Result<(), NoMemory> {
    let told = text.len().min(TOLD);
    line.push(b'"')?;
    for byte in &text[..told] {
        put_byte(line, *byte)?;
    }
    line.push(b'"')?;
    if told < text.len() {
        line.extend_from_slice(b"..")?;
    }
    Ok(())
}

// Appends parts, one after another.
fn put_parts(line: &mut Vec<u8>, parts: &[&[u8]]) -> Result<(), NoMemory> {
    for part in parts {
        line.extend_from_slice(part)?;
    }
    Ok(())
}

// How many bytes two texts have in common at their start.
fn common_length(a: &[u8], b: &[u8]) -> usize
    ensures first { result ≤ length a.now }
    ensures second { result ≤ length b.now }
{
    let most = a.len().min(b.len());
    for i in 0..most {
        if a[i] != b[i] {
            return i;
        }
    }
    most
}

// Appends the bytes of an output that are found and those that are wanted.
fn put_both(line: &mut Vec<u8>, found: &[u8], wanted: &[u8]) -> Result<(), NoMemory> {
    put_parts(line, &[b": found ".as_slice()])?;
    put_quoted(line, found)?;
    put_parts(line, &[b", wanted ".as_slice()])?;
    put_quoted(line, wanted)
}

// Appends where an output differs, if it does.
fn put_text(
    alloc: Global,
    line: &mut Vec<u8>,
    name: &[u8],
    found: &[u8],
    wanted: &[u8],
) -> Result<(), NoMemory> {
    if found == wanted {
        return Ok(());
    }
    let common = common_length(found, wanted);
    put_parts(
        line,
        &[b" ".as_slice(), name, b" differs after byte ".as_slice()],
    )?;
    write_numeral(alloc, common as u64, line)?;
    put_both(line, &found[common..], &wanted[common..])?;
    put_parts(line, &[b";".as_slice()])
}

// Appends the two statuses, if they differ.
fn put_status(alloc: Global, line: &mut Vec<u8>, found: u8, wanted: u8) -> Result<(), NoMemory> {
    if found == wanted {
        return Ok(());
    }
    put_parts(line, &[b" status ".as_slice()])?;
    write_numeral(alloc, found as u64, line)?;
    put_parts(line, &[b", not ".as_slice()])?;
    write_numeral(alloc, wanted as u64, line)?;
    put_parts(line, &[b";".as_slice()])
}

// Appends what differs.
fn put_difference(
    alloc: Global,
    line: &mut Vec<u8>,
    found: &Found,
    wanted: &Wanted,
) -> Result<(), NoMemory> {
    put_status(alloc, line, found.status, wanted.status)?;
    put_text(alloc, line, b"out", found.out.held(), wanted.out.as_slice())?;
    put_text(alloc, line, b"err", found.err.held(), wanted.err.as_slice())
}

/// The line of a row that isn't as it must be.
pub(crate) fn line_of(alloc: Global, judged: &Judged) -> Result<Vec<u8>, NoMemory> {
    let mut line = Vec::from_slice(alloc, judged.name.as_slice())?;
    line.push(b':')?;
    if agrees(&judged.found, &judged.wanted) {
        put_parts(&mut line, &[b" agrees, and must differ".as_slice()])?;
    } else {
        put_difference(alloc, &mut line, &judged.found, &judged.wanted)?;
    }
    line.push(b'\n')?;
    Ok(line)
}

/// The last line.
pub(crate) fn last_line(alloc: Global, tally: &RowTally) -> Result<Vec<u8>, NoMemory> {
    let mut line = Vec::new(alloc);
    write_numeral(alloc, tally.rows, &mut line)?;
    line.extend_from_slice(b" rows, ")?;
    write_numeral(alloc, tally.differ, &mut line)?;
    line.extend_from_slice(b" differ\n")?;
    Ok(line)
}

/// The line of a line that can't be read.
pub(crate) fn unread_line(alloc: Global, number: usize) -> Result<Vec<u8>, NoMemory> {
    let mut line = Vec::from_slice(alloc, b"line ")?;
    write_numeral(alloc, number as u64, &mut line)?;
    line.extend_from_slice(b": can't be read\n")?;
    Ok(line)
}
