//! Rows, read line by line.
ghost use Rattle.std.specs.Prelude.{◌≡◌, ◌≤◌, ◌<◌, ◌∷◌, [], length, IfOk, IsSome, MatchOption, OnOk};
ghost use Rattle.renew_rows.specs.Lines.{headings, lines_of};
ghost use Rattle.renew_rows.specs.Rows.{heading_of};
ghost use Rattle.renew_rows.specs.Drafts.{TakesPiece};

use crate::lines::{Lines, word_and_rest};
use crate::pieces::{is_piece, piece_of, put_piece};
use crate::row::{Call, Row, Wanted};
use crate::saying::{
    Key, Unread, heading_of, key_of, most_of, numbers_of, says_nothing, status_of, words_of,
};
use std::alloc::Global;

/// The texts of a row.
#[derive(Clone, Copy, PartialEq, Eq)]
enum Part {
    In,
    Out,
    Err,
}

/// A row of which some lines are read: the first words of these, and the text whose pieces follow.
#[derive(Drop)]
struct Draft {
    call: Call,
    wanted: Wanted,
    seen: Vec<Key>,
    part: Option<Part>,
}

// Appends the piece that a line is to the text whose pieces follow.
fn take_piece(alloc: Global, draft: &mut Draft, line: &[u8]) -> Result<(), Unread>
    ensures { OnOk result (TakesPiece draft.old draft.new line.now) }
{
    let Some(piece) = piece_of(line) else {
        return Err(Unread::Line);
    };
    match draft.part {
        None => Err(Unread::Line),
        Some(Part::In) => put_piece(alloc, &piece, &mut draft.call.input),
        Some(Part::Out) => put_piece(alloc, &piece, &mut draft.wanted.out),
        Some(Part::Err) => put_piece(alloc, &piece, &mut draft.wanted.err),
    }
}

// Begins a text of the row, if nothing stands after its first word.
fn begin(draft: &mut Draft, part: Part, rest: Option<&[u8]>) -> Result<(), Unread> {
    match rest {
        None => {
            draft.part = Some(part);
            Ok(())
        }
        Some(_) => Err(Unread::Line),
    }
}

// Takes what stands after a first word that isn't of a text.
fn set(alloc: Global, draft: &mut Draft, key: Key, text: &[u8]) -> Result<(), Unread> {
    match key {
        Key::Words => draft.call.words = words_of(alloc, text)?,
        Key::ReadsFail => draft.call.reads_fail = numbers_of(alloc, text)?,
        Key::OutFails => draft.call.out_fails = numbers_of(alloc, text)?,
        Key::ErrFails => draft.call.err_fails = numbers_of(alloc, text)?,
        Key::Most => draft.call.most = most_of(text)?,
        Key::Status => draft.wanted.status = status_of(text)?,
        Key::In | Key::Out | Key::Err => return Err(Unread::Line),
    }
    Ok(())
}

// Takes a line by its first word.
fn take_said(
    alloc: Global,
    draft: &mut Draft,
    key: Key,
    rest: Option<&[u8]>,
) -> Result<(), Unread> {
    match key {
        Key::In => begin(draft, Part::In, rest),
        Key::Out => begin(draft, Part::Out, rest),
        Key::Err => begin(draft, Part::Err, rest),
        _ => {
            draft.part = None;
            match rest {
                Some(text) => set(alloc, draft, key, text),
                None => Err(Unread::Line),
            }
        }
    }
}

// Takes a line of a row.
fn take_line(alloc: Global, draft: &mut Draft, line: &[u8]) -> Result<(), Unread> {
    if says_nothing(line) {
        return Ok(());
    }
    if is_piece(line) {
        return take_piece(alloc, draft, line);
    }
    let (word, rest) = word_and_rest(line);
    let Some(key) = key_of(word) else {
        return Err(Unread::Line);
    };
    if draft.seen.contains(&key) {
        return Err(Unread::Line);
    }
    draft.seen.push(key)?;
    take_said(alloc, draft, key, rest)
}

// Takes the lines that say nothing.
fn skip(lines: &mut Lines<'_>)
    ensures headings { headings (lines_of lines.new.rest.now)
        ≡ headings (lines_of lines.old.rest.now) }
    ensures never_longer { length lines.new.rest.now ≤ length lines.old.rest.now }
{
    while let Some((line, others)) = lines.first() {
        if !says_nothing(line) {
            return;
        }
        *lines = others;
    }
}

// Takes the lines of a row after its first.
fn take_lines(alloc: Global, draft: &mut Draft, lines: &mut Lines<'_>) -> Result<(), Unread>
    ensures headings { headings (lines_of lines.new.rest.now)
        ≡ headings (lines_of lines.old.rest.now) }
    ensures never_longer { length lines.new.rest.now ≤ length lines.old.rest.now }
{
    while let Some((line, others)) = lines.first() {
        if heading_of(line).is_some() {
            return Ok(());
        }
        *lines = others;
        take_line(alloc, draft, line)?;
    }
    Ok(())
}

// The lines of a row after its first, which has its name.
fn read_named(
    alloc: Global,
    name: &[u8],
    must_differ: bool,
    lines: &mut Lines<'_>,
) -> Result<Row, Unread>
    ensures row { IfOk result (λ row. heading_of row ≡ (name.now, must_differ)) }
    ensures headings { headings (lines_of lines.new.rest.now)
        ≡ headings (lines_of lines.old.rest.now) }
    ensures never_longer { length lines.new.rest.now ≤ length lines.old.rest.now }
{
    let name = Vec::from_slice(alloc, name)?;
    let mut draft = Draft {
        call: Call::plain(alloc),
        wanted: Wanted::nothing(alloc),
        seen: Vec::new(alloc),
        part: None,
    };
    take_lines(alloc, &mut draft, lines)?;
    Ok(Row {
        name,
        must_differ,
        call: draft.call,
        wanted: draft.wanted,
    })
}

/// The next row, which is taken; none at the end. Where a line can't be read it is the last that
/// is taken.
pub(crate) fn read_row(alloc: Global, lines: &mut Lines<'_>) -> Result<Option<Row>, Unread>
    // It is the row of the first line that begins one. At the end no line does.
    ensures next { IfOk result (λ read.
        MatchOption read (headings (lines_of lines.old.rest.now) ≡ [])
        (λ row. headings (lines_of lines.old.rest.now)
        ≡ heading_of row ∷ headings (lines_of lines.new.rest.now))) }
    ensures shorter { IfOk result (λ read. IsSome read →
        length lines.new.rest.now < length lines.old.rest.now) }
{
    skip(lines);
    let Some((line, others)) = lines.first() else {
        return Ok(None);
    };
    *lines = others;
    match heading_of(line) {
        Some((name, must_differ)) => Ok(Some(read_named(alloc, name, must_differ, lines)?)),
        None => Err(Unread::Line),
    }
}
