//! The lines of moves.
ghost use Rattle.std.specs.Prelude.{◌≡◌, ◌++◌, OnOk, flat_map, codes, length};
ghost use Rattle.rn_value.specs.Names.{AreNamed};
ghost use Rattle.rn_value.specs.Text.{value_text};
ghost use Rattle.rn_moves.specs.link.Movable.{AreWithin};
ghost use Rattle.rn_moves.specs.MovesText.{moves_lines, token_line};

use crate::lead::lead_at;
use crate::token::{Moves, Token};
use crate::writer::Writer;
use rn_items::NoMemory;
use rn_value::{Names, Value, write_int, write_value};
use std::alloc::Global;

/// Appends the text of a value. A whole number takes no text of its own on the way.
fn put_value(alloc: Global, names: &Names, value: &Value, out: &mut Vec<u8>) -> Result<(), NoMemory>
    requires { AreNamed names.now value.now }
    ensures { OnOk result (out.new.items ≡ out.old.items ++ value_text value.now names.now) }
{
    match value {
        Value::Int(n) => write_int(alloc, *n, out),
        _ => write_value(alloc, value, names, out),
    }
}

/// Appends a line with this beginning.
fn put_line(
    alloc: Global,
    names: &Names,
    lead: &[u8],
    value: &Value,
    out: &mut Vec<u8>,
) -> Result<(), NoMemory>
    requires { AreNamed names.now value.now }
    ensures { OnOk result (out.new.items
        ≡ out.old.items ++ (lead.now ++ (value_text value.now names.now ++ codes "\n"))) }
{
    out.extend_from_slice(lead)?;
    put_value(alloc, names, value, out)?;
    out.extend_from_slice(b"\n")?;
    Ok(())
}

fn put_tokens(
    alloc: Global,
    by: Writer<'_>,
    step: u64,
    sign: &[u8],
    tokens: &[Token],
    out: &mut Vec<u8>,
) -> Result<(), NoMemory>
    requires { AreWithin (length by.names.now) tokens.now }
    ensures { OnOk result (out.new.items ≡ out.old.items
        ++ flat_map (token_line by.entry.system.now by.entry.nets.now by.entry.names.now step
        sign.now) tokens.now) }
{
    let mut lead = None;
    for token in tokens {
        let here = lead_at(alloc, by, step, sign, token, lead)?;
        put_line(alloc, by.names, here.text.as_slice(), &token.value, out)?;
        lead = Some(here);
    }
    Ok(())
}

/// Appends the lines of the firing with this number: of what leaves, and then of what comes.
pub(crate) fn put_moves(
    alloc: Global,
    by: Writer<'_>,
    step: u64,
    moves: &Moves,
    out: &mut Vec<u8>,
) -> Result<(), NoMemory>
    requires taken { AreWithin (length by.names.now) moves.now.taken }
    requires put { AreWithin (length by.names.now) moves.now.put }
    ensures { OnOk result (out.new.items ≡ out.old.items
        ++ moves_lines by.entry.system.now by.entry.nets.now by.entry.names.now step moves.now) }
{
    let taken = moves.taken.as_slice();
    let put = moves.put.as_slice();
    put_tokens(alloc, by, step, b" - ", taken, out)?;
    put_tokens(alloc, by, step, b" + ", put, out)
}
