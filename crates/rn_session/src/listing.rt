//! What `list` writes.
ghost use Rattle.std.specs.Prelude.{◌≡◌, ◌++◌, All, IfOk, OnOk, codes};
ghost use Rattle.rn_value.specs.Text.{numeral};
ghost use Rattle.rn_record.specs.RecordText.{binding_text};
ghost use Rattle.rn_record.specs.Writable.{HasLines};
ghost use Rattle.rn_served.specs.Listed.{numbered, numbered_text};
ghost use Rattle.rn_served.specs.declared.requests.Request.TheVariants as Ask;
ghost use Rattle.rn_session.specs.link.Serving.{IsAnswered, names_at};

use crate::naming::first_of;
use crate::session::Session;
use rn_binding::Candidate;
use rn_items::NoMemory;
use rn_model::System;
use rn_record::put_binding;
use rn_value::{Names, write_numeral};
use std::alloc::Global;

// The number of a binding in the list, before each of its lines.
fn numbered(alloc: Global, number: u64) -> Result<Vec<u8>, NoMemory>
    ensures { IfOk result (λ lead. lead.items ≡ numbered number) }
{
    let mut lead = Vec::new(alloc);
    write_numeral(alloc, number, &mut lead)?;
    lead.extend_from_slice(b" ")?;
    Ok(lead)
}

// The lines of a binding. The names stay as they are.
fn put_numbered(
    alloc: Global,
    system: &System,
    binding: &Candidate,
    number: u64,
    names: &mut Names,
    out: &mut Vec<u8>,
) -> Result<(), NoMemory>
    requires { HasLines system.now names.now binding.now }
    ensures names { OnOk result (names.new ≡ names.old) }
    ensures text { OnOk result (out.new.items
        ≡ out.old.items ++ binding_text system.now names.old (numbered number) binding.now) }
{
    let count = names.len();
    let lead = numbered(alloc, number)?;
    put_binding(
        alloc,
        system,
        binding.binding(),
        names,
        lead.as_slice(),
        out,
    )?;
    if count < names.len() {
        *names = first_of(alloc, names, count as u32)?;
    }
    Ok(())
}

// The lines of bindings, numbered from 1.
fn put_all(
    alloc: Global,
    system: &System,
    found: &[Candidate],
    names: &mut Names,
    out: &mut Vec<u8>,
) -> Result<(), NoMemory>
    requires { All (HasLines system.now names.now) found.now }
    ensures names { OnOk result (names.new ≡ names.old) }
    ensures text { OnOk result (out.new.items
        ≡ out.old.items ++ numbered_text system.now names.old 1 found.now) }
{
    for k in 0..found.len() {
        put_numbered(alloc, system, &found[k], k as u64 + 1, names, out)?;
    }
    Ok(())
}

// The last line of a list: how many there are.
fn put_count(alloc: Global, count: usize, out: &mut Vec<u8>) -> Result<(), NoMemory>
    ensures { OnOk result (out.new.items
        ≡ out.old.items ++ (codes "ok " ++ numeral count ++ codes "\n")) }
{
    out.extend_from_slice(b"ok ")?;
    write_numeral(alloc, count as u64, out)?;
    out.extend_from_slice(b"\n")?;
    Ok(())
}

/// Answers `list`: the bindings that are enabled now, and how many they are.
pub(crate) fn put_list(
    alloc: Global,
    session: &Session,
    names: &mut Names,
    out: &mut Vec<u8>,
) -> Result<(), NoMemory>
    requires { names.old ≡ names_at session.now }
    ensures names { OnOk result (names.new ≡ names.old) }
    ensures text { OnOk result (IsAnswered session.now Ask.List out.old.items session.now
        out.new.items) }
{
    let found = session.list(alloc)?;
    put_all(
        alloc,
        session.state().system(),
        found.as_slice(),
        names,
        out,
    )?;
    put_count(alloc, found.len(), out)
}
