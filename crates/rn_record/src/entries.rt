//! The lines of the entries of a run, in vectors.
ghost use Rattle.std.specs.Prelude.{◌≡◌, ◌≤◌, ◌++◌, length, take, OnOk, OnErr};
ghost use Rattle.rn_record.specs.RecordText.{names_after, binding_text, entry_text, entries_text};
ghost use Rattle.rn_record.specs.RecordText.{names_past, names_at_end};
ghost use Rattle.rn_record.specs.Writable.{HasLines, HasEntry, HaveEntries};
ghost use Rattle.rn_record.specs.Named.{names_with};

use crate::entry_text::EntryText;
use crate::lines::BindingText;
use crate::naming::{copy_names, push_made};
use rn_model::{Binding, Entry, Reason, System};
use rn_value::{Names, NoMemory};
use rn_window::{Plain, fill};
use std::alloc::Global;

/// Appends the lines of a binding's nodes, each after `lead`, where the instances so far have these
/// names. The instances that it makes get the next numbers and their names.
pub fn put_binding(
    alloc: Global,
    system: &System,
    binding: &Binding,
    names: &mut Names,
    lead: &[u8],
    out: &mut Vec<u8>,
) -> Result<(), NoMemory>
    requires { HasLines system.now names.now binding.now }
    ensures names { OnOk result (names.new ≡ names_after system.now names.old binding.now) }
    ensures text { OnOk result (out.new.items
        ≡ out.old.items ++ binding_text system.now names.old lead.now binding.now) }
    ensures err { OnErr result (out.new.items ≡ out.old.items) }
{
    let before = names.len();
    push_made(alloc, system, binding, names)?;
    let lead = Plain { bytes: lead };
    let text = BindingText {
        system,
        binding,
        names: &*names,
        before,
        lead: &lead,
    };
    fill(alloc, &text, out)
}

/// Appends the lines of an entry, by all names with those that its binding makes, or would make.
fn put_named(
    alloc: Global,
    system: &System,
    step: u64,
    entry: &Entry,
    names: &Names,
    before: usize,
    out: &mut Vec<u8>,
) -> Result<(), NoMemory>
    requires within { before ≤ length names.now }
    requires named { names.now ≡ names_with system.now (take before names.now) entry.now }
    requires fits { HasEntry system.now (take before names.now) entry.now }
    ensures { OnOk result (out.new.items
        ≡ out.old.items ++ entry_text system.now (take before names.now) step entry.now) }
{
    let text = EntryText {
        system,
        step,
        entry,
        names,
        before,
    };
    fill(alloc, &text, out)
}

/// Appends the lines of an end by a fault, with the names that its binding would make.
fn put_fault(
    alloc: Global,
    system: &System,
    step: u64,
    entry: &Entry,
    binding: &Binding,
    names: &Names,
    out: &mut Vec<u8>,
) -> Result<(), NoMemory>
    requires lines { HasLines system.now names.now binding.now }
    requires fits { HasEntry system.now names.now entry.now }
    requires made { names_with system.now names.now entry.now
        ≡ names_after system.now names.now binding.now }
    ensures { OnOk result (out.new.items
        ≡ out.old.items ++ entry_text system.now names.now step entry.now) }
{
    let before = names.len();
    let mut names = copy_names(alloc, names)?;
    push_made(alloc, system, binding, &mut names)?;
    put_named(alloc, system, step, entry, &names, before, out)
}

/// Appends the lines of the entry with this number, where the instances so far have these names. The
/// instances that it makes get their names.
pub fn put_entry(
    alloc: Global,
    system: &System,
    step: u64,
    entry: &Entry,
    names: &mut Names,
    out: &mut Vec<u8>,
) -> Result<(), NoMemory>
    requires { HasEntry system.now names.now entry.now }
    ensures names { OnOk result (names.new ≡ names_past system.now names.old entry.now) }
    ensures text { OnOk result (out.new.items
        ≡ out.old.items ++ entry_text system.now names.old step entry.now) }
{
    let before = names.len();
    match entry {
        Entry::Fire {
            worker: _,
            binding,
            outs: _,
        } => {
            push_made(alloc, system, binding, names)?;
            put_named(alloc, system, step, entry, &*names, before, out)
        }
        Entry::End(Reason::Fault(_, binding)) => {
            put_fault(alloc, system, step, entry, binding, &*names, out)
        }
        Entry::End(_) => put_named(alloc, system, step, entry, &*names, before, out),
    }
}

/// Appends the lines of entries, numbered from 1. The instances that they make get their names.
pub(crate) fn put_entries(
    alloc: Global,
    system: &System,
    entries: &[Entry],
    names: &mut Names,
    out: &mut Vec<u8>,
) -> Result<(), NoMemory>
    requires { HaveEntries system.now names.now entries.now }
    ensures names { OnOk result (names.new ≡ names_at_end system.now names.old entries.now) }
    ensures text { OnOk result (out.new.items
        ≡ out.old.items ++ entries_text system.now names.old 1 entries.now) }
{
    for i in 0..entries.len() {
        put_entry(alloc, system, i as u64 + 1, &entries[i], names, out)?;
    }
    Ok(())
}
