//! The command `enabled`: the bindings that are enabled at the start.
ghost use Rattle.std.specs.Prelude.{◌≡◌, ◌≤◌, ◌⊎◌, IfOk, All};
ghost use Rattle.rn_model.specs.Good.{Good};
ghost use Rattle.rn_model.specs.Limits.{greatest_depth};
ghost use Rattle.rn_commands.specs.NetCommands.{EnabledTo};
ghost use Rattle.rn_answering.specs.NetTexts.{RefusesNet};
ghost use Rattle.rn_answering.specs.Refusing.{Concludes};
ghost use Rattle.rn_commands.specs.Bindings.{AreEnabledFirst, bindings_text, numbered_lead};
ghost use Rattle.rn_commands.specs.link.Bindings.{HasFirstLines};

use rn_answering::{Answer, Stopped, done, system_of};
use rn_binding::Candidate;
use rn_channel::Uplinks;
use rn_finder::all_bindings;
use rn_items::NoMemory;
use rn_model::System;
use rn_record::write_first;
use rn_table::Table;
use std::alloc::Global;

// All bindings that are enabled at the start, in order.
fn enabled_first(alloc: Global, system: &System, depth: u32) -> Result<Vec<Candidate>, NoMemory>
    requires good { Good system.now }
    requires depth { depth ≤ greatest_depth }
    ensures { IfOk result (λ found. AreEnabledFirst system.now depth found.items) }
{
    let uplinks = Uplinks::new(alloc, system)?;
    let table = Table::new(alloc, system)?;
    all_bindings(alloc, system, &uplinks, &table, depth)
}

// The number of a binding in the list, before each of its lines.
fn numbered_lead(alloc: Global, number: u64) -> Result<Vec<u8>, NoMemory>
    ensures { IfOk result (λ lead. lead.items ≡ numbered_lead number) }
{
    let text = number.to_string(alloc)?;
    let mut lead = Vec::from_slice(alloc, text.as_bytes())?;
    lead.push(b' ')?;
    Ok(lead)
}

// The lines of bindings, each binding with its number from 1.
fn bindings_text(alloc: Global, system: &System, found: &[Candidate]) -> Result<Vec<u8>, NoMemory>
    requires { All (HasFirstLines system.now) found.now }
    ensures { IfOk result (λ text. text.items ≡ bindings_text system.now 1 found.now) }
{
    let mut text = Vec::new(alloc);
    for (k, candidate) in found.iter().enumerate() {
        let lead = numbered_lead(alloc, k as u64 + 1)?;
        write_first(
            alloc,
            system,
            candidate.binding(),
            lead.as_slice(),
            &mut text,
        )?;
    }
    Ok(text)
}

/// What `enabled` comes to on this net text, within this depth.
pub fn enabled(alloc: Global, depth: u32, bytes: &[u8]) -> Result<Answer, Stopped>
    requires { depth ≤ greatest_depth }
    ensures { Concludes (λ a. RefusesNet bytes.now a ⊎ EnabledTo depth bytes.now a) result }
{
    let system = system_of(alloc, bytes)?;
    let found = enabled_first(alloc, &system, depth)?;
    let text = bindings_text(alloc, &system, found.as_slice())?;
    Ok(done(alloc, text))
}
