//! Transitions: what is broken in their inscriptions is reported.
ghost use Rattle.std.specs.Prelude.{◌≡◌, ◌<◌, ◌≤◌, ℕ, List, OnOk, IfOk, length, false};
ghost use Rattle.rn_declared.specs.Faults.{first_from};
ghost use Rattle.rn_declared.specs.Names.{number_among};
ghost use Rattle.rn_rules.specs.Actions.{set_name, set_names};
ghost use Rattle.rn_declared.specs.link.Tables.{found_in};
ghost use Rattle.rn_rules.specs.link.Scopes.{scope_in};
ghost use Rattle.rn_rules.specs.Transitions.{is_uplink, inscriptions_faults, transition_faults};

use crate::inscriptions::see_inscription;
use crate::scope::{KnownNames, Stand};
use rn_declared::{First, NameTable, Numbers, tell_past};
use rn_inscript::{PInscribed, PInscription};
use rn_model::limits::MOST_INSCRIPTIONS;
use rn_net::PTransition;
use rn_value::NoMemory;
use std::alloc::Global;

/// The numbers of the actions that set variables, by the variables, and how many there are.
#[derive(Drop)]
struct Setters {
    table: NameTable,
    count: usize,
}

/// How many variables an inscription sets.
fn sets(form: &PInscribed) -> usize
    ensures count { result ≡ length (set_name form.now) }
    ensures one { result ≤ 1 }
{
    match form {
        PInscribed::Set { .. } => 1,
        _ => 0,
    }
}

/// Whether an inscription is an uplink.
fn is_uplink(form: &PInscribed) -> bool
    ensures { result ≡ is_uplink form.now }
{
    matches!(form, PInscribed::Uplink { .. })
}

/// The actions that set variables.
fn setters_of(alloc: Global, inscriptions: &[PInscription]) -> Result<Setters, NoMemory>
    ensures found { IfOk result (λ setters. (name : List ℕ) →
        found_in setters.table name ≡ number_among (set_names inscriptions.now) name) }
    ensures count { IfOk result (λ setters. setters.count ≡ length (set_names inscriptions.now)) }
{
    let mut table = NameTable::new(alloc);
    let mut count = 0;
    for inscription in inscriptions {
        if let PInscribed::Set { var, .. } = &inscription.form {
            table.declare(alloc, &var.text, count)?;
            count += 1;
        }
    }
    Ok(Setters { table, count })
}

/// Reports what is broken in inscriptions, of which these actions set variables.
fn see_inscriptions<N: Numbers>(
    alloc: Global,
    inscriptions: &[PInscription],
    known: &KnownNames<N>,
    setters: &Setters,
    first: &mut First,
) -> Result<(), NoMemory>
    ensures { OnOk result (first.new.fault ≡ first_from first.old.fault
        (inscriptions_faults (scope_in known.now) (record {
          setter = found_in setters.now.table;
          past = 0;
          sets = setters.now.count;
          called = false;
        }) inscriptions.now)) }
{
    let mut past = 0;
    let mut called = false;
    for inscription in inscriptions {
        let stand = Stand {
            setters: &setters.table,
            past,
            sets: setters.count,
            called,
        };
        see_inscription(alloc, inscription, known, &stand, first)?;
        past += sets(&inscription.form);
        called |= is_uplink(&inscription.form);
    }
    Ok(())
}

/// Reports what is broken in the inscriptions of a transition.
pub(crate) fn see_transition<N: Numbers>(
    alloc: Global,
    transition: &PTransition,
    known: &KnownNames<N>,
    first: &mut First,
) -> Result<(), NoMemory>
    ensures { OnOk result (first.new.fault ≡ first_from first.old.fault
        (transition_faults (scope_in known.now) transition.now)) }
{
    let inscriptions = transition.inscriptions.as_slice();
    let setters = setters_of(alloc, inscriptions)?;
    see_inscriptions(alloc, inscriptions, known, &setters, first)?;
    tell_past(inscriptions, MOST_INSCRIPTIONS, first);
    Ok(())
}
