//! The weighted net that a text says, where it breaks no rule.
ghost use Rattle.std.specs.Prelude.{◌≡◌, ◌^◌, ◌<◌, ℕ, List, [], All, IfOk, map};
ghost use Rattle.rn_pt.specs.Meaning.{amount, number_or_first, warc_of, wplace_of};
ghost use Rattle.rn_pt.specs.Meaning.{wtransition_of, weighted_of};
ghost use Rattle.rn_pt.specs.Rules.{net_broken, place_broken, place_names};
ghost use Rattle.rn_pt.specs.link.Tables.{found_in, FindsAmong};

use crate::plain::{PtArc, PtNet, PtPlace, PtTransition};
use crate::table::NameTable;
use rn_items::Items;
use rn_reading::Numeral;
use rn_value::{NoMemory, Str, copy_text};
use rn_weighted::{WArc, WPlace, WTransition, Weighted};
use std::alloc::Global;

/// A number that the text gives, or this one where it gives none.
fn amount(absent: u32, number: &Option<Numeral>) -> u32
    requires fits { amount absent number.now < 2 ^ 32 }
    ensures { result ≡ amount absent number.now }
{
    match number {
        Some(number) => number.value.unsigned_abs() as u32,
        None => absent,
    }
}

/// The number of a declared name.
fn number_of(table: &NameTable, name: &Str) -> u32
    requires fits { number_or_first (found_in table.now name.now) < 2 ^ 32 }
    ensures { result ≡ number_or_first (found_in table.now name.now) }
{
    match table.number(name) {
        Some(number) => number as u32,
        None => 0,
    }
}

fn place_of(alloc: Global, place: &PtPlace) -> Result<WPlace, NoMemory>
    requires unbroken { place_broken place.now ≡ [] }
    ensures { IfOk result (λ made. made ≡ wplace_of place.now) }
{
    Ok(WPlace {
        name: copy_text(alloc, &place.name.text)?,
        initial: amount(0, &place.initial),
    })
}

fn places_of(alloc: Global, places: &[PtPlace]) -> Result<Vec<WPlace>, NoMemory>
    requires unbroken { All (λ place. place_broken place ≡ []) places.now }
    ensures { IfOk result (λ made. made.items ≡ map wplace_of places.now) }
{
    let mut made = Vec::with_capacity(alloc, places.len())?;
    for place in places {
        made.push(place_of(alloc, place)?)?;
    }
    Ok(made)
}

/// The arc, by the numbers of the names of places.
fn arc_of(table: &NameTable, arc: &PtArc) -> WArc
    requires few { (name : List ℕ) → number_or_first (found_in table.now name) < 2 ^ 32 }
    requires fits { amount 1 arc.now.weight < 2 ^ 32 }
    ensures { (names : List (List ℕ)) → FindsAmong names table.now →
        result ≡ warc_of names arc.now }
{
    WArc {
        kind: arc.word.kind,
        place: number_of(table, &arc.place.text),
        weight: amount(1, &arc.weight),
    }
}

fn transition_of(
    alloc: Global,
    table: &NameTable,
    transition: &PtTransition,
) -> Result<WTransition, NoMemory>
    requires few { (name : List ℕ) → number_or_first (found_in table.now name) < 2 ^ 32 }
    requires fits { All (λ arc. amount 1 arc.weight < 2 ^ 32) transition.now.arcs }
    ensures { IfOk result (λ made. (names : List (List ℕ)) → FindsAmong names table.now →
        made ≡ wtransition_of names transition.now) }
{
    let name = copy_text(alloc, &transition.name.text)?;
    let mut arcs = Vec::with_capacity(alloc, transition.arcs.len())?;
    for arc in transition.arcs.as_slice() {
        arcs.push(arc_of(table, arc))?;
    }
    Ok(WTransition {
        name,
        arcs: Items::from_vec(arcs),
    })
}

fn transitions_of(
    alloc: Global,
    table: &NameTable,
    transitions: &[PtTransition],
) -> Result<Vec<WTransition>, NoMemory>
    requires few { (name : List ℕ) → number_or_first (found_in table.now name) < 2 ^ 32 }
    requires fits { All (λ t. All (λ arc. amount 1 arc.weight < 2 ^ 32) t.arcs) transitions.now }
    ensures { IfOk result (λ made. (names : List (List ℕ)) → FindsAmong names table.now →
        made.items ≡ map (wtransition_of names) transitions.now) }
{
    let mut made = Vec::with_capacity(alloc, transitions.len())?;
    for transition in transitions {
        made.push(transition_of(alloc, table, transition)?)?;
    }
    Ok(made)
}

/// The net with numbers in place of names, from the table of its places.
pub(crate) fn weighted_of(
    alloc: Global,
    table: &NameTable,
    net: &PtNet,
) -> Result<Weighted, NoMemory>
    requires unbroken { net_broken net.now ≡ [] }
    requires found { FindsAmong (place_names net.now) table.now }
    ensures { IfOk result (λ weighted. weighted ≡ weighted_of net.now) }
{
    let places = places_of(alloc, net.places.as_slice())?;
    let transitions = transitions_of(alloc, table, net.transitions.as_slice())?;
    Ok(Weighted {
        places: Items::from_vec(places),
        transitions: Items::from_vec(transitions),
    })
}
