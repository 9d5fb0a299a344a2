//! What is broken in a net.
ghost use Rattle.std.specs.Prelude.{◌≡◌, ℕ, List, None, IfOk, map, flat_map};
ghost use Rattle.rn_pt.specs.Faults.{first_from, past_limit};
ghost use Rattle.rn_pt.specs.Rules.{amount_broken, place_broken, arc_broken, transition_broken};
ghost use Rattle.rn_pt.specs.Rules.{net_broken, number_among, place_names};
ghost use Rattle.rn_pt.specs.link.Tables.{found_in};
ghost use Rattle.rn_weighted.specs.Limits.{most_arcs};

use crate::fault::Rule;
use crate::first::First;
use crate::names::declare_all;
use crate::plain::{PtArc, PtNet, PtPlace, PtTransition};
use crate::table::NameTable;
use rn_model::limits::{MOST_INITIAL, MOST_PLACES, MOST_TRANSITIONS};
use rn_reading::Numeral;
use rn_value::NoMemory;
use rn_weighted::limits::{GREATEST_WEIGHT, MOST_ARCS};
use std::alloc::Global;

/// Notes a number that doesn't lie between these.
fn note_amount(least: u32, most: u32, number: &Option<Numeral>, first: &mut First)
    ensures { first.new.broken ≡ first_from first.old.broken (amount_broken least most number.now) }
{
    if let Some(number) = number {
        let within = least as i64 <= number.value && number.value <= most as i64;
        first.note_if(!within, Rule::Amount, number.spot);
    }
}

/// Notes places that begin with too many tokens.
fn note_places(places: &[PtPlace], first: &mut First)
    ensures { first.new.broken ≡ first_from first.old.broken (flat_map place_broken places.now) }
{
    for place in places {
        note_amount(0, MOST_INITIAL as u32, &place.initial, first);
    }
}

/// Notes an arc whose place isn't declared, or whose weight isn't within its limits.
fn note_arc(arc: &PtArc, table: &NameTable, first: &mut First)
    ensures { (names : List (List ℕ)) →
        ((name : List ℕ) → found_in table.now name ≡ number_among names name) →
        first.new.broken ≡ first_from first.old.broken (arc_broken names arc.now) }
{
    let known = table.number(&arc.place.text).is_some();
    first.note_if(!known, Rule::Known, arc.place.spot);
    note_amount(1, GREATEST_WEIGHT, &arc.weight, first);
}

/// Notes the arcs of a transition, and the first one past the limit.
fn note_arcs(arcs: &[PtArc], table: &NameTable, first: &mut First)
    ensures { (names : List (List ℕ)) →
        ((name : List ℕ) → found_in table.now name ≡ number_among names name) →
        first.new.broken ≡ first_from first.old.broken (flat_map (arc_broken names) arcs.now) }
{
    for arc in arcs {
        note_arc(arc, table, first);
    }
}

/// Notes the first arc past the limit, where there are more.
fn note_past_arc(arcs: &[PtArc], first: &mut First)
    ensures { first.new.broken ≡ first_from first.old.broken
        (past_limit most_arcs (map (λ arc. arc.word.spot) arcs.now)) }
{
    if MOST_ARCS < arcs.len() {
        first.note(Rule::Limit, arcs[MOST_ARCS].word.spot);
    }
}

/// Notes what is broken in the arcs of transitions.
fn note_transitions(transitions: &[PtTransition], table: &NameTable, first: &mut First)
    ensures { (names : List (List ℕ)) →
        ((name : List ℕ) → found_in table.now name ≡ number_among names name) →
        first.new.broken ≡ first_from first.old.broken
        (flat_map (transition_broken names) transitions.now) }
{
    for transition in transitions {
        let arcs = transition.arcs.as_slice();
        note_arcs(arcs, table, first);
        note_past_arc(arcs, first);
    }
}

/// The first rule that a net breaks, and the table of its places.
pub(crate) fn check(alloc: Global, net: &PtNet) -> Result<(First, NameTable), NoMemory>
    ensures first { IfOk result (λ checked. checked.0.broken
        ≡ first_from None (net_broken net.now)) }
    ensures found { IfOk result (λ checked. (name : List ℕ) →
        found_in checked.1 name ≡ number_among (place_names net.now) name) }
{
    let mut first = First { broken: None };
    let places = net.places.as_slice();
    let transitions = net.transitions.as_slice();
    let table = declare_all(alloc, places, MOST_PLACES, &mut first)?;
    note_places(places, &mut first);
    let _others = declare_all(alloc, transitions, MOST_TRANSITIONS, &mut first)?;
    note_transitions(transitions, &table, &mut first);
    Ok((first, table))
}
