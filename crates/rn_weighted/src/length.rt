//! How long the text of the reference net is that stands for a weighted net, without making it.
ghost use Rattle.std.specs.Prelude.{◌≡◌, ◌+◌, ◌^◌, ◌<◌, ◌≤◌, ◌↔◌, [], IsTrue, MatchOption, length, map, get_or, sum_by};
ghost use Rattle.rn_weighted.specs.TextLength.{initial_length, place_length};
ghost use Rattle.rn_weighted.specs.TextLength.{word_length, inscription_length, arc_length};
ghost use Rattle.rn_weighted.specs.TextLength.{transition_length, text_length};

use crate::weighted::{WArc, WPlace, WTransition, Weighted};
use rn_model::ArcKind;

/// Bytes of `[] = [], []` without the name: the initial tokens of a place.
fn initial_length(count: u32) -> usize
    ensures is { result ≡ initial_length count }
    ensures bound { result < 2 ^ 36 }
{
    if count == 0 {
        return 0;
    }
    let count = count as usize;
    3 + count * 2 + (count - 1) * 2
}

fn place_length(place: &WPlace) -> usize
    ensures { result ≡ place_length place.now }
{
    8 + place.name.as_str().len() + 4 + initial_length(place.initial) + 2
}

fn word_length(kind: ArcKind, weight: u32) -> usize
    ensures is { result ≡ word_length kind weight }
    ensures bound { result ≤ 8 }
{
    match kind {
        ArcKind::Input => { if weight == 1 { 3 } else { 7 } }
        ArcKind::Output => { if weight == 1 { 4 } else { 8 } }
        _ => 8,
    }
}

fn inscription_length(weight: u32) -> usize
    ensures is { result ≡ inscription_length weight }
    ensures bound { result < 2 ^ 36 }
{
    if weight == 1 {
        return 2;
    }
    let weight = weight as usize;
    2 + weight * 2 + weight.saturating_sub(1)
}

/// Bytes of the name of a place, by its number.
fn name_length(places: &[WPlace], number: u32) -> usize
    ensures is { result ≡ length (get_or (map (λ p. p.name) places.now) number []) }
    ensures bound { result < 2 ^ 63 }
{
    match places.get(number as usize) {
        Some(place) => place.name.as_str().len(),
        None => 0,
    }
}

fn arc_length(places: &[WPlace], arc: &WArc) -> usize
    ensures { result ≡ arc_length (map (λ p. p.name) places.now) arc.now }
{
    let word = word_length(arc.kind, arc.weight);
    let name = name_length(places, arc.place);
    4 + word + name + 2 + inscription_length(arc.weight) + 2
}

/// What is left of a room of so many bytes after the lines of places, if they fit.
fn after_places(places: &[WPlace], room: usize) -> Option<usize>
    ensures { MatchOption result
        (room < sum_by place_length places.now)
        (λ left. left + sum_by place_length places.now ≡ room) }
{
    let mut left = room;
    for place in places {
        left = left.checked_sub(place_length(place))?;
    }
    Some(left)
}

/// The same after the lines of arcs.
fn after_arcs(places: &[WPlace], arcs: &[WArc], room: usize) -> Option<usize>
    ensures { let all = sum_by (arc_length (map (λ p. p.name) places.now)) arcs.now in
        MatchOption result (room < all) (λ left. left + all ≡ room) }
{
    let mut left = room;
    for arc in arcs {
        left = left.checked_sub(arc_length(places, arc))?;
    }
    Some(left)
}

/// The same after the lines of a transition.
fn after_transition(places: &[WPlace], transition: &WTransition, room: usize) -> Option<usize>
    ensures { let all = transition_length (map (λ p. p.name) places.now) transition.now in
        MatchOption result (room < all) (λ left. left + all ≡ room) }
{
    let left = room.checked_sub(15 + transition.name.as_str().len())?;
    after_arcs(places, transition.arcs.as_slice(), left)
}

/// The same after the lines of transitions.
fn after_transitions(places: &[WPlace], transitions: &[WTransition], room: usize) -> Option<usize>
    ensures { let all = sum_by (transition_length (map (λ p. p.name) places.now)) transitions.now in
        MatchOption result (room < all) (λ left. left + all ≡ room) }
{
    let mut left = room;
    for transition in transitions {
        left = after_transition(places, transition, left)?;
    }
    Some(left)
}

/// The same after the whole text.
fn after_net(net: &Weighted, room: usize) -> Option<usize>
    ensures { MatchOption result
        (room < text_length net.now)
        (λ left. left + text_length net.now ≡ room) }
{
    let inside = room.checked_sub(13)?;
    let left = after_places(net.places.as_slice(), inside)?;
    after_transitions(net.places.as_slice(), net.transitions.as_slice(), left)
}

/// Whether the text of the reference net that stands for a weighted net has at most so many bytes.
pub fn has_text_within(net: &Weighted, most: usize) -> bool
    ensures { IsTrue result ↔ (text_length net.now ≤ most) }
{
    match after_net(net, most) {
        Some(_) => true,
        None => false,
    }
}
