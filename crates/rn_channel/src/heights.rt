//! How many levels of calls a transition needs below it.
ghost use Rattle.std.specs.Prelude.{◌≡◌, ◌<◌, ◌||◌, ℕ, IfOk, length, false};
ghost use Rattle.std.specs.Prelude.{slice_index_or, ◌&&◌};
ghost use Rattle.rn_channel.specs.Answering.{is_of};
ghost use Rattle.std.specs.List.{list_any};
ghost use Rattle.std.specs.Prelude.{suc, map};
ghost use Rattle.rn_channel.specs.Heights.{calls_answered, net_answers};
ghost use Rattle.rn_channel.specs.link.Kept.{IsLevel, AreLevelsFrom, least_height};

use rn_items::{Items, NoMemory};
use rn_model::limits::GREATEST_DEPTH;
use rn_model::{Net, System, Transition, Uplink};
use std::alloc::Global;

// Whether a channel is answered, by a list that says so of each.
fn has_answer(answered: &[bool], channel: u32) -> bool
    ensures { result ≡ slice_index_or answered.now channel false }
{
    match answered.get(channel as usize) {
        Some(yes) => *yes,
        None => false,
    }
}

// Whether each call of a transition goes to a channel that is answered.
fn calls_answered(answered: &[bool], transition: &Transition) -> bool
    ensures { result ≡ calls_answered (λ c. slice_index_or answered.now c false) transition.now }
{
    for call in transition.downlinks.as_slice() {
        if !has_answer(answered, call.channel) {
            return false;
        }
    }
    true
}

// Notes that the channel of an uplink is answered, where there is one and this is so.
fn note(next: &mut [bool], uplink: &Option<Uplink>, yes: bool)
    ensures len { length next.new ≡ length next.old }
    ensures noted { (c : ℕ) → c < length next.old → slice_index_or next.new c false
        ≡ slice_index_or next.old c false || (is_of c uplink.now && yes) }
{
    if !yes {
        return;
    }
    if let Some(uplink) = uplink {
        let channel = uplink.channel as usize;
        if channel < next.len() {
            next[channel] = true;
        }
    }
}

// Notes the channels that the net's transitions with answered calls answer.
fn note_answers(net: &Net, answered: &[bool], next: &mut [bool])
    ensures len { length next.new ≡ length next.old }
    ensures noted { (c : ℕ) → c < length next.old → slice_index_or next.new c false
        ≡ slice_index_or next.old c false
        || net_answers (calls_answered (λ d. slice_index_or answered.now d false)) c net.now }
{
    for transition in net.transitions.as_slice() {
        let yes = calls_answered(answered, transition);
        note(next, &transition.uplink, yes);
    }
}

// The channels that are answered by transitions whose calls are.
fn answered_after(alloc: Global, nets: &[Net], answered: &[bool]) -> Result<Vec<bool>, NoMemory>
    ensures len { IfOk result (λ next. length next.items ≡ length answered.now) }
    ensures next { IfOk result (λ next. (c : ℕ) → c < length answered.now →
        slice_index_or next.items c false
        ≡ list_any (net_answers (calls_answered (λ d. slice_index_or answered.now d false)) c) nets.now) }
{
    let mut next = vec![in alloc; false; answered.len()]?;
    for net in nets {
        note_answers(net, answered, next.as_mut_slice());
    }
    Ok(next)
}

// The channels that one level more suffices to answer.
fn next_level(alloc: Global, system: &System, level: &[bool]) -> Result<Vec<bool>, NoMemory>
    ensures { (k : ℕ) → IsLevel system.now k level.now → IfOk result (λ next. IsLevel system.now (suc k) next.items) }
{
    let next = answered_after(alloc, system.nets.as_slice(), level)?;
    Ok(next)
}

/// For each number of levels up to the greatest depth, which channels fewer levels suffice to
/// answer.
pub(crate) fn levels_of(alloc: Global, system: &System) -> Result<Vec<Items<bool>>, NoMemory>
    ensures len { IfOk result (λ levels. length levels.items ≡ suc GREATEST_DEPTH) }
    ensures each { IfOk result (λ levels. AreLevelsFrom system.now 0 levels.items) }
{
    let mut levels = Vec::new(alloc);
    let mut level = vec![in alloc; false; system.channels.len()]?;
    for k in 0..GREATEST_DEPTH as usize + 1 {
        let next = next_level(alloc, system, level.as_slice())?;
        levels.push(Items::from_vec(level))?;
        level = next;
    }
    Ok(levels)
}

// The least number of levels that suffices below a transition.
fn height_of(levels: &[Items<bool>], transition: &Transition) -> Option<u32>
    requires { length levels.now ≡ suc GREATEST_DEPTH }
    ensures { (system : System) → AreLevelsFrom system 0 levels.now →
        result ≡ least_height system transition.now 0 (length levels.now) }
{
    for (k, level) in levels.iter().enumerate() {
        if calls_answered(level.as_slice(), transition) {
            return Some(k as u32);
        }
    }
    None
}

/// For each transition of a net the least number of levels of calls that suffices below it.
pub(crate) fn heights_of(
    alloc: Global,
    levels: &[Items<bool>],
    net: &Net,
) -> Result<Items<Option<u32>>, NoMemory>
    requires { length levels.now ≡ suc GREATEST_DEPTH }
    ensures { (system : System) → AreLevelsFrom system 0 levels.now → IfOk result (λ heights.
        heights ≡ map (λ t. least_height system t 0 (length levels.now)) net.now.transitions) }
{
    let mut heights = Vec::with_capacity(alloc, net.transitions.len())?;
    for transition in net.transitions.as_slice() {
        heights.push(height_of(levels, transition))?;
    }
    Ok(Items::from_vec(heights))
}
