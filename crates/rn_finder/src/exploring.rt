//! Looking beside home: the explorer looks at starts in turn, or at those that are drawn, and what
//! it found last is looked at as long as something is found there. What is found is enabled;
//! nothing is said where nothing is, since such a search may be cut off (`docs/SEARCH.md`,
//! 'Everyone gets a turn').
ghost use Rattle.std.specs.Prelude.{◌<◌, IfOk, IfSome, length};
ghost use Rattle.rn_model.specs.Enabling.{Enabled};
ghost use Rattle.rn_model.specs.Systems.{net_at};
ghost use Rattle.rn_finder.specs.Starting.{IsKept, IsSearchable};

use crate::finding::find_from;
use crate::hint::KeptStart;
use crate::idle::Idle;
use crate::marked::Marked;
use crate::room::Room;
use crate::starts::transition_count;
use crate::turns::Turns;
use rn_binding::Candidate;
use rn_choices::{Asked, Cut, Within};
use std::alloc::Global;

// A binding with this start, where that costs no more than so much; and whether the search wasn't
// cut off.
fn find_within<A: Asked>(
    alloc: Global,
    asked: &A,
    marked: Marked<'_>,
    room: &mut Room,
    start: KeptStart<'_>,
    most: u64,
) -> Result<(Option<Candidate>, bool), A::Halt>
    requires searched { IsSearchable marked.system.now marked.uplinks.now
        marked.table.now }
    requires kept { IsKept marked.table.now.marking start.inst.now }
    requires there { start.transition
        < length (net_at marked.system.now start.inst.now.net).transitions }
    ensures { IfOk result (λ found. IfSome found.0 (λ b. Enabled marked.entry.system.now
        marked.entry.table.now.marking b marked.entry.depth)) }
{
    let within = Within {
        asked,
        most: room.choices.spent().saturating_add(most),
    };
    match find_from(alloc, &within, marked, room, start) {
        Ok(found) => Ok((found, true)),
        Err(Cut::Spent) => Ok((None, false)),
        Err(Cut::Halt(halt)) => Err(halt),
    }
}

// Explores a start.
fn explore_start<A: Asked>(
    alloc: Global,
    asked: &A,
    marked: Marked<'_>,
    room: &mut Room,
    turns: &mut Turns,
    start: KeptStart<'_>,
) -> Result<Option<Candidate>, A::Halt>
    requires searched { IsSearchable marked.system.now marked.uplinks.now
        marked.table.now }
    requires kept { IsKept marked.table.now.marking start.inst.now }
    requires there { start.transition
        < length (net_at marked.system.now start.inst.now.net).transitions }
    ensures { IfOk result (λ found. IfSome found (λ b. Enabled marked.entry.system.now
        marked.entry.table.now.marking b marked.entry.depth)) }
{
    let most = turns.most();
    let before = room.choices.spent();
    let (found, is_whole) = find_within(alloc, asked, marked, room, start, most)?;
    let cost = room.choices.spent().wrapping_sub(before);
    turns.note(cost, is_whole, found.is_some());
    if found.is_some() {
        turns.stay(start.hint, cost, room.choices.oldest());
    }
    Ok(found)
}

// Draws a start, and explores it.
fn explore_drawn<A: Asked>(
    alloc: Global,
    asked: &A,
    marked: Marked<'_>,
    room: &mut Room,
    turns: &mut Turns,
) -> Result<Option<Candidate>, A::Halt>
    requires { IsSearchable marked.system.now marked.uplinks.now
        marked.table.now }
    ensures { IfOk result (λ found. IfSome found (λ b. Enabled marked.entry.system.now
        marked.entry.table.now.marking b marked.entry.depth)) }
{
    turns.explorer.pay(1);
    let Some(number) = turns.drawn_instance(marked.table) else {
        return Ok(None);
    };
    let Some(inst) = marked.table.find(number) else {
        return Ok(None);
    };
    let count = transition_count(marked.system, inst.net());
    if count == 0 {
        return Ok(None);
    }
    let transition = turns.drawn_transition(count);
    let start = KeptStart {
        inst,
        transition,
        hint: turns.explored(number, transition),
    };
    explore_start(alloc, asked, marked, room, turns, start)
}

// Goes on by one start in turn, which it explores or passes by, or behind instances that are known to
// be idle.
fn explore_next<A: Asked>(
    alloc: Global,
    asked: &A,
    marked: Marked<'_>,
    idle: &Idle,
    room: &mut Room,
    turns: &mut Turns,
) -> Result<Option<Candidate>, A::Halt>
    requires { IsSearchable marked.system.now marked.uplinks.now
        marked.table.now }
    ensures { IfOk result (λ found. IfSome found (λ b. Enabled marked.entry.system.now
        marked.entry.table.now.marking b marked.entry.depth)) }
{
    let Some(number) = marked.table.first_starting(turns.explorer.number) else {
        turns.explorer.end_round();
        return Ok(None);
    };
    let other = idle.first_other(number);
    if other != number {
        turns.explorer.pass_to(other);
        return Ok(None);
    }
    let Some(inst) = marked.table.find(number) else {
        turns.explorer.pass_instance(number);
        return Ok(None);
    };
    let transition = turns.explorer.transition_at(number);
    if transition >= transition_count(marked.system, inst.net()) {
        turns.explorer.pass_instance(number);
        return Ok(None);
    }
    if turns.is_last(number, transition) {
        turns.explorer.pass(number, transition);
        return Ok(None);
    }
    let start = KeptStart {
        inst,
        transition,
        hint: turns.explored(number, transition),
    };
    explore_start(alloc, asked, marked, room, turns, start)
}

// Goes on by one start, in turn or by what is drawn.
fn explore_once<A: Asked>(
    alloc: Global,
    asked: &A,
    marked: Marked<'_>,
    idle: &Idle,
    room: &mut Room,
    turns: &mut Turns,
) -> Result<Option<Candidate>, A::Halt>
    requires { IsSearchable marked.system.now marked.uplinks.now
        marked.table.now }
    ensures { IfOk result (λ found. IfSome found (λ b. Enabled marked.entry.system.now
        marked.entry.table.now.marking b marked.entry.depth)) }
{
    if turns.draws() {
        return explore_drawn(alloc, asked, marked, room, turns);
    }
    explore_next(alloc, asked, marked, idle, room, turns)
}

/// A binding that the explorer finds, as long as there is something to be spent.
pub(crate) fn explore<A: Asked>(
    alloc: Global,
    asked: &A,
    marked: Marked<'_>,
    idle: &Idle,
    room: &mut Room,
    turns: &mut Turns,
) -> Result<Option<Candidate>, A::Halt>
    requires { IsSearchable marked.system.now marked.uplinks.now
        marked.table.now }
    ensures { IfOk result (λ found. IfSome found (λ b. Enabled marked.entry.system.now
        marked.entry.table.now.marking b marked.entry.depth)) }
{
    for _ in 0..u64::MAX {
        if !turns.explorer.has_credit() {
            return Ok(None);
        }
        asked.go_on(room.choices.spent())?;
        if let Some(found) = explore_once(alloc, asked, marked, idle, room, turns)? {
            return Ok(Some(found));
        }
    }
    Ok(None)
}

/// A binding where the explorer found the last one. Where there is none, that place is forgotten.
pub(crate) fn visit<A: Asked>(
    alloc: Global,
    asked: &A,
    marked: Marked<'_>,
    room: &mut Room,
    turns: &mut Turns,
) -> Result<Option<Candidate>, A::Halt>
    requires { IsSearchable marked.system.now marked.uplinks.now
        marked.table.now }
    ensures { IfOk result (λ found. IfSome found (λ b. Enabled marked.entry.system.now
        marked.entry.table.now.marking b marked.entry.depth)) }
{
    let Some(guest) = turns.guest else {
        return Ok(None);
    };
    turns.guest = None;
    let hint = guest.hint;
    let Some(inst) = marked.table.find(hint.number) else {
        return Ok(None);
    };
    if hint.transition >= transition_count(marked.system, inst.net()) {
        return Ok(None);
    }
    let before = room.choices.spent();
    let start = KeptStart {
        inst,
        transition: hint.transition,
        hint,
    };
    let (found, _) = find_within(alloc, asked, marked, room, start, guest.most)?;
    let cost = room.choices.spent().wrapping_sub(before);
    if found.is_some() {
        turns.explorer.earn(cost);
        turns.stay(hint, cost, room.choices.oldest());
    } else {
        turns.explorer.pay(cost);
    }
    Ok(found)
}
