//! Reading places, transitions and whole nets.
ghost use Rattle.std.specs.Prelude.{◌+◌, ◌≤◌, length};
ghost use Rattle.rn_reading.specs.link.Stages.{ReadsUncounted, MovesOn};
ghost use Rattle.rn_pt.specs.Grammar.{IsPtNet, IsPtPlace, IsPtTransition};
ghost use Rattle.rn_pt.specs.Grammar.{PartsUpTo, TransitionsUpTo};

use crate::arc_reader::{arcs_up_to, number_up_to};
use crate::plain::{PtNet, PtPlace, PtTransition, PtTransitions};
use crate::words::expect_pt;
use rn_items::Items;
use rn_notation::{Tokens, sign, word};
use rn_reading::{ReadFault, expect_name, expect_sign, expect_word, past_word};
use std::alloc::Global;

/// `place p = 2;`
fn place(alloc: Global, tokens: &Tokens, at: usize) -> Result<(PtPlace, usize), ReadFault>
    requires { at ≤ length tokens.now }
    ensures moved { MovesOn tokens.now (at + 1) result }
    ensures reads { ReadsUncounted IsPtPlace tokens.now at result }
{
    let (_, after_word) = expect_word(tokens, at, word::PLACE)?;
    let (name, after_name) = expect_name(alloc, tokens, after_word)?;
    let (initial, end) = number_up_to(tokens, after_name, sign::EQUALS)?;
    Ok((PtPlace { name, initial }, end))
}

/// `trans t { in p; out q; }`
fn transition(alloc: Global, tokens: &Tokens, at: usize) -> Result<(PtTransition, usize), ReadFault>
    requires { at ≤ length tokens.now }
    ensures moved { MovesOn tokens.now (at + 1) result }
    ensures reads { ReadsUncounted IsPtTransition tokens.now at result }
{
    let (_, after_word) = expect_word(tokens, at, word::TRANS)?;
    let (name, after_name) = expect_name(alloc, tokens, after_word)?;
    let (_, inside) = expect_sign(tokens, after_name, sign::LEFT_BRACE)?;
    let (arcs, end) = arcs_up_to(alloc, tokens, inside)?;
    Ok((PtTransition { name, arcs }, end))
}

/// Transitions, up to and past the closing brace.
fn transitions_up_to(
    alloc: Global,
    tokens: &Tokens,
    at: usize,
) -> Result<(PtTransitions, usize), ReadFault>
    requires { at ≤ length tokens.now }
    ensures moved { MovesOn tokens.now (at + 1) result }
    ensures reads { ReadsUncounted TransitionsUpTo tokens.now at result }
{
    let mut all = Vec::new(alloc);
    let mut now = at;
    while let Some(_) = past_word(tokens, now, word::TRANS) {
        let (more, after) = transition(alloc, tokens, now)?;
        all.push(more)?;
        now = after;
    }
    let (_, end) = expect_sign(tokens, now, sign::RIGHT_BRACE)?;
    Ok((Items::from_vec(all), end))
}

/// Places and then transitions, up to and past the closing brace.
fn parts_up_to(alloc: Global, tokens: &Tokens, at: usize) -> Result<(PtNet, usize), ReadFault>
    requires { at ≤ length tokens.now }
    ensures moved { MovesOn tokens.now (at + 1) result }
    ensures reads { ReadsUncounted PartsUpTo tokens.now at result }
{
    let mut places = Vec::new(alloc);
    let mut now = at;
    while let Some(_) = past_word(tokens, now, word::PLACE) {
        let (more, after) = place(alloc, tokens, now)?;
        places.push(more)?;
        now = after;
    }
    let (transitions, end) = transitions_up_to(alloc, tokens, now)?;
    let places = Items::from_vec(places);
    let net = PtNet {
        places,
        transitions,
    };
    Ok((net, end))
}

/// `pt { place p = 2; trans t { in p; } }`
pub(crate) fn net(alloc: Global, tokens: &Tokens) -> Result<(PtNet, usize), ReadFault>
    ensures { ReadsUncounted IsPtNet tokens.now 0 result }
{
    let (_, after_word) = expect_pt(tokens, 0)?;
    let (_, inside) = expect_sign(tokens, after_word, sign::LEFT_BRACE)?;
    parts_up_to(alloc, tokens, inside)
}
