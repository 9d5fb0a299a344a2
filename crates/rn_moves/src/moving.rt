//! The moves of the start and of one firing.
ghost use Rattle.std.specs.Prelude.{◌≡◌, IfOk};
ghost use Rattle.rn_model.specs.Good.{Good};
ghost use Rattle.rn_model.specs.Systems.{main_net};
ghost use Rattle.rn_moves.specs.link.Movable.{IsDefined};
ghost use Rattle.rn_moves.specs.Moves.{AreFirst, AreMovesOf};

use crate::gathering::{add_made, tokens_of};
use crate::order::ascending;
use crate::token::Moves;
use rn_acts::{act, change_of};
use rn_items::{Items, NoMemory};
use rn_model::{Binding, System, named};
use rn_table::{main_net_of, nets_are_few};
use std::alloc::Global;

/// The number of the net of the first instance.
pub(crate) fn first_net(system: &System) -> u32
    requires { Good system.now }
    ensures { result ≡ main_net system.now }
{
    nets_are_few();
    main_net_of(system) as u32
}

/// The moves of the start: the initial tokens of instance 1, of the net `main`.
pub(crate) fn first_moves(alloc: Global, system: &System, main: u32) -> Result<Moves, NoMemory>
    requires good { Good system.now }
    requires main { main ≡ main_net system.now }
    ensures { IfOk result (AreFirst system.now) }
{
    let mut tokens = Vec::new(alloc);
    add_made(alloc, &mut tokens, system, 1, &[main])?;
    Ok(Moves {
        taken: Items::new(alloc),
        put: ascending(tokens)?,
    })
}

/// The moves of a firing, which is the one with this number and gives the instances that it makes the
/// numbers from `next`.
pub(crate) fn moves_of(
    alloc: Global,
    system: &System,
    binding: &Binding,
    next: u32,
    step: u64,
) -> Result<Moves, NoMemory>
    requires good { Good system.now }
    requires moves { IsDefined system.now next step binding.now }
    ensures { IfOk result (AreMovesOf system.now next step binding.now) }
{
    let numbered = named(alloc, system, binding, next)?;
    let Some(acted) = act(alloc, system, &numbered, step)? else {
        unreachable!();
    };
    let change = change_of(alloc, system, &numbered, acted.put)?;
    tokens_of(alloc, system, next, change)
}
