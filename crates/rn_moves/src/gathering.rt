//! The tokens of a change.
ghost use Rattle.std.specs.Prelude.{◌≡◌, ◌+◌, ◌<◌, ◌^◌, ◌++◌, length, flat_map, IfOk, OnOk};
ghost use Rattle.rn_model.specs.Good.{Good};
ghost use Rattle.rn_table.specs.Changes.{values_at};
ghost use Rattle.rn_moves.specs.link.Connecting.{tokens_at_place, row_tokens, initial_tokens, made_tokens};
ghost use Rattle.rn_moves.specs.Moves.{AreTokens, brought_at};

use crate::order::ascending;
use crate::token::{Moves, Token};
use rn_items::NoMemory;
use rn_model::{Place, System, places_of};
use rn_table::{Change, Row, Rows};
use rn_value::{Value, copy};
use std::alloc::Global;

/// Adds the tokens of a row.
fn add_row(tokens: &mut Vec<Token>, row: Row) -> Result<(), NoMemory>
    ensures { OnOk result (tokens.new.items ≡ tokens.old.items ++ row_tokens row) }
{
    let Row {
        inst,
        place,
        values,
    } = row;
    for value in values.into_vec() {
        tokens.push(Token { inst, place, value })?;
    }
    Ok(())
}

/// Adds the tokens of rows.
fn add_rows(tokens: &mut Vec<Token>, rows: Rows) -> Result<(), NoMemory>
    ensures { OnOk result (tokens.new.items ≡ tokens.old.items ++ flat_map row_tokens rows) }
{
    for row in rows.into_vec() {
        add_row(tokens, row)?;
    }
    Ok(())
}

/// Adds copies of these values, as tokens of a place of an instance.
fn add_values(
    alloc: Global,
    tokens: &mut Vec<Token>,
    inst: u32,
    place: u32,
    values: &[Value],
) -> Result<(), NoMemory>
    ensures { OnOk result (tokens.new.items ≡ tokens.old.items ++ tokens_at_place inst place values.now) }
{
    for value in values {
        tokens.push(Token {
            inst,
            place,
            value: copy(alloc, value)?,
        })?;
    }
    Ok(())
}

/// Adds the initial tokens of an instance with these places.
fn add_initial(
    alloc: Global,
    tokens: &mut Vec<Token>,
    inst: u32,
    places: &[Place],
) -> Result<(), NoMemory>
    requires { length places.now < 2 ^ 32 }
    ensures { OnOk result (tokens.new.items ≡ tokens.old.items ++ initial_tokens inst 0 places.now) }
{
    for i in 0..places.len() {
        add_values(alloc, tokens, inst, i as u32, places[i].initial.as_slice())?;
    }
    Ok(())
}

/// Adds the initial tokens of new instances of these nets, of which the first has this number.
pub(crate) fn add_made(
    alloc: Global,
    tokens: &mut Vec<Token>,
    system: &System,
    next: u32,
    nets: &[u32],
) -> Result<(), NoMemory>
    requires good { Good system.now }
    requires numbers { next + length nets.now < 2 ^ 32 }
    ensures { OnOk result (tokens.new.items ≡ tokens.old.items ++ made_tokens system.now next nets.now) }
{
    for k in 0..nets.len() {
        let places = places_of(system, nets[k]);
        add_initial(alloc, tokens, next + k as u32, places)?;
    }
    Ok(())
}

/// The tokens that a change moves, where the first new instance has this number.
pub(crate) fn tokens_of(
    alloc: Global,
    system: &System,
    next: u32,
    change: Change,
) -> Result<Moves, NoMemory>
    requires good { Good system.now }
    requires numbers { next + length change.made < 2 ^ 32 }
    ensures taken { IfOk result (λ moves. AreTokens (λ n place.
        values_at change.taken n place ++ values_at change.cleared n place) moves.taken) }
    ensures put { IfOk result (λ moves. AreTokens (λ n place.
        brought_at system.now next change.made n place ++ values_at change.put n place) moves.put) }
{
    let Change {
        taken,
        cleared,
        made,
        put,
    } = change;
    let mut gone = Vec::new(alloc);
    add_rows(&mut gone, taken)?;
    add_rows(&mut gone, cleared)?;
    let mut come = Vec::new(alloc);
    add_made(alloc, &mut come, system, next, made.as_slice())?;
    add_rows(&mut come, put)?;
    Ok(Moves {
        taken: ascending(gone)?,
        put: ascending(come)?,
    })
}
