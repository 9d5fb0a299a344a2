//! The demands of a binding, as rows.
ghost use Rattle.std.specs.Prelude.{◌≡◌, ◌++◌, IfOk, OnOk, flat_map};
ghost use Rattle.rn_arcs.specs.FitInscriptions.{InscriptionsAreFit};
ghost use Rattle.rn_arcs.specs.Demanded.{AreDemandsOf, AreTakingsOf, one_row};
ghost use Rattle.rn_arcs.specs.link.Rows.{rows_of, taken_rows, tested_rows, inhibited_rows};
ghost use Rattle.rn_arcs.specs.link.Rows.{cleared_rows, put_rows};

use crate::asked::Asked;
use crate::demands::{Demands, Fills, Place2, Places2, Takings};
use crate::filling::fills_of;
use crate::grouping::asked_of;
use rn_items::{Items, NoMemory};
use rn_model::{Binding, System};
use rn_value::{InstRef, Vals, copy_inst};
use std::alloc::Global;

/// What the arcs of a binding ask of the places, all its nodes together.
///
/// Its work is near linear in the number of arcs.
pub fn demands_of(alloc: Global, system: &System, binding: &Binding) -> Result<Demands, NoMemory>
    requires fit { InscriptionsAreFit system.now binding.now }
    ensures { IfOk result (λ demands. AreDemandsOf system.now binding.now demands) }
{
    let filled = fills_of(alloc, system, binding)?;
    let places = asked_of(alloc, system, binding, true)?;
    rows_in(alloc, places, filled)
}

/// What of these demands leaves the places: what is taken and what is cleared. No output is looked
/// at.
///
/// Its work is near linear in the number of arcs.
pub fn takings_of(alloc: Global, system: &System, binding: &Binding) -> Result<Takings, NoMemory>
    requires fit { InscriptionsAreFit system.now binding.now }
    ensures { IfOk result (λ takings. AreTakingsOf system.now binding.now takings) }
{
    let places = asked_of(alloc, system, binding, false)?;
    takings_in(alloc, places)
}

/// The rows of what is taken and cleared at these places.
fn takings_in(alloc: Global, places: Vec<Asked>) -> Result<Takings, NoMemory>
    ensures taken { IfOk result (λ t. t.taken ≡ flat_map taken_rows places.items) }
    ensures cleared { IfOk result (λ t. t.cleared ≡ flat_map cleared_rows places.items) }
{
    let mut taken = Items::new(alloc);
    let mut cleared = Items::new(alloc);
    for asked in places {
        let Asked {
            inst,
            place,
            taken: values,
            cleared: lists,
            ..
        } = asked;
        add_row(alloc, &mut taken, &inst, place, values)?;
        add_rows(alloc, &mut cleared, &inst, place, lists)?;
    }
    Ok(Takings { taken, cleared })
}

/// The rows of these places, beside those of what is filled.
fn rows_in(alloc: Global, places: Vec<Asked>, filled: Fills) -> Result<Demands, NoMemory>
    ensures taken { IfOk result (λ d. d.taken ≡ flat_map taken_rows places.items) }
    ensures tested { IfOk result (λ d. d.tested ≡ flat_map tested_rows places.items) }
    ensures inhibited { IfOk result (λ d. d.inhibited ≡ flat_map inhibited_rows places.items) }
    ensures cleared { IfOk result (λ d. d.cleared ≡ flat_map cleared_rows places.items) }
    ensures put { IfOk result (λ d. d.put ≡ flat_map put_rows places.items) }
    ensures filled { IfOk result (λ d. d.filled ≡ filled) }
{
    let mut demands = Demands {
        taken: Items::new(alloc),
        tested: Items::new(alloc),
        inhibited: Items::new(alloc),
        cleared: Items::new(alloc),
        put: Items::new(alloc),
        filled,
    };
    for asked in places {
        add_place(alloc, &mut demands, asked)?;
    }
    Ok(demands)
}

/// Adds what is asked of one place.
fn add_place(alloc: Global, demands: &mut Demands, asked: Asked) -> Result<(), NoMemory>
    ensures taken { OnOk result (demands.new.taken ≡ demands.old.taken ++ taken_rows asked) }
    ensures tested { OnOk result (demands.new.tested ≡ demands.old.tested ++ tested_rows asked) }
    ensures inhibited { OnOk result
        (demands.new.inhibited ≡ demands.old.inhibited ++ inhibited_rows asked) }
    ensures cleared { OnOk result
        (demands.new.cleared ≡ demands.old.cleared ++ cleared_rows asked) }
    ensures put { OnOk result (demands.new.put ≡ demands.old.put ++ put_rows asked) }
    ensures filled { demands.new.filled ≡ demands.old.filled }
{
    let Asked {
        inst,
        place,
        taken,
        tested,
        inhibited,
        cleared,
        put,
    } = asked;
    add_row(alloc, &mut demands.taken, &inst, place, taken)?;
    add_row(alloc, &mut demands.tested, &inst, place, tested)?;
    add_row(alloc, &mut demands.inhibited, &inst, place, inhibited)?;
    add_rows(alloc, &mut demands.cleared, &inst, place, cleared)?;
    add_row(alloc, &mut demands.put, &inst, place, put)
}

/// Adds these values as a row, and nothing where there are none.
fn add_row(
    alloc: Global,
    rows: &mut Places2,
    inst: &InstRef,
    place: u32,
    values: Vals,
) -> Result<(), NoMemory>
    ensures { OnOk result (rows.new ≡ rows.old ++ rows_of (inst.now, place) (one_row values)) }
{
    if values.is_empty() {
        return Ok(());
    }
    rows.push(Place2 {
        inst: copy_inst(alloc, inst)?,
        place,
        values,
    })?;
    Ok(())
}

/// Adds a row for each of these lists.
fn add_rows(
    alloc: Global,
    rows: &mut Places2,
    inst: &InstRef,
    place: u32,
    lists: Items<Vals>,
) -> Result<(), NoMemory>
    ensures { OnOk result (rows.new ≡ rows.old ++ rows_of (inst.now, place) lists) }
{
    for values in lists.into_vec() {
        rows.push(Place2 {
            inst: copy_inst(alloc, inst)?,
            place,
            values,
        })?;
    }
    Ok(())
}
