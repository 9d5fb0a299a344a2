//! What a binding asks, place by place.
ghost use Rattle.std.specs.Prelude.{◌≡◌, IfOk, OnOk, All, map};
ghost use Rattle.std.specs.List.Sorted.{IsSorted};
ghost use Rattle.rn_value.specs.Order.{value_cmp};
ghost use Rattle.rn_arcs.specs.FitInscriptions.{InscriptionsAreFit};
ghost use Rattle.rn_arcs.specs.link.Groups.{with_ask, groups_of, in_order, AreAsked};

use crate::ask::{Ask, compare_places, sort_asks};
use crate::asked::Asked;
use crate::collecting::asks_of;
use rn_items::NoMemory;
use rn_model::{Binding, System};
use std::alloc::Global;

/// Adds what an arc asks to the last place, or a new place after it.
fn put_ask(alloc: Global, places: &mut Vec<Asked>, ask: Ask) -> Result<(), NoMemory>
    ensures { OnOk result (places.new.items ≡ with_ask places.old.items ask) }
{
    let Ask {
        inst,
        place,
        kind,
        value,
    } = ask;
    let count = places.len();
    if count > 0 {
        let last = &places[count - 1];
        if compare_places(&inst, place, &last.inst, last.place).is_eq() {
            places[count - 1].add(alloc, kind, value)?;
            return Ok(());
        }
    }
    let mut asked = Asked::new(alloc, inst, place);
    asked.add(alloc, kind, value)?;
    places.push(asked)?;
    Ok(())
}

/// The places of which these ask, where those that ask of one place stand together.
fn grouped(alloc: Global, asks: Vec<Ask>) -> Result<Vec<Asked>, NoMemory>
    ensures { IfOk result (λ places. places.items ≡ groups_of asks.items) }
{
    let mut places = Vec::new(alloc);
    for ask in asks {
        put_ask(alloc, &mut places, ask)?;
    }
    Ok(places)
}

/// The values of each place come in ascending order.
fn sort_each(alloc: Global, places: &mut Vec<Asked>) -> Result<(), NoMemory>
    ensures { OnOk result (places.new.items ≡ map in_order places.old.items) }
{
    for k in 0..places.len() {
        places[k].sort(alloc)?;
    }
    Ok(())
}

/// What a binding asks of each place, in the order of places. Outputs are left out at will.
pub(crate) fn asked_of(
    alloc: Global,
    system: &System,
    binding: &Binding,
    outputs: bool,
) -> Result<Vec<Asked>, NoMemory>
    requires fit { InscriptionsAreFit system.now binding.now }
    ensures asked { IfOk result (λ places. AreAsked outputs system.now binding.now places.items) }
    ensures sorted { IfOk result (λ places. All (λ g. IsSorted value_cmp g.taken) places.items) }
{
    let mut asks = asks_of(alloc, system, binding, outputs)?;
    sort_asks(&mut asks)?;
    let mut places = grouped(alloc, asks)?;
    sort_each(alloc, &mut places)?;
    Ok(places)
}
