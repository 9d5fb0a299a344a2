//! What one arc asks, and the order of places.
ghost use Rattle.std.specs.Prelude.{◌≡◌, OnOk, filter};
ghost use Rattle.std.specs.List.Sorted.{IsSortedByKey};
ghost use Rattle.rn_arcs.specs.Places.{InstPlace, place_cmp, is_at};
ghost use Rattle.rn_arcs.specs.link.Asks.{place_asked};

use rn_items::NoMemory;
use rn_model::ArcKind;
use rn_value::{InstRef, Value};
use std::cmp::Ordering;

/// An arc of a node, with the value of its inscription and the instance that the node stands on.
#[derive(Debug, Drop)]
pub(crate) struct Ask {
    pub inst: InstRef,
    pub place: u32,
    pub kind: ArcKind,
    pub value: Value,
}

/// How two places stand in the order: by instance, then by number.
#[tactic(auto, using(rn_value::specs::link::OrderLaws::inst_alike))]
pub(crate) fn compare_places(inst: &InstRef, place: u32, other: &InstRef, number: u32) -> Ordering
    ensures { result ≡ place_cmp (inst.now, place) (other.now, number) }
{
    match inst.partial_cmp(other) {
        Some(Ordering::Equal) => place.cmp(&number),
        Some(order) => order,
        None => unreachable!(),
    }
}

/// Sorts by place. What asks of one place stays in order.
pub(crate) fn sort_asks(asks: &mut Vec<Ask>) -> Result<(), NoMemory>
    ensures sorted { OnOk result (IsSortedByKey place_asked place_cmp asks.new.items) }
    ensures stable { (k : InstPlace) → filter (λ a. is_at k (place_asked a)) asks.new.items
        ≡ filter (λ a. is_at k (place_asked a)) asks.old.items }
{
    asks.sort_by(|a, b| compare_places(&a.inst, a.place, &b.inst, b.place))?;
    Ok(())
}
