//! How a desk is opened. The first seat makes all others, each with the next number, before any
//! worker begins, so the numbers are there once each. All memory of a desk is asked for here, so to
//! take a turn or give it back needs none.
ghost use Rattle.std.specs.Prelude.{◌≡◌, ◌≤◌, [], IfOk, vec_len};
ghost use Rattle.rn_desk.specs.Numbered.{EachAt};
ghost use Rattle.rn_desk.specs.Steps.{maker};
ghost use Rattle.rn_desk.specs.Passes.{seats_of, fixed_of, IsFresh};

use crate::desk::{Desk, Pass};
use crate::doors::Doors;
use crate::kept::Kept;
use crate::rule::{DeskSeat, MOST_SEATS};
use crate::view::About;
use atomic_table::{Refused, Table};
use rn_items::NoMemory;
use std::alloc::{AllocFailed, Global};
use std::snapshot::Snapshot;

/// Opens a desk that keeps this state, with a pass for each seat.
///
/// The pass with number `k` stands at index `k - 1`. At `NoMemory` the state is dropped.
pub fn open_desk<S: Kept>(
    alloc: Global,
    state: S,
    seats: u32,
) -> Result<(Desk<S>, Vec<Pass<S>>), NoMemory>
    requires seats { (1 ≤ seats) × (seats ≤ MOST_SEATS) }
    requires blank { S.entries state ≡ [] }
    ensures seats { IfOk result (λ r. (seats_of r.0 ≡ seats) × (vec_len r.1 ≡ seats)) }
    ensures fixed { IfOk result (λ r. fixed_of S.fixed r.0 ≡ S.fixed state) }
    ensures passes { IfOk result (λ r. EachAt (IsFresh S.fixed r.0) r.1.items) }
{
    let mut passes = Vec::with_capacity(alloc, seats as usize)?;
    let (desk, mut maker) = lay(alloc, state, seats)?;
    for _ in 0..seats {
        let seat = desk.split_seat(&mut maker);
        passes.push_reserved(Pass { seat });
    }
    Ok((desk, passes))
}

// The desk with the state, and the seat that makes the others.
fn lay<S: Kept>(alloc: Global, state: S, seats: u32) -> Result<(Desk<S>, DeskSeat<S>), NoMemory>
    requires seats { (1 ≤ seats) × (seats ≤ MOST_SEATS) }
    requires blank { S.entries state ≡ [] }
    ensures seats { IfOk result (λ r. seats_of r.0 ≡ seats) }
    ensures fixed { IfOk result (λ r. fixed_of S.fixed r.0 ≡ S.fixed state) }
    ensures here { IfOk result (λ r. r.1.table_id ≡ r.0.table.shared.table_id) }
    ensures maker { IfOk result (λ r. r.1.me ≡ (maker 0 (S.fixed state), [])) }
{
    let about = About {
        seats,
        state: Snapshot::of(&state),
    };
    let mut slots = Vec::new(alloc);
    slots.push(Some(state))?;
    let doors = Doors::new(alloc)?;
    match Table::new(alloc, &[0, 0, 0], slots, &about) {
        Ok((table, maker)) => Ok((Desk { table, doors }, maker)),
        Err(Refused { slots }) => Err(NoMemory::from(AllocFailed { value: slots })),
    }
}
