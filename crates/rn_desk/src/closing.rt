//! How a desk is closed. All seats are joined into one, and the table can be closed only with the
//! whole of them. So no worker has a turn any more, the state is in its slot, and its entries are
//! the history that each pass has seen a beginning of.
ghost use Rattle.std.specs.Prelude.{◌≡◌, ℕ, ◌<◌, ◌≤◌, [], vec_len};
ghost use Rattle.rn_desk.specs.declared.view.SeatRole.TheVariants.{Idle};
ghost use Rattle.rn_desk.specs.Entries.{authored};
ghost use Rattle.rn_desk.specs.Numbered.{EachAt};
ghost use Rattle.rn_desk.specs.Turns.{Every, PartFits, parts_of, parts_count};
ghost use Rattle.rn_desk.specs.Passes.{seats_of, fixed_of, IsBack, IsIn};

use crate::desk::{Desk, Pass};
use crate::kept::Kept;
use crate::rule::{DeskSeat, STATE};

/// What is left of a desk.
#[derive(Drop)]
pub struct Closed<S> {
    pub state: S,
}

/// Closes the desk, with all its passes in the order of their numbers.
pub fn close<S: Kept>(desk: Desk<S>, passes: Vec<Pass<S>>) -> Closed<S>
    requires seats { vec_len passes ≡ seats_of desk }
    requires passes { EachAt (IsBack S.fixed desk) passes.items }
    ensures fixed { S.fixed result.state ≡ fixed_of S.fixed desk }
    ensures passes { EachAt (IsIn S.author (S.entries result.state)) passes.items }
    ensures others { (n : ℕ) → seats_of desk < n → authored S.author n (S.entries result.state) ≡ [] }
{
    let mut rest = passes;
    let Pass { seat: mut whole } = rest.remove(0);
    while rest.len() > 0 {
        let Pass { seat } = rest.remove(0);
        desk.join_seat(&mut whole, seat);
    }
    Closed {
        state: last_state(desk, whole),
    }
}

// The state, where all seats were joined into this one.
fn last_state<S: Kept>(desk: Desk<S>, whole: DeskSeat<S>) -> S
    requires here { whole.table_id ≡ desk.table.shared.table_id }
    requires idle { whole.me.0.role ≡ Idle }
    requires all { seats_of desk ≤ parts_count whole.me.0 }
    ensures fixed { S.fixed result ≡ fixed_of S.fixed desk }
    ensures parts { Every (PartFits S.author (S.entries result)) (parts_of whole.me.0) }
    ensures others { (n : ℕ) → seats_of desk < n → authored S.author n (S.entries result) ≡ [] }
{
    let Desk { table, doors: _ } = desk;
    let mut closed = table.close_with(whole);
    let state = closed.take(STATE);
    closed.free();
    state.unwrap()
}
