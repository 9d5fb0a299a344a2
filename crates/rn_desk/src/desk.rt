//! The desk, a worker's pass, and its turn. A turn has the state itself, moved out of the desk's
//! slot, so no two workers have it at once. It can only be given back and never dropped, or all
//! others would wait for it for ever (`docs/WORKERS.md`, 'Turns').
ghost use Rattle.std.specs.Prelude.{◌≡◌, ◌≤◌};

use crate::doors::Doors;
use crate::kept::Kept;
use crate::rule::{Board, DeskSeat};

mod sleeping;
mod steps;
mod turns;

/// It keeps the state. The workers share it by reference.
///
/// ```
/// let (desk, mut passes) = open_desk(alloc, state, 4)?;
/// let mut turn = desk.take(&rt, &mut passes[0]);
/// turn.state().add(entry);
/// desk.give(&mut passes[0], turn);
/// let Closed { state } = close(desk, passes);
/// ```
#[derive(Drop)]
pub struct Desk<S: Kept> {
    pub(crate) table: Board<S>,
    pub(crate) doors: Doors,
    pub(crate) ghost words: { table.shared.table_id.words ≡ 3 },
    pub(crate) ghost slots: { table.shared.table_id.slots ≡ 1 },
    pub(crate) ghost seats: { 1 ≤ table.shared.key.seats },
}

/// What one worker takes its turns with.
///
/// It has a number from 1 to the number of seats, what it has seen, and what it authored.
#[derive(Drop)]
pub struct Pass<S: Kept> {
    pub(crate) seat: DeskSeat<S>,
}

/// The state, while a pass has the turn.
///
/// It is not `Drop`: `Desk::give` is the one way to be rid of it.
pub struct Turn<S> {
    pub(crate) state: S,
    pub(crate) length: u64,
}
