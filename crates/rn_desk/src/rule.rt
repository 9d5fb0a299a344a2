//! The desk's table, and the rule that each step keeps. Three words and a slot have the next
//! ticket, the one that is served, the number of entries, and the state. The rule is of what holds
//! between any two atomic steps, so it holds in every schedule (`specs/Turns`; `docs/WORKERS.md`,
//! 'Turns').
use crate::kept::Kept;
use crate::view::{About, SeatView};
use atomic_table::{Seat, Table, TableRule};
use std::alloc::Global;
use std::marker::PhantomData;

/// The turns go round in the order of the tickets, and one history grows.
pub(crate) struct InTurns<S> {
    of: PhantomData<S>,
}

impl<S: Kept> TableRule<Option<S>, SeatView<S::Item, S::Fixed>, About<S>> for InTurns<S> {
    ghost use Rattle.rn_desk.specs.Turns.{Turns};
    ghost use Rattle.rn_desk.specs.Steps.{maker};

    ghost holds = { λ k. Turns S.entries S.author S.fixed k.seats k.state.value };

    ghost first = { λ k. maker 0 (S.fixed k.state.value) };
}

/// Three words and one slot.
pub(crate) type Board<S> = Table<
    Option<S>,
    SeatView<<S as Kept>::Item, <S as Kept>::Fixed>,
    About<S>,
    InTurns<S>,
    Global,
>;

pub(crate) type DeskSeat<S> = Seat<Option<S>, SeatView<<S as Kept>::Item, <S as Kept>::Fixed>>;

/// How many seats a desk has, at most.
pub const MOST_SEATS: u32 = 64;

/// The word with the next ticket.
pub(crate) const TICKET: usize = 0;

/// The word with the ticket that is served.
pub(crate) const SERVING: usize = 1;

/// The word with the length of the history.
pub(crate) const LENGTH: usize = 2;

/// The slot with the state.
pub(crate) const STATE: usize = 0;
