//! What a seat at the desk's table knows, as plain data of the proofs. The words alone don't say
//! whose ticket is served, or what each worker has seen and authored; the rule needs both, so each
//! seat carries it. No value of a view is made.
use std::collections::LinkedList;
use std::snapshot::Snapshot;

/// How far a seat's turn is. Tickets are counted on past 2^64.
pub(crate) enum SeatRole {
    /// It was joined into another.
    Spent,
    /// It makes the other seats, and has made so many.
    Maker(u64),
    /// It has no ticket.
    Idle,
    /// It waits with this ticket.
    Waits(u64),
    /// It has the turn, by this ticket.
    Holds(u64),
}

/// A number, with what its seat has seen and what it authored.
///
/// During a turn `seen` is the list in hand.
pub(crate) struct Part<I> {
    pub number: u64,
    pub seen: LinkedList<I>,
    pub mine: LinkedList<I>,
}

/// What a seat knows.
pub(crate) struct SeatView<I, F> {
    pub role: SeatRole,
    pub own: Part<I>,
    /// The parts of the seats that were joined into this one.
    pub others: LinkedList<Part<I>>,
    /// What the state keeps fixed, but for a spent seat.
    pub fixed: Option<F>,
}

/// What the table is given once: the number of seats, and the state at the opening.
#[derive(Drop)]
pub(crate) struct About<S> {
    pub seats: u32,
    pub state: Snapshot<S>,
}
