//! The eight kinds of step at the desk, in the order of their use.
ghost use Rattle.std.specs.Prelude.{◌≡◌, ℕ, ◌<◌, [], ◌∷◌, length, Option, Some, None};
ghost use Rattle.std.specs.Bool.{OnTrue, OnFalse};
ghost use Rattle.rn_desk.specs.declared.view.SeatRole.TheVariants.{Maker, Idle, Waits};
ghost use Rattle.rn_desk.specs.Turns.{wrapped};
ghost use Rattle.rn_desk.specs.Steps.{maker_after, made_seat, in_role, GetsTurn, with_entries, MayCount, MayPassOn, joined};

use super::Desk;
use crate::kept::Kept;
use crate::kinds::{CountEntry, DrawTicket, JoinSeat, LookAtServing, PassTurnOn, SplitSeat};
use crate::rule::{DeskSeat, LENGTH, SERVING, STATE, TICKET};

impl<S: Kept> Desk<S> {
    // Makes a seat with the next number.
    pub(crate) fn split_seat(&self, maker: &mut DeskSeat<S>) -> DeskSeat<S>
        requires here { maker.old.table_id ≡ self.now.table.shared.table_id }
        requires room { (n : ℕ) × (maker.old.me.0.role ≡ Maker n) × (n < self.now.table.shared.key.seats) }
        ensures here { (maker.new.table_id ≡ maker.old.table_id) × (result.table_id ≡ maker.old.table_id) }
        ensures maker { maker.new.me ≡ (maker_after maker.old.me.0, maker.old.me.1) }
        ensures made { result.me ≡ (made_seat maker.old.me.0, []) }
    {
        self.table.shared.split_seat::<SplitSeat>(maker)
    }

    pub(crate) fn draw_ticket(&self, seat: &mut DeskSeat<S>) -> u64
        requires here { seat.old.table_id ≡ self.now.table.shared.table_id }
        requires idle { seat.old.me.0.role ≡ Idle }
        ensures here { seat.new.table_id ≡ seat.old.table_id }
        ensures waits { (t : ℕ) × (wrapped t ≡ result)
            × (seat.new.me ≡ (in_role (Waits t) seat.old.me.0, seat.old.me.1)) }
    {
        self.table
            .shared
            .fetch_add::<DrawTicket<S>>(seat, TICKET, 1)
    }

    // Whether this ticket is served. Then the seat has the turn and the slot.
    pub(crate) fn look_at_serving(&self, seat: &mut DeskSeat<S>, ticket: u64) -> bool
        requires here { seat.old.table_id ≡ self.now.table.shared.table_id }
        requires waits { (t : ℕ) × (wrapped t ≡ ticket) × (seat.old.me.0.role ≡ Waits t) }
        ensures here { seat.new.table_id ≡ seat.old.table_id }
        ensures served { OnTrue result (GetsTurn S.entries S.author S.fixed seat.old.me seat.new.me) }
        ensures not_served { OnFalse result (seat.new.me ≡ seat.old.me) }
    {
        self.table.shared.load::<LookAtServing<S>>(seat, SERVING) == ticket
    }

    pub(crate) fn take_state_out(&self, seat: &mut DeskSeat<S>) -> S
        requires here { seat.old.table_id ≡ self.now.table.shared.table_id }
        requires full { (y : S) × (seat.old.me.1 ≡ (0, Some y) ∷ []) }
        ensures here { seat.new.table_id ≡ seat.old.table_id }
        ensures state { seat.old.me.1 ≡ (0, Some result) ∷ [] }
        ensures empty { seat.new.me ≡ (seat.old.me.0, (0, None) ∷ []) }
    {
        self.table.shared.exchange(seat, STATE, None).unwrap()
    }

    // Where the turn added an entry. The state is read by the step, and not yet put back.
    pub(crate) fn count_entry(&self, seat: &mut DeskSeat<S>, began: u64, full: &Option<S>)
        requires here { seat.old.table_id ≡ self.now.table.shared.table_id }
        requires turn { MayCount S.entries S.author S.fixed began full.now seat.old.me }
        ensures here { seat.new.table_id ≡ seat.old.table_id }
        ensures counted { (y : S) → full.now ≡ Some y
            → seat.new.me ≡ (with_entries S.author (S.entries y) seat.old.me.0, seat.old.me.1) }
    {
        let Some(state) = full else { unreachable!() };
        if state.length() > began {
            self.table
                .shared
                .compare_exchange_with::<CountEntry<S>>(seat, LENGTH, began, began + 1, full);
        }
    }

    pub(crate) fn put_state_back(&self, seat: &mut DeskSeat<S>, full: Option<S>)
        requires here { seat.old.table_id ≡ self.now.table.shared.table_id }
        requires empty { seat.old.me.1 ≡ (0, None) ∷ [] }
        ensures here { seat.new.table_id ≡ seat.old.table_id }
        ensures full { seat.new.me ≡ (seat.old.me.0, (0, full) ∷ []) }
    {
        let left = self.table.shared.exchange(seat, STATE, full);
        let None = left else { unreachable!() };
    }

    pub(crate) fn pass_turn_on(&self, seat: &mut DeskSeat<S>)
        requires here { seat.old.table_id ≡ self.now.table.shared.table_id }
        requires turn { MayPassOn S.entries S.author S.fixed seat.old.me }
        ensures here { seat.new.table_id ≡ seat.old.table_id }
        ensures idle { seat.new.me ≡ (in_role Idle seat.old.me.0, []) }
    {
        self.table
            .shared
            .fetch_add::<PassTurnOn<S>>(seat, SERVING, 1);
    }

    // The first seat has the parts of both.
    pub(crate) fn join_seat(&self, seat: &mut DeskSeat<S>, other: DeskSeat<S>)
        requires here { (seat.old.table_id ≡ self.now.table.shared.table_id)
            × (other.table_id ≡ self.now.table.shared.table_id) }
        requires idle { (seat.old.me.0.role ≡ Idle) × (other.me.0.role ≡ Idle) × (other.me.1 ≡ []) }
        ensures here { seat.new.table_id ≡ seat.old.table_id }
        ensures both { seat.new.me ≡ (joined seat.old.me.0 other.me.0, seat.old.me.1) }
    {
        self.table.shared.join_seat::<JoinSeat>(seat, other);
    }
}
