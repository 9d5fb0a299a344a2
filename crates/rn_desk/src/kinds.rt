//! The kinds of step that read or change a word. Each is a type, which says by a definition of
//! `specs/Steps` what such a step does to what its seat knows. The two others, which take the state
//! out of its slot and put it back, need none.
use crate::kept::Kept;
use crate::view::SeatView;
use atomic_table::{Join, Play, Split};
use std::marker::PhantomData;

pub(crate) struct SplitSeat;

impl<I, F> Split<SeatView<I, F>> for SplitSeat {
    ghost use Rattle.rn_desk.specs.Steps.{maker_after, made_seat};

    ghost left = { maker_after };

    ghost right = { made_seat };
}

pub(crate) struct DrawTicket<S> {
    of: PhantomData<S>,
}

impl<S: Kept> Play<Option<S>, SeatView<S::Item, S::Fixed>> for DrawTicket<S> {
    ghost use Rattle.rn_desk.specs.Steps.{Draws};

    ghost then = { Draws S.entries S.author S.fixed };
}

pub(crate) struct LookAtServing<S> {
    of: PhantomData<S>,
}

impl<S: Kept> Play<Option<S>, SeatView<S::Item, S::Fixed>> for LookAtServing<S> {
    ghost use Rattle.rn_desk.specs.Steps.{Looks};

    ghost then = { Looks S.entries S.author S.fixed };
}

pub(crate) struct CountEntry<S> {
    of: PhantomData<S>,
}

impl<S: Kept> Play<Option<S>, SeatView<S::Item, S::Fixed>> for CountEntry<S> {
    ghost use Rattle.rn_desk.specs.Steps.{Counts};

    ghost then = { Counts S.entries S.author S.fixed };
}

pub(crate) struct PassTurnOn<S> {
    of: PhantomData<S>,
}

impl<S: Kept> Play<Option<S>, SeatView<S::Item, S::Fixed>> for PassTurnOn<S> {
    ghost use Rattle.rn_desk.specs.Steps.{PassesOn};

    ghost then = { PassesOn S.entries S.author S.fixed };
}

pub(crate) struct JoinSeat;

impl<I, F> Join<SeatView<I, F>> for JoinSeat {
    ghost use Rattle.rn_desk.specs.Steps.{joined, spent};

    ghost both = { joined };

    ghost spent = { spent };
}
