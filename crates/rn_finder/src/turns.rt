//! Whose turn it is: where a searcher goes on. Home stands still while a guest fires, so the full
//! search goes on later from where it was. Where what was found came too late to fire, the guest
//! goes, or else home is elsewhere, so that it isn't found again at once (`docs/SEARCH.md`,
//! 'Everyone gets a turn').
ghost use Rattle.std.specs.Prelude.{◌<◌};

use crate::drawing::Draws;
use crate::explorer::Explorer;
use crate::hint::{Hint, Start};
use rn_choices::Choice;
use rn_search::Point;
use rn_table::Table;

/// What the explorer found, which fires as long as it can.
#[derive(Clone, Copy, Debug)]
pub(crate) struct Guest {
    pub hint: Hint,

    /// What a search there may cost.
    pub most: u64,
}

/// Where a searcher goes on.
#[derive(Drop)]
pub(crate) struct Turns {
    /// Where the full search goes round.
    pub home: Hint,

    /// Where the explorer found something last, as long as something is found there.
    pub guest: Option<Guest>,
    pub explorer: Explorer,

    /// The start of the binding that was found last.
    last: Option<(u32, u32)>,

    /// With a seed, from what it is drawn where the explorer looks.
    draws: Option<Draws>,
}

impl Turns {
    /// Home is there. The number tells several searchers apart.
    pub(crate) fn new(home: Hint, count: u64) -> Turns {
        Turns {
            home,
            guest: None,
            explorer: Explorer::new(count),
            last: None,
            draws: None,
        }
    }

    /// Home is there, and it is drawn where the explorer looks.
    pub(crate) fn drawing(home: Hint, draws: Draws) -> Turns {
        Turns {
            home,
            guest: None,
            explorer: Explorer::drawing(),
            last: None,
            draws: Some(draws),
        }
    }

    /// Whether it is drawn where the explorer looks.
    pub(crate) fn draws(&self) -> bool {
        self.draws.is_some()
    }

    /// The number of an instance from which a firing may start, where there is one and it is drawn.
    pub(crate) fn drawn_instance(&mut self, table: &Table) -> Option<u32> {
        match &mut self.draws {
            Some(draws) => draws.instance(table),
            None => None,
        }
    }

    /// A transition of so many.
    pub(crate) fn drawn_transition(&mut self, count: u32) -> u32
        requires { 0 < count }
        ensures { result < count }
    {
        match &mut self.draws {
            Some(draws) => draws.below(count),
            None => 0,
        }
    }

    /// Whether the binding that was found last starts with this transition of this instance.
    pub(crate) fn is_last(&self, number: u32, transition: u32) -> bool {
        match self.last {
            Some((n, t)) => n == number && t == transition,
            None => false,
        }
    }

    /// Where the explorer looks at a start: at other tokens each time, and at home as home does. With
    /// a seed that is drawn.
    pub(crate) fn explored(&mut self, number: u32, transition: u32) -> Hint {
        if let Some(draws) = &mut self.draws {
            return draws.hint(number, transition);
        }
        self.explorer.stand_at(number, transition.saturating_add(1));
        let count = self.explorer.next_count();
        if self.home.is_at(number, transition) {
            return self.home;
        }
        Hint::explored(number, transition, count)
    }

    /// What exploring a start may cost.
    pub(crate) fn most(&mut self) -> u64 {
        match &mut self.draws {
            Some(draws) => self.explorer.most_drawn(draws.word()),
            None => self.explorer.most(),
        }
    }

    /// A start was explored, to its end or not. With a seed a start where something was found costs
    /// little.
    pub(crate) fn note(&mut self, cost: u64, is_whole: bool, is_found: bool) {
        if is_found && self.draws() {
            self.explorer.note_drawn(cost);
        } else {
            self.explorer.note(cost, is_whole);
        }
    }

    /// The full search found something there.
    pub(crate) fn settle(&mut self, number: u32, transition: u32, choice: Option<&Choice<Point>>) {
        self.home = self.home.after(number, transition, choice);
        self.last = Some((number, transition));
    }

    /// Something was found where a hint says, and cost so much: that is the guest, unless it is home.
    pub(crate) fn stay(&mut self, hint: Hint, cost: u64, choice: Option<&Choice<Point>>) {
        let next = hint.after(hint.number, hint.transition, choice);
        self.last = Some((hint.number, hint.transition));
        if self.home.is_at(hint.number, hint.transition) {
            self.home = next;
            self.guest = None;
        } else {
            self.guest = Some(Guest {
                hint: next,
                most: cost.saturating_mul(2).saturating_add(64),
            });
        }
    }

    /// Home and the explorer are there, and there is no guest.
    pub(crate) fn go_to(&mut self, home: Hint) {
        self.guest = None;
        self.explorer.stand_at(home.number, home.transition);
        self.home = home;
    }

    /// What was found last came too late. Where the guest found it, there is no guest any more; else
    /// home is at this start.
    pub(crate) fn go_beside(&mut self, start: Start) {
        match self.guest {
            Some(_) => self.guest = None,
            None => self.home = Hint::at(start, self.home.lap),
        }
    }
}
