//! Where a searcher looks beside where it found something last, and what that may cost. Else what
//! was found last would fire as long as it can, and all others would wait. Exploring is paid for by
//! searches that found something, and one dear start may not use up all of that (`docs/SEARCH.md`,
//! 'Everyone gets a turn').

/// How much searches that found something have to cost for exploring to cost one.
const PRICE: u64 = 10;

/// The same where starts are drawn.
const DRAWN: u64 = 1;

/// What is earned before the first search where starts are drawn.
const ADVANCE: u64 = 32;

/// What is saved for exploring at most, unless the last search cost more.
const SAVED: u64 = 2560;

/// What exploring a start may cost at least.
const LEAST: u64 = 16;

/// A place among all starts, which goes round, and what exploring costs and may cost.
///
/// In each round a start may cost as much as all those together that weren't cut off in the round
/// before; in each second round twice as much, in each fourth four times, and so on. So light starts
/// keep their turns, and heavy ones are reached in rarer rounds.
#[derive(Clone, Copy, Debug)]
pub(crate) struct Explorer {
    pub number: u32,
    transition: u32,

    /// How many starts were explored.
    count: u64,

    /// What a start may cost in this round.
    limit: u64,
    round: u64,

    /// What the starts of this round cost that weren't cut off.
    finished: u64,
    earned: u64,
    spent: u64,

    /// How much has to be earned for exploring to cost one.
    price: u64,

    /// What a search from home costs, by those that were done, the last one most.
    usual: u64,
}

// The largest power of two that divides a number, up to 2^30.
fn power_in(number: u64) -> u64 {
    let mut power: u64 = 1;
    for _ in 0..30 {
        let next = power.saturating_mul(2);
        if number.checked_rem(next) != Some(0) {
            return power;
        }
        power = next;
    }
    power
}

impl Explorer {
    /// At the first start, and nothing is earned yet. The number tells several explorers apart.
    pub(crate) fn new(count: u64) -> Explorer {
        Explorer {
            number: 0,
            transition: 0,
            count,
            limit: LEAST,
            round: 1,
            finished: 0,
            earned: 0,
            spent: 0,
            price: PRICE,
            usual: LEAST,
        }
    }

    /// Starts are drawn, and exploring may cost as much as the searches that find something would cost
    /// at home.
    pub(crate) fn drawing() -> Explorer {
        Explorer {
            earned: ADVANCE,
            price: DRAWN,
            ..Explorer::new(0)
        }
    }

    /// Whether something is left to be spent.
    pub(crate) fn has_credit(self) -> bool {
        self.spent < self.earned
    }

    /// A search found something, and cost so much.
    pub(crate) fn earn(&mut self, cost: u64) {
        self.earned = self.earned.saturating_add(cost);
        let most = SAVED.max(cost);
        self.spent = self.spent.max(self.earned.saturating_sub(most));
    }

    /// The full search from home found something, and cost so much.
    pub(crate) fn earn_at_home(&mut self, cost: u64) {
        self.earn(cost);
        self.usual = self.usual.saturating_mul(3).saturating_add(cost) / 4;
    }

    /// Something was found at a start that was drawn, and cost so much. That earns what it would have
    /// cost at home, and costs what it took beyond.
    pub(crate) fn note_drawn(&mut self, cost: u64) {
        self.earn(cost.min(self.usual));
        self.pay(cost.saturating_sub(self.usual));
    }

    /// So much was spent on exploring.
    pub(crate) fn pay(&mut self, cost: u64) {
        self.spent = self.spent.saturating_add(cost.saturating_mul(self.price));
    }

    /// The transition with which it looks at an instance.
    pub(crate) fn transition_at(self, number: u32) -> u32 {
        if number == self.number {
            self.transition
        } else {
            0
        }
    }

    /// A number of its own for the next start.
    pub(crate) fn next_count(&mut self) -> u64 {
        self.count = self.count.wrapping_add(1);
        self.count
    }

    // What a start may cost now, where the limit is this: no more than half of all that was earned for
    // exploring.
    fn most_of(self, limit: u64) -> u64 {
        let half = self.earned.checked_div(self.price.saturating_mul(2));
        limit.min(half.unwrap_or(0)).max(LEAST)
    }

    /// What a start may cost now.
    pub(crate) fn most(self) -> u64 {
        self.most_of(self.limit)
    }

    /// What a start that is drawn may cost, by a number that is drawn too: the more, the more rarely.
    pub(crate) fn most_drawn(self, word: u32) -> u64 {
        let power = power_in(word as u64 | 1073741824);
        self.most_of(power.saturating_mul(4 * LEAST))
    }

    /// A start was explored, to its end or not.
    pub(crate) fn note(&mut self, cost: u64, is_whole: bool) {
        self.pay(cost);
        if is_whole {
            self.finished = self.finished.saturating_add(cost);
        }
    }

    pub(crate) fn stand_at(&mut self, number: u32, transition: u32) {
        self.number = number;
        self.transition = transition;
    }

    /// It goes on with an instance.
    pub(crate) fn pass_to(&mut self, number: u32) {
        self.stand_at(number, 0);
        self.pay(1);
    }

    /// It goes on behind the transitions of an instance.
    pub(crate) fn pass_instance(&mut self, number: u32) {
        self.pass_to(number.saturating_add(1));
    }

    /// It goes on behind a transition of an instance.
    pub(crate) fn pass(&mut self, number: u32, transition: u32) {
        self.stand_at(number, transition.saturating_add(1));
        self.pay(1);
    }

    /// It begins with the first start again.
    pub(crate) fn end_round(&mut self) {
        self.stand_at(0, 0);
        self.pay(1);
        self.round = self.round.wrapping_add(1);
        self.limit = self
            .finished
            .max(LEAST)
            .saturating_mul(power_in(self.round));
        self.finished = 0;
    }
}
