//! When it is cheaper to bring what is known up to date than to look again. To follow a change goes
//! through the changed instances and their tokens, so it is left where that is more than it spares,
//! or where a change reached half of what is known. No promise rests on it (`docs/SEARCH.md`, 'What
//! is searched again').
use rn_table::Table;

/// Up to so many instances are looked at again each time.
pub(crate) const FEW: u32 = 16;

// For each instance that is known, so many instances and tokens may be gone through.
const LIGHT: u64 = 64;

// For so many looks in a row nothing is known, at most.
const LONGEST: u32 = 31;

// What one instance is worth that needn't be looked at, in instances and tokens that are gone through.
const WORTH: u64 = 4;

// What following a change costs beside what is gone through.
const LEAST: u64 = 16;

/// How many instances are known, and for how many looks nothing is to be known: twice as many and one
/// each time that a change reached half of what was known.
#[derive(Clone, Copy)]
pub(crate) struct LookPace {
    known: u32,
    pause: u32,
    rest: u32,
}

impl LookPace {
    pub(crate) fn new() -> LookPace {
        LookPace {
            known: 0,
            pause: 0,
            rest: 0,
        }
    }

    /// One instance more is known.
    pub(crate) fn pass(&mut self) {
        self.known = self.known.saturating_add(1);
    }

    /// So many instances are known. It returns how many more these are than before.
    pub(crate) fn know(&mut self, count: u32) -> u32 {
        let more = count.saturating_sub(self.known);
        self.known = count;
        more
    }

    /// No instance is known.
    pub(crate) fn forget(&mut self) {
        self.known = 0;
    }

    /// Whether what is known is to be brought up to date.
    pub(crate) fn is_due(&mut self) -> bool {
        if self.rest > 0 {
            self.rest -= 1;
            return false;
        }
        self.known >= FEW
    }

    /// How many instances and tokens may be gone through for it.
    pub(crate) fn most(&self) -> u64 {
        self.known as u64 * LIGHT
    }

    /// Nothing is to be known for twice as many looks and one.
    pub(crate) fn rest_longer(&mut self) {
        self.pause = self.pause.saturating_mul(2).saturating_add(1).min(LONGEST);
        self.rest = self.pause;
    }

    /// Whether nothing is to be known at the next look.
    pub(crate) fn rests(&self) -> bool {
        self.rest > 0
    }

    /// A change may have reached so many instances.
    pub(crate) fn count(&mut self, reached: usize) {
        if reached as u64 >= self.known as u64 / 2 {
            self.rest_longer();
        } else {
            self.pause = 0;
        }
    }
}

/// What following changes may cost: as much as looks in vain cost that it may spare.
#[derive(Clone, Copy)]
pub(crate) struct Credit {
    saved: u64,
}

impl Credit {
    pub(crate) fn new() -> Credit {
        Credit { saved: 0 }
    }

    /// So many instances were looked at in vain, or needn't be looked at. So many are known.
    pub(crate) fn earn(&mut self, spared: u64, known: u32) {
        if spared == 0 {
            return;
        }
        self.saved = self
            .saved
            .saturating_add(spared.saturating_mul(WORTH))
            .min((known as u64).saturating_mul(LIGHT));
    }

    /// How many instances and tokens may be gone through.
    pub(crate) fn left(&self) -> u64 {
        self.saved.saturating_sub(LEAST)
    }

    /// So many were gone through.
    pub(crate) fn pay(&mut self, weight: u64) {
        self.saved = self.saved.saturating_sub(weight.saturating_add(LEAST));
    }
}

// One for an instance, and one for each of its tokens.
fn size_of(table: &Table, number: u32) -> u64 {
    let mut size: u64 = 1;
    for place in 0..u32::MAX {
        let Some(bag) = table.bag(number, place) else {
            break;
        };
        size = size.saturating_add(bag.len() as u64);
    }
    size
}

// How many these instances and their tokens are, where they are at most so many.
fn weight_of(table: &Table, numbers: &[u32], most: u64) -> Option<u64> {
    let mut size: u64 = 0;
    for number in numbers {
        size = size.saturating_add(size_of(table, *number));
        if size > most {
            return None;
        }
    }
    Some(size)
}

// The same of all instances.
fn weight_of_all(table: &Table, most: u64) -> Option<u64> {
    let mut size: u64 = 0;
    for number in 1..table.next() {
        size = size.saturating_add(size_of(table, number));
        if size > most {
            return None;
        }
    }
    Some(size)
}

/// How many instances and tokens have to be gone through for the holders, where these are at most so
/// many: the changed instances, or all where no holders are held.
pub(crate) fn weight_within(table: &Table, changed: &[u32], held: bool, most: u64) -> Option<u64> {
    if held {
        weight_of(table, changed, most)
    } else {
        weight_of_all(table, most)
    }
}
