//! Drawing where a searcher looks next, with a seed. The draws begin with the seed and the
//! searcher's number, so the numbers drawn are the same each time that these are. They decide where
//! a searcher looks beside its full search, and never whether a marking is dead (`docs/SEARCH.md`,
//! 'Everyone gets a turn').
ghost use Rattle.std.specs.Prelude.{◌<◌};

use crate::hint::Hint;
use rand_core::utils::NextWord;
use rand_pcg::Pcg32;
use rn_table::Table;

/// How many numbers are drawn at most until one is that of an instance from which a firing may start.
const TRIES: u32 = 4;

/// How far it goes on, where all of these miss.
const STRIDE: u32 = 8;

/// What is drawn from: a generator of random numbers; and the instance that was drawn last.
#[derive(Drop)]
pub(crate) struct Draws {
    words: Pcg32,
    number: u32,
}

// The first instance from which a firing may start, of those from a number on, round.
fn next_starting(table: &Table, from: u32) -> Option<u32> {
    match table.first_starting(from) {
        Some(number) => Some(number),
        None => table.first_starting(0),
    }
}

impl Draws {
    /// The generator begins with a seed and a searcher's number.
    pub(crate) fn new(seed: u32, number: u32) -> Draws {
        Draws {
            words: Pcg32::new(seed as u64, number as u64),
            number: 0,
        }
    }

    /// A number of 32 bits.
    pub(crate) fn word(&mut self) -> u32 {
        self.words.next_word()
    }

    /// A number below an end.
    pub(crate) fn below(&mut self, end: u32) -> u32
        requires { 0 < end }
        ensures { result < end }
    {
        self.word() % end
    }

    // An instance from which a firing may start, by its number, where the draws hit one.
    fn hit(&mut self, table: &Table) -> Option<u32> {
        let end = table.next();
        if end == 0 {
            return None;
        }
        for _ in 0..TRIES {
            let number = self.below(end);
            if table.net_of(number).is_some() && table.first_starting(number) == Some(number) {
                return Some(number);
            }
        }
        None
    }

    /// An instance from which a firing may start, where there is one. Where most numbers are those of
    /// no such instance, it goes on some instances behind the one that was drawn last, so that each
    /// comes as often, whatever stands before it.
    pub(crate) fn instance(&mut self, table: &Table) -> Option<u32> {
        if let Some(number) = self.hit(table) {
            self.number = number;
            return Some(number);
        }
        for _ in 0..self.below(STRIDE) {
            self.number = next_starting(table, self.number.saturating_add(1))?;
        }
        self.number = next_starting(table, self.number)?;
        Some(self.number)
    }

    /// With which tokens choices begin at a start.
    pub(crate) fn hint(&mut self, number: u32, transition: u32) -> Hint {
        let share = self.word();
        let lap = self.word();
        Hint::at_share(number, transition, share as u64, lap as u64)
    }
}
