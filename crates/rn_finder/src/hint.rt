//! Where a search begins: with an instance, a transition and a token, from which it goes round. So
//! it leaves nothing out, whatever it says. Each searcher begins elsewhere, since several that find
//! the same binding can't all fire it (`docs/WORKERS.md`, 'Conflicts').
use rn_branch::SHARES;
use rn_choices::Choice;
use rn_search::Point;
use rn_table::Inst;

/// Where a searcher is told to go on: at the instance of a number, with a transition of it and a
/// token. Each may be any number.
#[derive(Clone, Copy, Debug)]
pub struct Start {
    pub number: u32,
    pub transition: u32,
    pub token: usize,
}

/// Where a search begins: at the instance of a number, by a transition of it, and each choice of a
/// token with one of them. It goes on from there, round.
#[derive(Clone, Copy, Debug, PartialEq, Eq)]
pub(crate) struct Hint {
    pub number: u32,
    pub transition: u32,
    pub token: usize,

    /// How often the first choice has gone round. The choices behind it begin so far behind.
    pub lap: u64,
}

/// A start that is searched: a transition of an instance, and where the search begins.
#[derive(Clone, Copy)]
pub(crate) struct KeptStart<'a> {
    pub inst: &'a Inst,
    pub transition: u32,
    pub hint: Hint,
}

impl Hint {
    /// What a number says: its last 20 bits are the instance's, the 20 before them the transition's,
    /// the others the token's.
    pub(crate) fn of(start: u64) -> Hint {
        Hint {
            number: (start % 1048576) as u32,
            transition: (start / 1048576 % 1048576) as u32,
            token: (start / 1048576 / 1048576) as usize,
            lap: 0,
        }
    }

    /// At this start, and the choices behind the first so far behind.
    pub(crate) fn at(start: Start, lap: u64) -> Hint {
        Hint {
            number: start.number,
            transition: start.transition,
            token: start.token,
            lap,
        }
    }

    /// What one of so many searchers begins with, of a number from 1 on: the first transition of the
    /// first instance, and its own share of the tokens.
    pub(crate) fn of_share(number: u32, count: u32) -> Hint {
        let before = (number as usize).saturating_sub(1).wrapping_mul(SHARES);
        let share = before.checked_div(count as usize).unwrap_or(0);
        Hint {
            number: 0,
            transition: 0,
            token: SHARES.wrapping_add(share),
            lap: 0,
        }
    }

    /// Where a searcher of a number from 1 on goes on beside those of the numbers before it: at its own
    /// share of so many instances and of the tokens.
    ///
    /// The share begins at a part of the whole, which has the bits of the number in reverse order: at
    /// none of it, a half, a quarter, three quarters and so on. So the first 2, 4 or 8 searchers stand
    /// equally far from each other.
    pub(crate) fn among(number: u32, instances: u32) -> Hint {
        let part = number.wrapping_sub(1).reverse_bits() as u64;
        Hint {
            number: (part.wrapping_mul(instances as u64) / 4294967296) as u32,
            transition: 0,
            token: SHARES.wrapping_add(part as usize / 256),
            lap: 0,
        }
    }

    /// At a start, with a share of the tokens, and the choices behind the first so far behind.
    pub(crate) fn at_share(number: u32, transition: u32, share: u64, lap: u64) -> Hint {
        Hint {
            number,
            transition,
            token: SHARES.wrapping_add(share as usize),
            lap,
        }
    }

    /// Where the explorer begins at a start: with other tokens at each number.
    pub(crate) fn explored(number: u32, transition: u32, count: u64) -> Hint {
        let share = count.wrapping_mul(11400714819323198485) / 1099511627776;
        let lap = count.wrapping_mul(15111042398283466643) / 1099511627776;
        Hint::at_share(number, transition, share, lap)
    }

    /// Whether it begins with this transition of this instance.
    pub(crate) fn is_at(self, number: u32, transition: u32) -> bool {
        self.number == number && self.transition == transition
    }

    /// The transition with which an instance begins.
    pub(crate) fn first_of(self, number: u32) -> u32 {
        if number == self.number {
            self.transition
        } else {
            0
        }
    }

    /// Where the next search begins, after a binding was found that starts with this transition of
    /// this instance: behind the token that was taken by the first choice, where there was one.
    pub(crate) fn after(
        self,
        number: u32,
        transition: u32,
        choice: Option<&Choice<Point>>,
    ) -> Hint {
        let (token, lap) = match choice {
            Some(choice) => {
                let lap = self.lap.wrapping_add(choice.is_round() as u64);
                (choice.following(), lap)
            }
            None => (self.token, self.lap),
        };
        Hint {
            number,
            transition,
            token,
            lap,
        }
    }
}
