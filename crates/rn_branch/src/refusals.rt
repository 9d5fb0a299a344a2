//! How the last alternatives of a point went. It only decides when something is asked: how many of
//! the tokens that follow lack a known part. That goes through tokens, so it is asked after many
//! refusals, ever more rarely as long as it passes none (`docs/SEARCH.md`, 'A binding grows by
//! decisions').

/// After so many refusals it is asked how many of the next tokens lack a part that is known.
const FEW: usize = 8;

/// How many alternatives of a point were tried one after the other, which was the last, and whether
/// some were passed by between them.
#[derive(Clone, Copy, Debug)]
pub(crate) struct Refusals {
    count: usize,
    last: usize,
    passing: bool,
}

impl Refusals {
    pub(crate) fn none() -> Refusals {
        Refusals {
            count: 0,
            last: usize::MAX,
            passing: false,
        }
    }

    /// One more alternative is tried, of the same point or of another. It counts as refused: where it
    /// isn't, another point follows, or nothing goes on with it.
    pub(crate) fn with(self, alternative: usize, again: bool) -> Refusals {
        if !again {
            return Refusals {
                count: 1,
                last: alternative,
                passing: false,
            };
        }
        Refusals {
            count: self.count.saturating_add(1),
            last: alternative,
            passing: self.passing || alternative > self.last.saturating_add(1),
        }
    }

    /// Whether it is worth asking: there were many, and some were passed by before, or the number of
    /// refusals is a power of two, so that asking in vain costs little.
    pub(crate) fn are_many(self) -> bool {
        self.count >= FEW && (self.passing || self.count & (self.count - 1) == 0)
    }
}
