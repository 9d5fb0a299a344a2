//! What a look at some things of a node came to: all is decided, what is left waits, or the search
//! goes on. Beside how it goes on stands as how many alternatives that counts, so looks at several
//! things are put together by keeping the one that counts as fewest (`docs/SEARCH.md`, 'What it
//! does next').
use rn_choices::Next;
use rn_search::Point;

/// What a look at some things that are asked came to.
#[derive(Clone, Copy, Debug)]
pub enum Look {
    /// All of them are decided.
    Done,

    /// Some aren't, and none of those may come in.
    Waits,

    /// The search can go on so, or stops. It counts as so many alternatives: the fewer, the sooner.
    Goes(Next<Point>, usize),
}
