//! Going on with one of several tokens: with none the branch is given up, one is forced, and of
//! more one is chosen, from a first one on, round. That one may be given by a share of the tokens,
//! so that several workers begin apart, however many tokens a place has (`docs/WORKERS.md`,
//! 'Conflicts').
ghost use Rattle.rn_looking.specs.Looks.{IsAmong};

use rn_choices::Next;
use rn_search::Point;

/// From this number on, the number of the token with which choices begin says a share: so many of as
/// many parts of all tokens stand before that one.
pub const SHARES: usize = 16_777_216;

// With which of so many alternatives to begin.
fn begin_at(first: usize, of: usize) -> usize {
    if of == 0 {
        return 0;
    }
    if first < SHARES {
        return first % of;
    }
    let share = (first - SHARES) % SHARES;
    (share.wrapping_mul(of) / SHARES) % of
}

/// How to go on with one of so many alternatives of a point. Choices begin with this one, round.
pub(crate) fn among(point: Point, of: usize, first: usize) -> Next<Point>
    ensures { IsAmong point of result }
{
    if of == 0 {
        return Next::Stuck;
    }
    if of == 1 {
        return Next::Forced(point);
    }
    Next::Choose(point, of, begin_at(first, of))
}
