//! A choice that a search met, and the order in which its alternatives are tried.

ghost use Rattle.std.specs.Prelude.{◌≡◌, ◌+◌, ◌-◌, ◌<◌, ◌≤◌};
ghost use Rattle.rn_choices.specs.Turns.{turned};

/// A choice that was met, and how far it has gone.
#[derive(Clone, Copy, Debug)]
pub struct Choice<S> {
    /// How many decisions stood before it.
    pub mark: usize,
    /// Where it is.
    pub site: S,
    /// How many alternatives it has: the numbers below this.
    pub of: usize,
    /// The alternative that is tried first. The others follow it, round.
    pub first: usize,
    /// How many alternatives were tried.
    pub tried: usize,
    /// How far the next choice begins behind where it would.
    pub lag: u64,
}

impl<S> Choice<S> {
    /// The alternative after the one that was tried last, round.
    pub fn following(&self) -> usize
        ensures { 0 < self.now.of → result < self.now.of }
    {
        match self.first.wrapping_add(self.tried).checked_rem(self.of) {
            Some(alternative) => alternative,
            None => 0,
        }
    }

    /// Whether the alternatives were tried to the last number, or round from there.
    pub fn is_round(&self) -> bool {
        self.first.wrapping_add(self.tried) >= self.of
    }
}

/// The alternative that is tried as the `turn`-th of `of`, from 0.
pub fn turn_round(first: usize, of: usize, turn: usize) -> usize
    requires first { first ≤ of }
    requires turn { turn < of }
    ensures { result ≡ turned first of turn }
{
    let after_first = of - first;
    if turn < after_first {
        first + turn
    } else {
        turn - after_first
    }
}

/// The turn after so many alternatives from the one of a turn on, but not past the last alternative,
/// after which the first follows.
pub(crate) fn turn_after(turn: usize, passed: usize, alternative: usize, of: usize) -> usize
    requires some { 0 < passed }
    requires turn { turn < of }
    requires alternative { alternative < of }
    ensures later { turn < result }
    ensures passed { result ≤ turn + passed }
    ensures last { result ≤ turn + (of - alternative) }
{
    turn.saturating_add(passed.min(of - alternative))
}

/// The alternative to begin with: `start`, where there is one of that number.
pub fn start_at(start: usize, of: usize) -> usize
    ensures { result ≤ of }
{
    if start < of { start } else { 0 }
}

/// The alternative so many behind one, round, and what of the number is left for the next choice:
/// alternatives of choices are its digits, the first choice's last.
pub(crate) fn behind(start: usize, of: usize, lag: u64) -> (usize, u64)
    requires { start ≤ of }
    ensures { result.0 ≤ of }
{
    if lag == 0 || of == 0 {
        return (start, lag);
    }
    let digit = (lag % of as u64) as usize;
    if digit < of - start {
        (start + digit, lag / of as u64)
    } else {
        (digit - (of - start), lag / of as u64)
    }
}
