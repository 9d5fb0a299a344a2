//! Lines of a text, one at a time.
ghost use Rattle.std.specs.Prelude.{◌≡◌, ◌≢◌, ◌<◌, ◌∷◌, ◌++◌, [], All, IfSome};
ghost use Rattle.std.specs.Prelude.{length, MatchOption};
ghost use Rattle.renew_rows.specs.Lines.{lines_of};

/// The lines of a text that aren't taken yet, and how many are.
#[derive(Clone, Copy)]
pub(crate) struct Lines<'a> {
    pub(crate) rest: &'a [u8],
    pub(crate) taken: usize,
}

// What stands before the first such byte, and after it. Without one there is nothing after it.
fn parted(byte: u8, text: &[u8]) -> (&[u8], Option<&[u8]>)
    ensures parts { MatchOption result.1 (result.0.now ≡ text.now)
        (λ after. text.now ≡ result.0.now ++ byte ∷ after.now) }
    ensures before { All (λ c. c ≢ byte) result.0.now }
{
    for (i, c) in text.iter().enumerate() {
        if *c == byte {
            let (before, _) = text.split_at(i);
            let (_, after) = text.split_at(i + 1);
            return (before, Some(after));
        }
    }
    (text, None)
}

/// The first word of a line, and what stands after the blank behind it, where there is one.
pub(crate) fn word_and_rest(line: &[u8]) -> (&[u8], Option<&[u8]>)
    ensures parts { MatchOption result.1 (result.0.now ≡ line.now)
        (λ rest. line.now ≡ result.0.now ++ 32 ∷ rest.now) }
    ensures word { All (λ c. c ≢ 32) result.0.now }
{
    parted(b' ', line)
}

impl<'a> Lines<'a> {
    /// The lines of this text.
    pub(crate) fn of(text: &'a [u8]) -> Lines<'a>
        ensures { result.rest.now ≡ text.now }
    {
        Lines {
            rest: text,
            taken: 0,
        }
    }

    /// The next line, and the lines after it.
    #[tactic(auto, using(crate::proofs::LineLemmas::first_lines))]
    pub(crate) fn first(&self) -> Option<(&'a [u8], Lines<'a>)>
        ensures lines { MatchOption result (lines_of self.now.rest.now ≡ [])
            (λ x. lines_of self.now.rest.now ≡ x.0.now ∷ lines_of x.1.rest.now) }
        ensures shorter { IfSome result (λ x.
            length x.1.rest.now < length self.now.rest.now) }
    {
        if self.rest.is_empty() {
            return None;
        }
        let taken = self.taken.saturating_add(1);
        let (line, after) = parted(b'\n', self.rest);
        match after {
            Some(rest) => Some((line, Lines { rest, taken })),
            None => Some((line, Lines { rest: &[], taken })),
        }
    }
}
