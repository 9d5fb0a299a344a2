//! What stands first in a text.
ghost use Rattle.std.specs.Prelude.{◌≡◌};
ghost use Rattle.rn_notation.specs.link.Scanning.{IsFirstPiece, CutsInto, size_of};

use crate::token::{Cause, TokenKind};

/// What stands first in a text, with the number of its bytes. Those of a fault stand before its
/// spot.
#[derive(Debug, Drop)]
pub(crate) enum Piece {
    Gap(usize),
    Token(TokenKind, usize),
    Fault(Cause, usize),
}

impl Piece {
    fn size(&self) -> usize
        ensures { result ≡ size_of self.now }
    {
        match self {
            Piece::Gap(size) | Piece::Token(_, size) | Piece::Fault(_, size) => *size,
        }
    }

    /// The bytes of the piece that stands first in a text, and those after it.
    #[tactic(auto, using(crate::proofs::ReadingLemmas::cutting))]
    pub(crate) fn cut<'a>(&self, text: &'a [u8]) -> (&'a [u8], &'a [u8])
        requires { IsFirstPiece text.now self.now }
        ensures { CutsInto self.now text.now result.0.now result.1.now }
    {
        text.split_at(self.size())
    }
}
