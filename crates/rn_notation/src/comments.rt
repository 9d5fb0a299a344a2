//! Comments.
ghost use Rattle.std.specs.Prelude.{◌≡◌, true};
ghost use Rattle.rn_notation.specs.Words.{opens_comment};
ghost use Rattle.rn_notation.specs.link.Scanning.{IsFirstPiece};

use crate::chars::{first_char, plain_run};
use crate::piece::Piece;
use crate::token::Cause;

pub(crate) fn opens_comment(text: &[u8]) -> bool
    ensures { result ≡ opens_comment text.now }
{
    matches!(text, [b'/', b'/', ..])
}

/// The comment at the start of a text, up to the next line feed or the end.
pub(crate) fn comment_piece(text: &[u8]) -> Piece
    requires { opens_comment text.now ≡ true }
    ensures { IsFirstPiece text.now result }
{
    let (_, inside) = text.split_at(2);
    let (_, start) = plain_run(inside);
    let mut rest = start;
    while let Some((first, _)) = rest.split_first() {
        if *first == b'\n' {
            return Piece::Gap(text.len() - rest.len());
        }
        let Some((_, more)) = first_char(rest) else {
            return Piece::Fault(Cause::P4, text.len() - rest.len());
        };
        let (_, after) = plain_run(more);
        rest = after;
    }
    Piece::Gap(text.len())
}
