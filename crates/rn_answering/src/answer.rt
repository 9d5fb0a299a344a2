//! What a command comes to.
ghost use Rattle.std.specs.Prelude.{◌≡◌};
ghost use Rattle.rn_answering.specs.Refusing as refusing;

use crate::status::DONE;
use rn_items::Items;
use std::alloc::Global;

/// What a command comes to: the status, the text for `out`, and the line for `err`, which is empty
/// where there is nothing to say.
#[derive(Debug, Drop)]
pub struct Answer {
    pub status: u8,
    pub text: Items<u8>,
    pub line: Items<u8>,
}

/// The answer of a command that is done.
pub fn done(alloc: Global, text: Vec<u8>) -> Answer
    ensures { result ≡ refusing.done text.items }
{
    Answer {
        status: DONE,
        text: Items::from_vec(text),
        line: Items::from_vec(Vec::new(alloc)),
    }
}

/// The answer of a command that is refused: a status with its line.
pub fn refused(alloc: Global, status: u8, line: Items<u8>) -> Answer
    ensures { result ≡ refusing.refusal status line }
{
    Answer {
        status,
        text: Items::from_vec(Vec::new(alloc)),
        line,
    }
}
