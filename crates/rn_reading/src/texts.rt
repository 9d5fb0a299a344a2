//! Whole texts.
ghost use Rattle.std.specs.Prelude.{◌≡◌};
ghost use Rattle.rn_reading.specs.Texts.{WholeOf, IsStopAt, IsDeepAt, after_tokens};

use crate::cursor::next;
use crate::fault::{ReadFault, TextFault};
use rn_notation::Lexed;

/// What comes after the last token: the fault in the text, or its end.
fn after_tokens(lexed: &Lexed) -> TextFault
    ensures { result ≡ after_tokens lexed.now.fault lexed.now.end }
{
    match lexed.fault {
        Some(fault) => TextFault::Lexical(fault),
        None => TextFault::Stopped(lexed.end),
    }
}

/// What is reported where reading stops at an index.
fn stopped_at(lexed: &Lexed, at: usize) -> TextFault
    ensures { IsStopAt lexed.now at result }
{
    match next(&lexed.tokens, at) {
        Some(token) => TextFault::Stopped(token.spot),
        None => after_tokens(lexed),
    }
}

/// What is reported where the token at an index goes too far.
fn too_far_at(lexed: &Lexed, at: usize) -> TextFault
    ensures { IsDeepAt lexed.now at result }
{
    match next(&lexed.tokens, at) {
        Some(token) => TextFault::TooFar(token.spot),
        None => after_tokens(lexed),
    }
}

/// The answer for a whole text, from what was read of its tokens from the first on: a phrase with
/// the index after it, or why there is none.
///
/// A phrase is the answer where no token comes after it, and no fault.
pub fn whole<A: Drop>(lexed: &Lexed, read: Result<(A, usize), ReadFault>) -> Result<A, TextFault>
    ensures { WholeOf lexed.now read result }
{
    match read {
        Ok((phrase, end)) => match next(&lexed.tokens, end) {
            Some(token) => Err(TextFault::Stopped(token.spot)),
            None => match lexed.fault {
                Some(fault) => Err(TextFault::Lexical(fault)),
                None => Ok(phrase),
            },
        },
        Err(ReadFault::Stopped(at)) => Err(stopped_at(lexed, at)),
        Err(ReadFault::TooFar(at)) => Err(too_far_at(lexed, at)),
        Err(ReadFault::NoMemory(no_memory)) => Err(TextFault::NoMemory(no_memory)),
    }
}
