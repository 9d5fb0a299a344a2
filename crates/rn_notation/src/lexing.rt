//! From bytes to tokens, up to the first fault.
ghost use Rattle.std.specs.Prelude.{◌≡◌, ◌↔◌, ◌≤◌, length, IfOk, IfSome, IfNone, Some, None};
ghost use Rattle.std.specs.List.{AllByRecursion};
ghost use Rattle.rn_notation.specs.Limits.{longest_text};
ghost use Rattle.rn_notation.specs.Spots.{spot_after};
ghost use Rattle.rn_notation.specs.Reading.{Tokens, FirstFault, IsReadingOf, fault_at};
ghost use Rattle.rn_notation.specs.Reading.{NoOthers, NoOthersBefore, ReportsFault, IsTokens};
ghost use Rattle.rn_notation.specs.Reading.{IsSlice, Ascend};

use crate::piece::Piece;
use crate::scanning::first_piece;
use crate::spots::{next_spot, spot_on};
use crate::token::{Cause, LexFault, Lexed, Spot};
use crate::tokens::Recent;
use crate::words::is_blank;
use rn_value::NoMemory;
use std::alloc::Global;

fn fault_at(cause: Cause, spot: Spot) -> LexFault
    ensures { result ≡ fault_at cause spot }
{
    match cause {
        Cause::P1 => LexFault::P1(spot),
        Cause::P3 => LexFault::P3(spot),
        Cause::P4 => LexFault::P4(spot),
        Cause::P7 => LexFault::P7(spot),
    }
}

/// Reads piece by piece, up to the first fault or the end.
fn read(alloc: Global, bytes: &[u8]) -> Result<Lexed, NoMemory>
    requires { length bytes.now ≤ longest_text }
    ensures reads { IfOk result (λ lexed. IsReadingOf bytes.now lexed.tokens lexed.fault) }
    ensures end { IfOk result (λ lexed. lexed.end ≡ spot_after bytes.now) }
{
    let mut tokens = crate::tokens::Tokens::new(alloc);
    let mut recent = Recent::new(alloc)?;
    let mut spot = Spot { line: 1, column: 1 };
    let mut rest = bytes;
    while let Some((first, others)) = rest.split_first() {
        if is_blank(*first) {
            spot = next_spot(spot, *first);
            rest = others;
            continue;
        }
        let piece = first_piece(alloc, rest)?;
        let (prefix, after) = piece.cut(rest);
        let next = spot_on(spot, prefix);
        match piece {
            Piece::Gap(_) => {
                spot = next;
                rest = after;
            }
            Piece::Token(kind, _) => {
                let start = bytes.len() - rest.len();
                let end = start + prefix.len();
                tokens.push(&mut recent, kind, (start, end), spot)?;
                spot = next;
                rest = after;
            }
            Piece::Fault(cause, _) => {
                return Ok(Lexed {
                    tokens,
                    fault: Some(fault_at(cause, next)),
                    end: spot_on(next, after),
                });
            }
        }
    }
    Ok(Lexed {
        tokens,
        fault: None,
        end: spot,
    })
}

/// The tokens of a text before its first fault, and that fault.
pub fn lex(alloc: Global, bytes: &[u8]) -> Result<Lexed, NoMemory>
    requires { length bytes.now ≤ longest_text }
    // Without a fault, the text is these tokens, and no others.
    ensures tokens { IfOk result (λ lexed. IfNone lexed.fault (Tokens bytes.now lexed.tokens)) }
    ensures only { IfOk result (λ lexed. NoOthers bytes.now lexed.tokens) }
    // Where there is a fault, it is the first, after these tokens, and no others.
    ensures fault { IfOk result (λ lexed. IfSome lexed.fault (FirstFault bytes.now lexed.tokens)) }
    ensures only_before { IfOk result (λ lexed. NoOthersBefore bytes.now lexed.tokens) }
    // A fault is reported exactly where the text has it, and none exactly where the text is tokens.
    ensures fault_exactly { IfOk result (λ lexed. ReportsFault bytes.now lexed.fault) }
    ensures none_exactly { IfOk result (λ lexed. (lexed.fault ≡ None) ↔ IsTokens bytes.now) }
    // Each token's text is its slice, and the slices stand one after the other.
    ensures slices { IfOk result (λ lexed. AllByRecursion (IsSlice bytes.now) lexed.tokens) }
    ensures ascend { IfOk result (λ lexed. Ascend 0 lexed.tokens (length bytes.now)) }
    ensures end { IfOk result (λ lexed. lexed.end ≡ spot_after bytes.now) }
{
    let lexed = read(alloc, bytes)?;
    Ok(lexed)
}
