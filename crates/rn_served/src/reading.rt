//! Reading the lines of a session.
ghost use Rattle.std.specs.Prelude.{◌≡◌, ◌∷◌, ◌<◌, [], length, IfSome, IfNone};
ghost use Rattle.std.specs.List.{list_all};
ghost use Rattle.rn_value.specs.Characters.{is_digit};
ghost use Rattle.rn_served.specs.Lines.{are_digits, lines_of, number_of, request_of, with_number};

use crate::requests::Request;
use rn_lines::first_line;
use rn_value::is_digit;

/// The first line of bytes, without its line feed, and what stands after it.
pub fn next_line(bytes: &[u8]) -> Option<(&[u8], &[u8])>
    ensures some { IfSome result (λ x. lines_of bytes.now ≡ x.0.now ∷ lines_of x.1.now) }
    ensures less { IfSome result (λ x. length x.1.now < length bytes.now) }
    ensures none { IfNone result (lines_of bytes.now ≡ []) }
{
    if bytes.is_empty() {
        return None;
    }
    match first_line(bytes) {
        Some(found) => Some(found),
        None => Some((bytes, &[])),
    }
}

fn all_digits(bytes: &[u8]) -> bool
    ensures { result ≡ list_all is_digit bytes.now }
{
    for byte in bytes {
        if !is_digit(*byte) {
            return false;
        }
    }
    true
}

fn are_digits(bytes: &[u8]) -> bool
    ensures { result ≡ are_digits bytes.now }
{
    1 <= bytes.len() && bytes.len() <= 6 && all_digits(bytes)
}

fn number_of(bytes: &[u8]) -> Option<u64>
    ensures { result ≡ number_of bytes.now }
{
    if !are_digits(bytes) {
        return None;
    }
    let mut number = 0u64;
    for digit in bytes {
        number = number * 10 + (*digit - b'0') as u64;
    }
    Some(number)
}

// What a word with one space and a number asks for.
fn with_number(word: &[u8], number: u64) -> Request
    ensures { result ≡ with_number word.now number }
{
    if word == b"fire ".as_slice() {
        return Request::Fire(number);
    }
    if word == b"undo ".as_slice() {
        return Request::Undo(number);
    }
    Request::Wrong
}

/// What a line asks for.
pub fn request_of(line: &[u8]) -> Request
    ensures { result ≡ request_of line.now }
{
    if line == b"list".as_slice() {
        return Request::List;
    }
    if line == b"show".as_slice() {
        return Request::Show;
    }
    let (word, digits) = line.split_at(line.len().min(5));
    match number_of(digits) {
        Some(number) => with_number(word, number),
        None => Request::Wrong,
    }
}
