//! Numbers, in digits.
ghost use Rattle.std.specs.Prelude.{◌≡◌, ◌↔◌, ◌≤◌, ◌-◌, ◌^◌, negsuc, nat_le, if◌then◌else◌};
ghost use Rattle.std.specs.Prelude.{IsTrue, IfOk, IfSome, Some, None};
ghost use Rattle.std.specs.List.{prefix_len};
ghost use Rattle.rn_value.specs.Characters.{is_digit, number_after};
ghost use Rattle.rn_value.specs.Grammar.{IsNumeral};
ghost use Rattle.rn_lines.specs.LineReading.{step_at, is_several, several_at};
ghost use Rattle.rn_lines.specs.Reading.{ReturnsRead, are_plain, numeral_at, whole_at};

use crate::unread::Unread;
use rn_value::is_digit;

/// The greatest whole number of a value.
const GREATEST: u64 = 9223372036854775807;

/// How many digits bytes begin with.
fn digits_length(bytes: &[u8]) -> usize
    ensures { result ≡ prefix_len is_digit bytes.now }
{
    for (i, byte) in bytes.iter().enumerate() {
        if !is_digit(*byte) {
            return i;
        }
    }
    bytes.len()
}

/// Whether digits are there, and begin with 0 only where it is the one digit.
fn are_plain(digits: &[u8]) -> bool
    ensures { result ≡ are_plain digits.now }
{
    match digits {
        [] => false,
        [_] => true,
        [first, ..] => *first != b'0',
    }
}

/// The number that digits spell, unless it is greater than this.
pub(crate) fn number_up_to(most: u64, digits: &[u8]) -> Option<u64>
    ensures exact { result ≡ (if nat_le (number_after 0 digits.now) most
        then Some (number_after 0 digits.now) else None) }
    ensures within { IfSome result (λ n. n ≤ most) }
{
    let mut number = 0u64;
    for digit in digits {
        let units = digit.saturating_sub(b'0') as u64;
        if most < units || (most - units) / 10 < number {
            return None;
        }
        number = number * 10 + units;
    }
    Some(number)
}

/// Whether bytes are the numeral of this number, as the step of a line may be.
pub fn is_numeral(number: u64, bytes: &[u8]) -> bool
    ensures { IsTrue result ↔ IsNumeral number bytes.now }
{
    if digits_length(bytes) < bytes.len() {
        return false;
    }
    if !are_plain(bytes) {
        return false;
    }
    match number_up_to(u64::MAX, bytes) {
        Some(spelled) => spelled == number,
        None => false,
    }
}

/// The numeral at the start of bytes, of a number up to this, and the bytes after it.
pub(crate) fn numeral_at(most: u64, bytes: &[u8]) -> Result<(u64, &[u8]), Unread>
    ensures exact { ReturnsRead (λ x. (x.0, x.1.now)) result (numeral_at most bytes.now) }
    ensures within { IfOk result (λ x. x.0 ≤ most) }
{
    let (digits, rest) = bytes.split_at(digits_length(bytes));
    if !are_plain(digits) {
        return Err(Unread::NotThere);
    }
    match number_up_to(most, digits) {
        Some(number) => Ok((number, rest)),
        None => Err(Unread::NotThere),
    }
}

/// The numeral at the start of bytes, of any length, and the bytes after it.
pub(crate) fn step_at(bytes: &[u8]) -> Result<(&[u8], &[u8]), Unread>
    ensures { ReturnsRead (λ x. (x.0.now, x.1.now)) result (step_at bytes.now) }
{
    let (digits, rest) = bytes.split_at(digits_length(bytes));
    if are_plain(digits) {
        Ok((digits, rest))
    } else {
        Err(Unread::NotThere)
    }
}

/// Whether digits are of a number from 2 on, where they are plain.
fn is_several(digits: &[u8]) -> bool
    ensures { result ≡ is_several digits.now }
{
    match digits {
        [] => false,
        [one] => b'1' < *one,
        _ => true,
    }
}

/// The same as `step_at`, of a number from 2 on.
pub(crate) fn several_at(bytes: &[u8]) -> Result<(&[u8], &[u8]), Unread>
    ensures { ReturnsRead (λ x. (x.0.now, x.1.now)) result (several_at bytes.now) }
{
    let (digits, rest) = step_at(bytes)?;
    if is_several(digits) {
        Ok((digits, rest))
    } else {
        Err(Unread::NotThere)
    }
}

/// The whole number below 0 that is this far from it.
fn below_zero(distance: u64) -> i64
    requires low { 1 ≤ distance }
    requires high { distance ≤ 2 ^ 63 }
    ensures { result ≡ negsuc (distance - 1) }
{
    -((distance - 1) as i64) - 1
}

/// The whole number at the start of bytes, and the bytes after it.
pub(crate) fn whole_at(bytes: &[u8]) -> Result<(i64, &[u8]), Unread>
    ensures { ReturnsRead (λ x. (x.0, x.1.now)) result (whole_at bytes.now) }
{
    match bytes {
        [b'-', digits @ ..] => {
            let (number, rest) = numeral_at(GREATEST + 1, digits)?;
            if number == 0 {
                return Err(Unread::NotThere);
            }
            Ok((below_zero(number), rest))
        }
        _ => {
            let (number, rest) = numeral_at(GREATEST, bytes)?;
            Ok((number as i64, rest))
        }
    }
}
