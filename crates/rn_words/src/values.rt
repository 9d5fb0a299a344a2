//! Values of options: numbers of one to six digits, within limits, or what `--pick` names.
ghost use Rattle.std.specs.Prelude.{◌≡◌, ◌≤◌, ◌<◌, length, IsTrue};
ghost use Rattle.std.specs.List.{list_all};
ghost use Rattle.rn_value.specs.Characters.{is_digit, number_after};
ghost use Rattle.rn_words.specs.Values.{is_number, value_within, value_of};

use crate::chosen::OptionValue;
use crate::table::{Setting, least, most, pick_named};
use rn_value::is_digit;

/// The most digits of a number.
const MOST_DIGITS: usize = 6;

// The number that at most six digits spell.
fn number_of(digits: &[u8]) -> u32
    requires few { length digits.now ≤ MOST_DIGITS }
    requires digits { IsTrue (list_all is_digit digits.now) }
    ensures { result ≡ number_after 0 digits.now }
{
    let mut number = 0u32;
    for digit in digits {
        number = number * 10 + (*digit - b'0') as u32;
    }
    number
}

// Whether all bytes are digits.
fn are_digits(word: &[u8]) -> bool
    ensures { result ≡ list_all is_digit word.now }
{
    for byte in word {
        if !is_digit(*byte) {
            return false;
        }
    }
    true
}

// Whether a word is one to six digits.
fn is_number(word: &[u8]) -> bool
    ensures { result ≡ is_number word.now }
{
    1 <= word.len() && word.len() <= MOST_DIGITS && are_digits(word)
}

/// The number that a word spells, where it is one within these limits.
pub(crate) fn value_within(least: u32, most: u32, word: &[u8]) -> Option<u32>
    ensures { result ≡ value_within least most word.now }
{
    if !is_number(word) {
        return None;
    }
    let number = number_of(word);
    if least <= number && number <= most {
        Some(number)
    } else {
        None
    }
}

/// The value of an option that a word spells.
pub(crate) fn value_of(setting: Setting, word: &[u8]) -> Option<OptionValue>
    ensures { result ≡ value_of setting word.now }
{
    match setting {
        Setting::Pick => pick_named(word).map(OptionValue::Picks),
        _ => value_within(least(setting), most(setting), word).map(OptionValue::Number),
    }
}
