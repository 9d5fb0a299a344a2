//! The digits of numbers.
ghost use Rattle.std.specs.Prelude.{◌≡◌};
ghost use Rattle.rn_value.specs.Text.{numeral, whole_number};
ghost use Rattle.rn_window.specs.Windows.{after};

use itoa::Buffer;
use rn_window::Window;

/// Writes a whole number in decimal, as `-5`.
#[tactic(auto, using(crate::proofs::Numerals::numerals))]
pub fn put_int(n: i64, window: &mut Window)
    ensures { window.new ≡ after window.old (whole_number n) }
{
    let mut digits = Buffer::new();
    window.put(digits.format(n).as_bytes());
}

/// Writes the digits of a number that isn't negative, as `5`.
#[tactic(auto, using(crate::proofs::Numerals::numerals))]
pub fn put_numeral(n: u64, window: &mut Window)
    ensures { window.new ≡ after window.old (numeral n) }
{
    let mut digits = Buffer::new();
    window.put(digits.format(n).as_bytes());
}
