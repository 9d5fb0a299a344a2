//! Numbers in decimal digits.
ghost use Rattle.std.specs.Prelude.{IfSome};
ghost use Rattle.renew_rows.specs.Numbers.{SpellsNumber};

use rn_value::is_digit;

/// The number that digits spell, where there are some and it is below 2^64.
pub(crate) fn number_of(digits: &[u8]) -> Option<u64>
    ensures { IfSome result (λ n. SpellsNumber digits.now n) }
{
    if digits.is_empty() {
        return None;
    }
    let mut number = 0u64;
    for digit in digits {
        if !is_digit(*digit) {
            return None;
        }
        let tens = number.checked_mul(10)?;
        number = tens.checked_add((*digit - b'0') as u64)?;
    }
    Some(number)
}
