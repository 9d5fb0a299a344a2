//! Words of 64 bits as sets of numbers below 64.
ghost use Rattle.std.specs.Prelude.{◌≡◌, ◌≢◌, ◌<◌, ◌≤◌, ◌-◌, ◌^◌, ℕ, List, length, true, false};
ghost use Rattle.rn_value.specs.declared.value.Value.{Value};
ghost use Rattle.rn_bag.specs.Slots.{there_from};
ghost use Rattle.rn_bag.specs.Words.{has_bit};

/// How many numbers a word has room for.
pub const ROOM: usize = 64;

/// Whether a number is in the set.
pub fn is_in(word: u64, number: usize) -> bool
    requires { number < ROOM }
    ensures { result ≡ has_bit word number }
{
    (word >> number) & 1 == 1
}

/// The set with one more number.
pub fn with_bit(word: u64, number: usize) -> u64
    requires { number < ROOM }
    ensures there { has_bit result number ≡ true }
    ensures others { (i : ℕ) → i ≢ number → has_bit result i ≡ has_bit word i }
{
    word | (1 << number)
}

/// The set without a number.
pub fn without_bit(word: u64, number: usize) -> u64
    requires { number < ROOM }
    ensures gone { has_bit result number ≡ false }
    ensures others { (i : ℕ) → i < ROOM → i ≢ number → has_bit result i ≡ has_bit word i }
{
    word & !(1 << number)
}

/// The set of the numbers below this one.
pub fn all_below(end: usize) -> u64
    requires { end ≤ ROOM }
    ensures each { (i : ℕ) → i < end → has_bit result i ≡ true }
    ensures value { result ≡ 2 ^ end - 1 }
{
    if end == 0 {
        0
    } else {
        u64::MAX >> (ROOM - end)
    }
}

/// How many numbers below this one are in the set, as many as it chooses from a list of this length.
pub fn count(word: u64, end: usize) -> usize
    requires { end ≤ ROOM }
    ensures chosen { (vs : List Value) → length vs ≡ end → length (there_from (has_bit word) 0 vs) ≡ result }
    ensures bound { result ≤ ROOM }
{
    (word & all_below(end)).count_ones() as usize
}

/// The least number of the set that is at least this one, or 64 where there is none.
pub fn first_from(word: u64, number: usize) -> usize
    requires { number < ROOM }
    ensures bound { result ≤ ROOM }
    ensures later { number ≤ result }
    ensures none { (i : ℕ) → number ≤ i → i < result → has_bit word i ≡ false }
    ensures there { result < ROOM → has_bit word result ≡ true }
{
    let rest = word & (u64::MAX << number);
    if rest == 0 {
        return ROOM;
    }
    rest.trailing_zeros() as usize
}

/// The least number that isn't in the set and is at least this one, or 64 where there is none.
pub fn first_absent_from(word: u64, number: usize) -> usize
    requires { number < ROOM }
    ensures bound { result ≤ ROOM }
    ensures later { number ≤ result }
    ensures present { (i : ℕ) → number ≤ i → i < result → has_bit word i ≡ true }
    ensures absent { result < ROOM → has_bit word result ≡ false }
{
    first_from(!word, number)
}
