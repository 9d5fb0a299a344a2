//! Calls that are numbered from 1.
ghost use Rattle.std.specs.Prelude.{◌↔◌, ◌+◌, IsTrue, Contains};

// Whether the call that comes after so many is one of those listed. A call past number 2^64 - 1
// isn't, whatever they are.
pub(crate) fn is_listed(numbers: &[u64], calls: u64) -> bool
    ensures { IsTrue result ↔ Contains numbers.now (calls + 1) }
{
    match calls.checked_add(1) {
        Some(number) => numbers.contains(&number),
        None => false,
    }
}
