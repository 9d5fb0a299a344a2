//! Whether a value mentions one of some instances.
ghost use Rattle.std.specs.Prelude.{◌≡◌, false, [], ◌∷◌, map, nat_eq};
ghost use Rattle.rn_model.specs.Liveness.{mentions};
ghost use Rattle.rn_parted.specs.link.Walks.{Avoids, TestsAvoid};

use indexmap::IndexSet;
use rn_value::{InstRef, Value};

/// Whether an instance occurs in a value that is one of these, and not the one that doesn't count.
/// It goes as deep as the value nests.
#[cycle(touch)]
pub(crate) fn touches(value: &Value, found: &IndexSet<u32>, but: u32) -> bool
    ensures { result ≡ false → Avoids found.now.keys but value.now }
{
    match value {
        Value::Int(_) => false,
        Value::Text(_) => false,
        Value::Tuple(parts) => one_touches(parts.as_slice(), found, but),
        Value::List(parts) => one_touches(parts.as_slice(), found, but),
        Value::Inst(InstRef::Old(number)) => is_other(*number, found, but),
        Value::Inst(InstRef::New(_, _)) => false,
    }
}

#[cycle(touch)]
fn one_touches(values: &[Value], found: &IndexSet<u32>, but: u32) -> bool
    ensures { result ≡ false → TestsAvoid found.now.keys but (map mentions values.now) }
{
    for value in values {
        if touches(value, found, but) {
            return true;
        }
    }
    false
}

// Whether a number is one of these, and not the one that doesn't count.
fn is_other(number: u32, found: &IndexSet<u32>, but: u32) -> bool
    ensures { result ≡ false → TestsAvoid found.now.keys but (nat_eq number ∷ []) }
{
    number != but && found.contains(&number)
}
