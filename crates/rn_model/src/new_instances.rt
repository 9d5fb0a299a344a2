//! Which values refer to instances that are still to be made.
ghost use Rattle.std.specs.Prelude.{◌≡◌, map};
ghost use Rattle.std.specs.List.{list_any};
ghost use Rattle.rn_model.specs.SoundTokens.{holds_new};

use rn_value::{InstRef, Value};

/// Whether a new instance occurs in a value.
#[cycle(looking)]
pub(crate) fn holds_new(value: &Value) -> bool
    ensures { result ≡ holds_new value.now }
{
    match value {
        Value::Int(_) | Value::Text(_) => false,
        Value::Tuple(parts) => any_holds_new(parts.as_slice()),
        Value::List(elements) => any_holds_new(elements.as_slice()),
        Value::Inst(inst) => matches!(inst, InstRef::New(_, _)),
    }
}

#[cycle(looking)]
fn any_holds_new(values: &[Value]) -> bool
    ensures { result ≡ list_any (λ h. h) (map holds_new values.now) }
{
    for value in values {
        if holds_new(value) {
            return true;
        }
    }
    false
}
