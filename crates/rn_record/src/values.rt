//! Values of a run, where each instance has its number.
ghost use Rattle.std.specs.Prelude.{◌≡◌};
ghost use Rattle.rn_value.specs.declared.value.InstRef.{InstRef};
ghost use Rattle.rn_value.specs.Text.{inst_text, value_text};
ghost use Rattle.rn_window.specs.Windows.{after};

use rn_spell::{Naming, put_value};
use rn_value::Value;
use rn_window::Window;

/// Writes a value, where names number each instance as it is.
pub(crate) fn put_numbered<N: Naming>(value: &Value, names: &N, window: &mut Window)
    requires { (i : InstRef) → inst_text (N.names names.now) (N.renamed names.now i)
        ≡ inst_text (N.names names.now) i }
    ensures { window.new ≡ after window.old (value_text value.now (N.names names.now)) }
{
    put_value(value, names, window);
}
