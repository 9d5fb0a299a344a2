//! A whole text into a sink.
ghost use Rattle.std.specs.Prelude.{◌≡◌, ◌<◌, ◌≤◌, [], length, OnOk, OnErr};
ghost use Rattle.rn_outside.specs.Bytes.{Appends, AppendsPrefix, IsCalledSeldom};
ghost use Rattle.rn_outside.specs.Faults.{Rose, risen};
ghost use Rattle.rn_window.specs.Windows.{top};

use crate::pouring::{flush, pour};
use rn_outside::{Sink, WriteFault};
use rn_window::{Text, Window};

/// Writes a text into a sink by pieces of the window's room, which is empty before and after. It
/// stops at the first write that fails. It takes no memory.
pub fn write_text<T: Text, O: Sink>(
    text: &T,
    window: &mut Window,
    sink: &mut O,
) -> Result<(), WriteFault>
    requires room { 0 < window.old.room }
    requires short { length (T.text text.now) < top }
    ensures all { OnOk result (Appends (O.held sink.old) (T.text text.now) (O.held sink.new)) }
    ensures prefix { OnErr result
        (AppendsPrefix (O.held sink.old) (T.text text.now) (O.held sink.new)) }
    ensures cause { OnErr result (Rose (O.faults sink.old) (O.faults sink.new)) }
    ensures one_fault { OnErr result (O.faults sink.new ≡ risen (O.faults sink.old)) }
    ensures no_fault { OnOk result (O.faults sink.new ≡ O.faults sink.old) }
    ensures seldom { IsCalledSeldom (O.held sink.old) (O.held sink.new)
        (O.writes sink.old) (O.writes sink.new) }
    ensures none_empty { O.empty_writes sink.new ≡ O.empty_writes sink.old }
    ensures room { window.new.room ≡ window.old.room }
{
    window.begin(0, 0);
    pour(text, window, sink)?;
    flush(window, sink)
}
