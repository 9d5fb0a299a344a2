//! The names of the nets of the instances that were made so far.
ghost use Rattle.std.specs.Prelude.{◌≡◌, ◌≤◌, IfOk, OnOk, length, take};
ghost use Rattle.rn_session.specs.link.Serving.{AreNamesBefore, names_at};

use crate::session::Session;
use rn_items::NoMemory;
use rn_value::Names;
use std::alloc::Global;

/// A copy of the first so many names.
pub(crate) fn first_of(alloc: Global, names: &Names, count: u32) -> Result<Names, NoMemory>
    requires { count ≤ length names.now }
    ensures { IfOk result (λ copied. copied ≡ take count names.now) }
{
    let mut copied = Names::new(alloc);
    for k in 0..count {
        if let Some(name) = names.get(k + 1) {
            copied.push(alloc, name)?;
        }
    }
    Ok(copied)
}

/// Takes back the names of instances that aren't made any more. Nothing is copied where there are none.
pub(crate) fn cut_names(alloc: Global, session: &Session, names: &mut Names) -> Result<(), NoMemory>
    requires { AreNamesBefore session.now names.old }
    ensures { OnOk result (names.new ≡ names_at session.now) }
{
    let count = session.state().table().next() - 1;
    if (count as usize) < names.len() {
        *names = first_of(alloc, names, count)?;
    }
    Ok(())
}
