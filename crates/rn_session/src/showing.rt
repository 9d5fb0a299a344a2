//! What `show` writes.
ghost use Rattle.std.specs.Prelude.{◌≡◌, OnOk};
ghost use Rattle.rn_served.specs.declared.requests.Request.TheVariants as Ask;
ghost use Rattle.rn_session.specs.link.Serving.{IsAnswered, names_at};

use crate::session::Session;
use rn_end_marking::live_part;
use rn_items::NoMemory;
use rn_record::put_marks;
use rn_value::Names;
use std::alloc::Global;

/// Answers `show`: the marks of what is live.
pub(crate) fn put_show(
    alloc: Global,
    session: &Session,
    names: &Names,
    out: &mut Vec<u8>,
) -> Result<(), NoMemory>
    requires { names.now ≡ names_at session.now }
    ensures { OnOk result (IsAnswered session.now Ask.Show out.old.items session.now out.new.items) }
{
    let state = session.state();
    let system = state.system();
    let marks = live_part(alloc, system, state.table())?;
    put_marks(alloc, system, 1, marks.as_slice(), names, out)?;
    out.extend_from_slice(b"ok\n")?;
    Ok(())
}
