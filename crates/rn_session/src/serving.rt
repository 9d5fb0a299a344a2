//! A whole session.
ghost use Rattle.std.specs.Prelude.{◌≡◌, IfOk, OnOk};
ghost use Rattle.rn_model.specs.Good.{Good, IsInLimits};
ghost use Rattle.rn_served.specs.Entries.{nothing};
ghost use Rattle.rn_served.specs.Lines.{lines_of};
ghost use Rattle.rn_served.specs.Served.{Served};
ghost use Rattle.rn_session.specs.link.Serving.{ServesAll, names_at};

use crate::answering::answer;
use crate::session::{Session, open_session};
use rn_items::NoMemory;
use rn_model::{Options, System};
use rn_record::first_names;
use rn_served::{next_line, request_of};
use rn_value::Names;
use std::alloc::Global;
use std::sync::Arc;

// Answers lines, one after the other.
fn answer_all(
    alloc: Global,
    session: &mut Session,
    names: &mut Names,
    lines: &[u8],
    out: &mut Vec<u8>,
) -> Result<(), NoMemory>
    requires { names.old ≡ names_at session.old }
    ensures { OnOk result (ServesAll session.old lines.now out.old.items out.new.items) }
{
    let mut rest = lines;
    while let Some((line, after)) = next_line(rest) {
        answer(alloc, session, names, request_of(line), out)?;
        rest = after;
    }
    Ok(())
}

/// The text of all answers to these lines.
///
/// ```text
/// 1 main[1].t x=1
/// 2 main[1].t x=2
/// ok 2
/// ```
pub fn serve(
    alloc: Global,
    system: Arc<System>,
    options: Options,
    lines: &[u8],
) -> Result<Vec<u8>, NoMemory>
    requires good { Good system.value }
    requires limits { IsInLimits options }
    ensures { IfOk result (λ text. Served system.value options (lines_of lines.now) nothing
        text.items) }
{
    let mut session = open_session(alloc, system, options)?;
    let mut names = first_names(alloc)?;
    let mut out = Vec::new(alloc);
    answer_all(alloc, &mut session, &mut names, lines, &mut out)?;
    Ok(out)
}
