//! Whether a row is as it must be.
ghost use Rattle.std.specs.Prelude.{◌↔◌, IfOk, IsTrue};
ghost use Rattle.renew_rows.specs.Judging.{Agrees, IsOfRow, IsWrong};

use crate::calling::{Found, make};
use crate::row::{Row, Wanted};
use rn_items::NoMemory;
use std::alloc::Global;
use std::sync::Wait;
use std::thread::Threads;

/// How many bytes an output may hold besides those that are wanted.
const SPARE: usize = 4096;

/// Whether what came of a call is what is wanted.
pub(crate) fn agrees(found: &Found, wanted: &Wanted) -> bool
    ensures { IsTrue result ↔ Agrees found.now wanted.now }
{
    found.status == wanted.status
        && found.out.held() == wanted.out.as_slice()
        && found.err.held() == wanted.err.as_slice()
}

/// A row whose call was made.
#[derive(Drop)]
pub(crate) struct Judged {
    pub(crate) name: Vec<u8>,
    pub(crate) must_differ: bool,
    pub(crate) wanted: Wanted,
    pub(crate) found: Found,
}

/// Whether a row isn't as it must be: it differs, or must differ and agrees.
pub(crate) fn is_wrong(judged: &Judged) -> bool
    ensures { IsTrue result ↔ IsWrong judged.now }
{
    agrees(&judged.found, &judged.wanted) == judged.must_differ
}

/// Makes the call of a row.
pub(crate) fn judge<R: Threads + Wait + Sync>(
    rt: &R,
    alloc: Global,
    row: Row,
) -> Result<Judged, NoMemory>
    ensures { IfOk result (λ judged. IsOfRow row judged) }
{
    let out_room = row.wanted.out.len().saturating_add(SPARE);
    let err_room = row.wanted.err.len().saturating_add(SPARE);
    let found = make(rt, alloc, row.call, out_room, err_room)?;
    Ok(Judged {
        name: row.name,
        must_differ: row.must_differ,
        wanted: row.wanted,
        found,
    })
}
