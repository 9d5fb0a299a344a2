//! What a line writes, whatever it asks for.
ghost use Rattle.std.specs.Prelude.{◌≡◌, ◌++◌, OnOk};
ghost use Rattle.rn_served.specs.Served.{no_text, ok_text};
ghost use Rattle.rn_served.specs.declared.requests.Request.TheVariants as Ask;
ghost use Rattle.rn_session.specs.link.Serving.{HasLast, IsAnswered, last_text, names_at, refusal_of};

use crate::listing::put_list;
use crate::naming::cut_names;
use crate::session::Session;
use crate::showing::put_show;
use rn_items::NoMemory;
use rn_record::put_entry;
use rn_served::{FireAnswer, Request};
use rn_value::{Names, write_numeral};
use std::alloc::Global;

fn put_ok(out: &mut Vec<u8>) -> Result<(), NoMemory>
    ensures { OnOk result (out.new.items ≡ out.old.items ++ ok_text) }
{
    out.extend_from_slice(b"ok\n")?;
    Ok(())
}

fn put_no(alloc: Global, number: u32, out: &mut Vec<u8>) -> Result<(), NoMemory>
    ensures { OnOk result (out.new.items ≡ out.old.items ++ no_text number) }
{
    out.extend_from_slice(b"no ")?;
    write_numeral(alloc, number as u64, out)?;
    out.extend_from_slice(b"\n")?;
    Ok(())
}

// Why a firing was refused, where it was.
fn refusal_of(answer: FireAnswer) -> Option<u32>
    ensures { result ≡ refusal_of answer }
{
    match answer {
        FireAnswer::Refused(number) => Some(number),
        FireAnswer::Fired { .. } | FireAnswer::Faulted => None,
    }
}

// The lines of the last entry. The instances that it made get their names.
fn put_last(
    alloc: Global,
    session: &Session,
    names: &mut Names,
    out: &mut Vec<u8>,
) -> Result<(), NoMemory>
    requires { HasLast session.now names.old }
    ensures names { OnOk result (names.new ≡ names_at session.now) }
    ensures text { OnOk result (out.new.items ≡ out.old.items ++ last_text session.now names.old) }
{
    let state = session.state();
    let step = state.length();
    match state.entries().last() {
        Some(entry) => put_entry(alloc, state.system(), step, entry, names, out),
        None => unreachable!(),
    }
}

// Answers `fire`.
fn put_fire(
    alloc: Global,
    session: &mut Session,
    names: &mut Names,
    k: u64,
    out: &mut Vec<u8>,
) -> Result<(), NoMemory>
    requires { names.old ≡ names_at session.old }
    ensures names { OnOk result (names.new ≡ names_at session.new) }
    ensures text { OnOk result (IsAnswered session.old (Ask.Fire k) out.old.items session.new
        out.new.items) }
{
    let fired = session.fire(alloc, k)?;
    match refusal_of(fired) {
        Some(number) => put_no(alloc, number, out),
        None => {
            // For its clause: what is left is the state of a session (`IsSession`).
            let _state = session.state();
            put_last(alloc, session, names, out)?;
            put_ok(out)
        }
    }
}

// Answers `undo`.
fn put_undo(
    alloc: Global,
    session: &mut Session,
    names: &mut Names,
    k: u64,
    out: &mut Vec<u8>,
) -> Result<(), NoMemory>
    requires { names.old ≡ names_at session.old }
    ensures names { OnOk result (names.new ≡ names_at session.new) }
    ensures text { OnOk result (IsAnswered session.old (Ask.Undo k) out.old.items session.new
        out.new.items) }
{
    if session.undo(k)? {
        cut_names(alloc, session, names)?;
        return put_ok(out);
    }
    put_no(alloc, 4, out)
}

/// Answers a line that asks for this.
pub(crate) fn answer(
    alloc: Global,
    session: &mut Session,
    names: &mut Names,
    request: Request,
    out: &mut Vec<u8>,
) -> Result<(), NoMemory>
    requires { names.old ≡ names_at session.old }
    ensures names { OnOk result (names.new ≡ names_at session.new) }
    ensures text { OnOk result (IsAnswered session.old request out.old.items session.new
        out.new.items) }
{
    match request {
        Request::List => put_list(alloc, session, names, out),
        Request::Fire(k) => put_fire(alloc, session, names, k, out),
        Request::Show => put_show(alloc, session, names, out),
        Request::Undo(k) => put_undo(alloc, session, names, k, out),
        Request::Wrong => put_no(alloc, 5, out),
    }
}
