//! The end of a log.
ghost use Rattle.std.specs.Prelude.{◌≡◌, ◌≢◌, None, Some, IfSome, length};
ghost use Rattle.rn_model.specs.declared.log.Entry.TheVariants as EntryIs;
ghost use Rattle.rn_fire.specs.States.{IsState};
ghost use Rattle.rn_replay.specs.link.Parts.{IsEnd};
ghost use Rattle.rn_commands.specs.Ends.{end_line, end_word};

use rn_fire::SimState;
use rn_model::{Entry, FaultKind, Reason};

// The reason of an entry that is an end.
fn reason_of(entry: &Entry) -> &Reason
    requires { IsEnd entry.now }
    ensures { entry.now ≡ EntryIs.End result.now }
{
    match entry {
        Entry::End(reason) => reason,
        Entry::Fire {
            worker: _,
            binding: _,
            outs: _,
        } => unreachable!(),
    }
}

/// Why a log that has ended did.
pub(crate) fn end_reason(state: &SimState) -> &Reason
    requires { state.now.ended ≢ None }
    ensures { state.now.ended ≡ Some result.now }
{
    match state.entries().last() {
        Some(entry) => reason_of(entry),
        None => unreachable!(),
    }
}

/// How many firings a log that has ended has. The end is the entry after the last of them.
pub(crate) fn fired_count(state: &SimState) -> u64
    requires { state.now.ended ≢ None }
    ensures count { result ≡ length state.now.fired }
    ensures state { IsState state.now }
{
    state.length().saturating_sub(1)
}

/// The end in one word.
pub(crate) fn end_word(reason: &Reason) -> &'static [u8]
    ensures { result.now ≡ end_word reason.now }
{
    match reason {
        Reason::Dead => b"dead",
        Reason::Steps => b"steps",
        Reason::Fault(_, _) => b"fault",
        Reason::Memory => b"memory",
    }
}

/// The first line of the end of a log.
pub(crate) fn end_line(state: &SimState) -> &'static [u8]
    ensures { IfSome state.now.ended (λ reason. result.now ≡ end_line reason) }
{
    match state.entries().last() {
        Some(Entry::End(Reason::Steps)) => b"end steps\n",
        Some(Entry::End(Reason::Memory)) => b"end memory\n",
        Some(Entry::End(Reason::Fault(FaultKind::Action, _))) => b"end fault action\n",
        Some(Entry::End(Reason::Fault(FaultKind::Instances, _))) => b"end fault instances\n",
        _ => b"end dead\n",
    }
}
