//! How the program reports the end of a run.
ghost use Rattle.std.specs.Prelude.{◌≡◌, ◌≢◌, None};
ghost use Rattle.rn_window.specs.Windows.{after};
ghost use Rattle.rn_commands.specs.Ends.{fault_line};
ghost use Rattle.rn_commands.specs.link.Closings.{closing_status, closing_line};
ghost use Rattle.rn_commands.specs.link.Ends.{IsClosedBy};

use crate::tallying::put_counted;
use rn_answering::{DONE, FAULTED, NO_MEMORY};
use rn_fire::SimState;
use rn_model::{Entry, FaultKind, Reason};
use rn_window::{Text, Window};

/// The end of a log, as far as its status and its line need it.
#[derive(Clone, Copy)]
pub(crate) enum Closing {
    /// Dead, or at the step limit.
    Done,
    /// For want of memory.
    Memory,
    /// The firing with this number is undefined.
    Fault(FaultKind, u64),
}

impl Closing {
    /// How a log that has ended is reported.
    pub(crate) fn of(state: &SimState) -> Closing
        requires { state.now.ended ≢ None }
        ensures { IsClosedBy state.now (closing_status result) (closing_line result) }
    {
        match state.entries().last() {
            // The end is the entry after the last firing.
            Some(Entry::End(Reason::Fault(cause, _))) => Closing::Fault(*cause, state.length()),
            Some(Entry::End(Reason::Memory)) => Closing::Memory,
            _ => Closing::Done,
        }
    }

    /// The status.
    pub(crate) fn status(self) -> u8
        ensures { result ≡ closing_status self }
    {
        match self {
            Closing::Done => DONE,
            Closing::Memory => NO_MEMORY,
            Closing::Fault(_, _) => FAULTED,
        }
    }
}

// The line of a firing that is undefined, which would have been the one with this number.
fn put_fault_line(cause: FaultKind, step: u64, window: &mut Window)
    ensures { window.new ≡ after window.old (fault_line cause step) }
{
    match cause {
        FaultKind::Action => put_counted(b"F1", step, window),
        FaultKind::Instances => put_counted(b"F2", step, window),
    }
}

impl Text for Closing {
    ghost text = { closing_line };

    fn put(&self, window: &mut Window) {
        match self {
            Closing::Done => {}
            Closing::Memory => window.put(b"memory\n"),
            Closing::Fault(cause, step) => put_fault_line(*cause, *step, window),
        }
    }
}
