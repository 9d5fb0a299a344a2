//! Laws over the texts of logs, each the contract of a function that does nothing.
ghost use Rattle.rn_state_record.specs.Laws.{EnabledHaveLines, LogsHaveText};

/// A log of a good system has a text, with the live part of the marking at its end. So has each
/// binding that is enabled at the end of a run.
pub fn logs_have_text()
    ensures logs { LogsHaveText }
    ensures enabled { EnabledHaveLines }
{}
