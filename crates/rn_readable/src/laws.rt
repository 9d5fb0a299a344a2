//! The law, the contract of a function that does nothing.
ghost use Rattle.rn_readable.specs.Laws.{LogsAreReadable};

/// All values of a log of an accepted net text, and of the marks of what is live at its end, can
/// be read again from a record: whole numbers have 64 bits, texts are UTF-8, and at most 128
/// brackets are open at once.
pub fn logs_are_readable()
    ensures { LogsAreReadable }
{}
