//! The statuses with which the program ends.

/// The command is done.
pub const DONE: u8 = 0;
/// The net text is refused, or the input is too long.
pub const NET_REFUSED: u8 = 1;
/// The words are refused. Nothing is read.
pub const WORDS_REFUSED: u8 = 2;
/// The log of the run ended in a firing that is undefined.
pub const FAULTED: u8 = 3;
/// A read failed.
pub const READ_FAULT: u8 = 4;
/// A write failed.
pub const WRITE_FAULT: u8 = 5;
/// Memory ran out.
pub const NO_MEMORY: u8 = 6;
/// The record isn't that of a run of the system.
pub const RECORD_REFUSED: u8 = 7;
