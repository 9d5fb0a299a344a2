//! What the words of the command line give.
use rn_model::Options;

/// A command with its options. Options that a command doesn't take have their defaults.
#[derive(Clone, Copy, Debug, PartialEq, Eq)]
pub enum Command {
    /// Run a net text and write the run.
    Run(Options),
    /// The same, each firing being the first binding that is enabled there.
    RunLeast(Options),
    /// Run a net text with this seed, and write the run.
    RunSeeded(Options, u32),
    /// Check a net text.
    Check,
    /// Write the canonical text of a net text.
    Print,
    /// Write the bindings that are enabled at the start, within this depth.
    Enabled(u32),
    /// Run a record again.
    Replay(Options),
    /// Run the workload text of so many workers.
    Gen(u32, Options),
    /// The same with this seed.
    GenSeeded(u32, Options, u32),
    /// Step through a net text by lines.
    Session(Options),
    /// Write how many bindings are enabled after each firing of the least run.
    Counts(Options),
    /// Write what each firing of a record took and put.
    Moves(Options),
    /// Write the reference net that stands for a weighted net.
    Pt,
    /// Write a net text of notation 1, and its record, in notation 2.
    Migrate,
}

/// The first bad word, by its number from 1.
#[derive(Clone, Copy, Debug, PartialEq, Eq)]
pub enum WordsFault {
    /// There is no word, or the first is no command. The number is 1.
    U1(usize),
    /// Where an option may stand, the word is none that the command takes, it is given again, or it
    /// can't stand beside the options before it.
    U2(usize),
    /// A value is missing, isn't one of the option, is out of range, or can't stand beside the options
    /// before it. The number of a missing one is one more than that of the last word.
    U3(usize),
}
