//! What lines ask for, and what `fire` answers.

/// What a line of a session asks for.
#[derive(Clone, Copy, Debug, PartialEq, Eq)]
pub enum Request {
    /// `list`: the enabled bindings.
    List,

    /// `fire K`: the firing of the K-th of them.
    Fire(u64),

    /// `show`: the marks.
    Show,

    /// `undo K`: the last K entries are taken back.
    Undo(u64),

    /// It has none of these forms.
    Wrong,
}

/// What a session answers to `fire`.
#[derive(Clone, Copy, Debug, PartialEq, Eq)]
pub enum FireAnswer {
    /// The firing was done, as the one with this number.
    Fired { step: u64 },

    /// The firing is undefined, and the run has ended so.
    Faulted,

    /// Nothing changed: no enabled binding has this number (1), the step limit is reached (2), or the
    /// run has ended (3).
    Refused(u32),
}
