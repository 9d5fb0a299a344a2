//! Equations: a free variable, and what it has to be.
use crate::rests::Rest;
use rn_value::{Vals, Value};

/// A free variable, and what it has to be.
#[derive(Debug, Drop)]
pub(crate) struct Equation {
    pub(crate) var: usize,
    pub(crate) other: Other,
}

/// What a variable has to be.
#[derive(Debug, Drop)]
pub(crate) enum Other {
    /// What this id names.
    Here(usize),

    /// This value.
    Value(Value),

    /// A list of these values, which are what is left of a longer one.
    Values(Vals),

    /// What is left of a list of the store.
    Left(Rest),
}
