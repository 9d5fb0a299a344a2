//! What lines of moves are written by, as functions hand it on.
use rn_model::System;
use rn_value::Names;

/// What the moves of a log are written by: its system, and the nets and the names of the log's
/// instances, from number 1 on.
#[derive(Clone, Copy)]
pub(crate) struct Writer<'a> {
    pub(crate) system: &'a System,
    pub(crate) nets: &'a [u32],
    pub(crate) names: &'a Names,
}
