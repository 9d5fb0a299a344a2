//! What is certified, as functions hand it on.
use crate::headed::Headed;
use rn_model::{Binding, System};

/// A binding that is given, its system, and its nodes beside their heads.
#[derive(Clone, Copy)]
pub(crate) struct Subject<'a> {
    pub(crate) system: &'a System,
    pub(crate) binding: &'a Binding,
    pub(crate) headed: &'a [Headed<'a>],
}
