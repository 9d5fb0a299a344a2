//! What stays the same in a state.
use rn_model::{Options, System};

/// A system and the options with which it is run. It serves contracts alone.
#[derive(Drop)]
pub struct Setup {
    pub system: System,
    pub options: Options,
}
