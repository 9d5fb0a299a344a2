//! Whether a binding that is given has the shape, and whether it agrees.
#![tactic(auto)]

mod agreement;
mod calls;
mod inscriptions;
mod links;
mod lookup;
mod mentions;
mod nodes;
mod shape;

pub use agreement::does_agree;
pub use lookup::{child_index, child_on, node_index, node_on};
pub use mentions::awaits_action;
pub use shape::has_shape;
