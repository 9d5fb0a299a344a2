//! What the actions of a firing give: what is printed, what is put, and the instances that it makes.
#![tactic(auto)]

mod acting;
mod acts;
mod changes;
mod creations;
mod laws;
mod outputs;

pub use acts::{Acted, act};
pub use changes::change_of;
pub use creations::{gives_too_many, nets_made};
pub use laws::{
    firings_may_come, numbering_keeps_creations, numbering_keeps_kinds, numbering_keeps_nodes,
};
