//! Certified bindings.
#![tactic(auto)]

mod applications;
mod bringing;
mod call;
mod candidate;
mod certifying;
mod derived;
mod edges;
mod equations;
mod event;
mod forcing;
mod headed;
mod part;
mod parts;
mod propagating;
mod subject;

pub use applications::{Application, applications_of};
pub use candidate::{Candidate, NotSound};
pub use certifying::certify;
