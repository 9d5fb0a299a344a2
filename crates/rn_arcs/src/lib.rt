//! What the arcs of a binding ask of the places, and whether a table meets it.
#![tactic(auto)]

mod ask;
mod asked;
mod collecting;
mod counting;
mod demands;
mod filling;
mod fitting;
mod grouping;
mod holding;
mod room;
mod rows;
mod seat;
mod values;

pub use demands::{Demands, Fill, Fills, Place2, Places2, Takings};
pub use filling::may_put;
pub use fitting::fits;
pub use holding::{bag_at, held, left};
pub use rows::{demands_of, takings_of};
pub use values::{append, elements_of};
