//! Finding the bindings that are enabled at a marking: one, all, those of one instance, or the
//! first. Each start has a search of its own, and each binding one start. So where each start was
//! searched in vain, or passed by as starting none, the marking is dead within the depth
//! (`docs/SEARCH.md`, 'Where it starts').
#![tactic(auto)]

mod capacities;
mod drawing;
mod every;
mod explorer;
mod exploring;
mod finding;
mod first;
mod hint;
mod idle;
mod instance;
mod laws;
mod lesser;
mod marked;
mod room;
mod starts;
mod straight;
mod turns;

pub use every::all_bindings;
pub use finding::{Finding, find};
pub use first::least;
pub use hint::Start;
pub use idle::Idle;
pub use instance::{bindings_of, least_of};
pub use laws::tokens_fit;
pub use rn_choices::{Flag, Halt};
pub use room::Room;
