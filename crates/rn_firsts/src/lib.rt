//! The first of the enabled bindings at one table after the other. Where nothing started before and
//! nothing changed since, it isn't looked for again. What starts in an instance depends only on
//! what it reaches, so a change matters only to instances that may reach it (`docs/SEARCH.md`,
//! 'What a start depends on').
#![tactic(auto)]

mod firsts;
mod following;
mod known_idle;
mod looking;
mod marked;
mod pace;

pub use firsts::Firsts;
pub use known_idle::KnownIdle;
