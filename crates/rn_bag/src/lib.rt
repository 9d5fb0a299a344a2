//! Multisets of values whose copies share what they hold, and a cursor by indices in ascending order.
#![tactic(auto)]

mod bag;
mod chunk;
mod chunks;
mod counting;
mod cursor;
mod cut;
mod edits;
mod list;
mod pool;
mod seek;
mod sharing;
mod tag;
pub mod words;

pub use bag::Bag;
