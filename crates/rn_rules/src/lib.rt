//! The rules of net texts: what is broken where, and what is broken first.
#![tactic(auto)]

mod arcs;
mod broken;
mod calls;
mod conditions;
mod counted;
mod inscriptions;
mod nets;
mod scope;
mod seeing;
mod sight;
mod transitions;

pub use broken::first_fault;
