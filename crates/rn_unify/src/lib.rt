//! Unification of terms in a store.
//!
//! Two terms are made one by binding variables, and no more is bound than that asks for. One walk
//! through both notes which free variable has to be what. Then the variables are bound. Where one
//! was bound already by an equation before, what it has to be besides is looked at in a next walk.
#![tactic(auto)]

mod adding;
mod binding;
mod classes;
mod comparing;
mod equation;
mod laws;
mod lists;
mod matching;
mod ordering;
mod rests;
mod unifying;

pub use laws::{says_both_in_turn, undo_gives_back, unify_is_symmetric};
pub use unifying::unify;
