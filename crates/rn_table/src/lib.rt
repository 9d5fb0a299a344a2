//! The table of instances: pages that snapshots share.
#![tactic(auto)]

mod bags;
mod change;
mod chunk;
mod dir;
mod edits;
mod instance;
mod laws;
mod leaf;
mod leaves;
mod nets;
mod page;
mod pages;
mod places;
mod sharing;
mod table;

pub use change::{Change, Nums, Row, Rows};
pub use instance::Inst;
pub use laws::{
    firings_are_changes, kept_after_removal, nets_are_few, same_is_left, tokens_after_change,
};
pub use nets::{has_start, main_net_of, starts};
pub use page::Page;
pub use table::Table;
