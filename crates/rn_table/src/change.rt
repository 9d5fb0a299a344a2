//! What a firing changes.
use rn_items::Items;
use rn_value::Vals;

/// Values for one place of one instance.
#[derive(Debug, Drop)]
pub struct Row {
    pub inst: u32,
    pub place: u32,
    pub values: Vals,
}

pub type Rows = Items<Row>;

pub type Nums = Items<u32>;

/// What a firing takes, clears and puts, and the nets of the instances that it makes, in order. These
/// get the next numbers, and rows may name them by those.
#[derive(Debug, Drop)]
pub struct Change {
    pub taken: Rows,
    pub cleared: Rows,
    pub made: Nums,
    pub put: Rows,
}
