//! Tokens that are moved.
use rn_items::Items;
use rn_value::Value;

/// A token of a place of an instance. Instances go by their numbers, and places by theirs in the net
/// of the instance.
#[derive(Debug, Drop, PartialEq, Eq, PartialOrd)]
pub struct Token {
    pub inst: u32,
    pub place: u32,
    pub value: Value,
}

pub type Tokens = Items<Token>;

/// What is moved at once: the tokens that are taken or cleared, and then those that are put. Both
/// ascend by instance, place and value.
#[derive(Debug, Drop)]
pub struct Moves {
    pub taken: Tokens,
    pub put: Tokens,
}
