//! What an expression is read under.
use rn_items::Items;
use rn_value::{InstRef, Value};

/// Numbers of variables, ascending, each with its value.
pub type VarVals = Items<(u32, Value)>;

/// What an expression is read under: the instance that `this` names, the number of the firing
/// that `step()` gives, and the values of variables.
#[derive(Debug, Drop)]
pub struct Given {
    pub this: InstRef,
    pub step: u64,
    pub pairs: VarVals,
}
