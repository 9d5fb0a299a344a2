//! Conditions of guards as they stand in a text.
use crate::exprs::PExpr;
use rn_items::Items;
use rn_model::CompareKind;

pub type PSimples = Items<PSimple>;

pub type PAlts = Items<PSimples>;

/// A condition: the lists are what `||` joins, and what `&&` joins stands in one list.
#[cycle(cond)]
#[derive(Debug, Drop)]
pub struct PCond {
    pub any: PAlts,
}

/// A comparison, an expression without one, or the negation `!(c)` of a condition.
#[cycle(cond)]
#[derive(Debug, Drop)]
pub enum PSimple {
    Compare(CompareKind, PExpr, PExpr),
    Bare(PExpr),
    Not(PCond),
}
