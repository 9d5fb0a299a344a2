//! Constants, the initial tokens of places, as they stand in a text.
use rn_items::Items;
use rn_notation::Spot;
use rn_value::Str;

pub type PConsts = Items<PConst>;

/// A constant, with the spot of its first token.
#[cycle(constant)]
#[derive(Debug, Drop)]
pub struct PConst {
    pub form: PConstForm,
    pub spot: Spot,
}

/// A whole number, which may be negative, a text, a tuple or a list.
#[cycle(constant)]
#[derive(Debug, Drop)]
pub enum PConstForm {
    Int(i64),
    Text(Str),
    Tuple(PConsts),
    List(PConsts),
}
