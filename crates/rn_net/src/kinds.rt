//! Kinds as they stand in a text.
use rn_items::{Boxed, Items};
use rn_notation::Spot;

pub type PKinds = Items<PKind>;

/// A kind, with the spot of its first token.
#[cycle(kind)]
#[derive(Debug, Drop)]
pub struct PKind {
    pub form: PKindForm,
    pub spot: Spot,
}

/// `int`, `text`, `[K1,K2]`, `{K}` and `net`.
#[cycle(kind)]
#[derive(Debug, Drop)]
pub enum PKindForm {
    Int,
    Text,
    Tuple(PKinds),
    List(Boxed<PKind>),
    Net,
}
