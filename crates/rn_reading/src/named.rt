//! Names and numbers with their spots.
use rn_notation::Spot;
use rn_value::Str;

/// A name with its spot.
#[derive(Debug, Drop)]
pub struct Named {
    pub text: Str,
    pub spot: Spot,
}

/// A number with its spot. In a text it isn't negative.
#[derive(Clone, Copy, Debug, PartialEq, Eq)]
pub struct Numeral {
    pub value: i64,
    pub spot: Spot,
}
