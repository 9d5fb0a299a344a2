//! What one token of a place gives alone.
use rn_binding::Candidate;
use rn_value::Value;

/// A token of a place, and the first of the bindings that start in the instance where that token
/// lies in the place alone, or none.
#[derive(Drop)]
pub struct Share {
    pub token: Value,
    pub first: Option<Candidate>,
}
