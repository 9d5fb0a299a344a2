//! What a binding asks of the places, as rows.
use rn_items::Items;
use rn_value::{InstRef, Vals};

pub type Places2 = Items<Place2>;

/// Values at a place of an instance.
#[derive(Debug, Drop)]
pub struct Place2 {
    pub inst: InstRef,
    pub place: u32,
    pub values: Vals,
}

pub type Fills = Items<Fill>;

/// How many tokens are put at a place of an instance.
#[derive(Debug, Drop)]
pub struct Fill {
    pub inst: InstRef,
    pub place: u32,
    pub count: u128,
}

/// What the arcs of a binding ask, by place. Rows ascend by instance and place.
///
/// The values of a row ascend, but in `cleared`, where each clear arc has a row of its own with its
/// list as it stands there. A reserve arc stands in `taken` and in `put`. `put` leaves out outputs
/// that hold an action variable; `filled` counts what `put` has, and one more for each `out` arc
/// that holds one.
#[derive(Debug, Drop)]
pub struct Demands {
    pub taken: Places2,
    pub tested: Places2,
    pub inhibited: Places2,
    pub cleared: Places2,
    pub put: Places2,
    pub filled: Fills,
}

/// What the arcs of a binding take and clear, by place, as in its demands.
#[derive(Debug, Drop)]
pub struct Takings {
    pub taken: Places2,
    pub cleared: Places2,
}
