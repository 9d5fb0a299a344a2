//! What the text of a weighted net says, with names and spots as they stand in it. Each list keeps
//! the order of the text.
use rn_items::Items;
use rn_model::ArcKind;
use rn_notation::Spot;
use rn_reading::{Named, Numeral};

/// The places and transitions of a text.
#[derive(Debug, Drop)]
pub struct PtNet {
    pub places: PtPlaces,
    pub transitions: PtTransitions,
}

pub type PtPlaces = Items<PtPlace>;

/// A place, with the number of tokens that the text gives it, if it does.
#[derive(Debug, Drop)]
pub struct PtPlace {
    pub name: Named,
    pub initial: Option<Numeral>,
}

pub type PtTransitions = Items<PtTransition>;

#[derive(Debug, Drop)]
pub struct PtTransition {
    pub name: Named,
    pub arcs: PtArcs,
}

pub type PtArcs = Items<PtArc>;

/// An arc, with the weight that the text gives it, if it does.
#[derive(Debug, Drop)]
pub struct PtArc {
    pub word: ArcWord,
    pub place: Named,
    pub weight: Option<Numeral>,
}

/// The word with which an arc begins, `in`, `out` or `inhibit`, with its spot.
#[derive(Clone, Copy, Debug, PartialEq, Eq)]
pub struct ArcWord {
    pub kind: ArcKind,
    pub spot: Spot,
}
