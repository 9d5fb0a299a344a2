//! Weighted nets. Places and transitions are named by numbers, from 0, in the order of the text.
use rn_items::Items;
use rn_model::ArcKind;
use rn_value::Str;

/// A weighted net.
#[derive(Debug, Drop)]
pub struct Weighted {
    pub places: WPlaces,
    pub transitions: WTransitions,
}

pub type WPlaces = Items<WPlace>;

/// A place, with the number of black tokens with which it begins.
#[derive(Debug, Drop)]
pub struct WPlace {
    pub name: Str,
    pub initial: u32,
}

pub type WTransitions = Items<WTransition>;

/// A transition with its arcs, in the order of the text.
#[derive(Debug, Drop)]
pub struct WTransition {
    pub name: Str,
    pub arcs: WArcs,
}

pub type WArcs = Items<WArc>;

/// An arc between a transition and a place of its net. Its kind is `Input`, `Output` or `Inhibit`,
/// and its weight is how many tokens it takes or puts; that of an inhibitor arc is 1.
#[derive(Clone, Copy, Debug, PartialEq, Eq)]
pub struct WArc {
    pub kind: ArcKind,
    pub place: u32,
    pub weight: u32,
}
