//! One part of a net, the end of a place, and one item of a text.
use crate::constants::PConsts;
use crate::plain::{PChannel, PMax, PNet, PPlace, PTransition, PVars};

/// What one declaration of a net adds to it.
#[derive(Debug, Drop)]
pub(crate) enum Part {
    Vars(PVars),
    Place(PPlace),
    Transition(PTransition),
}

/// What follows the name and the kind of a place.
#[derive(Debug, Drop)]
pub(crate) struct PlaceEnd {
    pub max: Option<PMax>,
    pub initial: PConsts,
}

/// What stands outside of nets, and nets.
#[derive(Debug, Drop)]
pub(crate) enum Item {
    Channel(PChannel),
    Net(PNet),
}
