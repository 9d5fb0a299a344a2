//! The plain form of a net text. Each list keeps the order of the text.
use crate::constants::PConsts;
use crate::kinds::{PKind, PKinds};
use rn_inscript::{PInscription, PName};
use rn_items::Items;
use rn_notation::Spot;
use rn_shared::Shared;

pub type PChannels = Items<PChannel>;

pub type PNets = Items<PNet>;

/// What a net text says: its notation, which is 1 or 2, its channels and its nets.
#[derive(Debug, Drop)]
pub struct Plain {
    pub notation: u32,
    pub channels: PChannels,
    pub nets: PNets,
}

/// The declaration of a channel, with the kinds of its arguments.
#[derive(Debug, Drop)]
pub struct PChannel {
    pub name: PName,
    pub kinds: PKinds,
}

pub type PVars = Items<PVar>;

pub type PPlaces = Items<PPlace>;

pub type PTransitions = Items<PTransition>;

#[derive(Debug, Drop)]
pub struct PNet {
    pub name: PName,
    pub vars: PVars,
    pub places: PPlaces,
    pub transitions: PTransitions,
}

/// One variable. A declaration of several names makes one for each of them, and they share its kind.
#[derive(Debug, Drop)]
pub struct PVar {
    pub name: PName,
    pub kind: Shared<PKind>,
}

/// A place with its initial tokens and its capacity. Where the text has no kind, the kind is `[]`
/// with the spot of the place's name.
#[derive(Debug, Drop)]
pub struct PPlace {
    pub name: PName,
    pub kind: PKind,
    pub initial: PConsts,
    pub max: Option<PMax>,
}

/// The capacity of a place, the greatest number of its tokens, with the number's spot.
#[derive(Clone, Copy, Debug, PartialEq, Eq)]
pub struct PMax {
    pub number: i64,
    pub spot: Spot,
}

pub type PInscriptions = Items<PInscription>;

#[derive(Debug, Drop)]
pub struct PTransition {
    pub name: PName,
    pub inscriptions: PInscriptions,
}
