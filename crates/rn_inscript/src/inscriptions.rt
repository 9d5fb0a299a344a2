//! Inscriptions of transitions as they stand in a text.
use crate::conds::PCond;
use crate::exprs::{PExpr, PExprs};
use rn_model::ArcKind;
use rn_notation::Spot;
use rn_value::Str;

/// A name as it stands in the text.
#[derive(Debug, Drop)]
pub struct PName {
    pub text: Str,
    pub spot: Spot,
}

/// An inscription, with the spot of its very first token.
#[derive(Debug, Drop)]
pub struct PInscription {
    pub form: PInscribed,
    pub spot: Spot,
}

/// The forms of inscriptions.
#[derive(Debug, Drop)]
pub enum PInscribed {
    /// `in p: e` and the like. An arc of flexin, flexout or clear may have no inscription.
    Arc {
        kind: ArcKind,
        place: PName,
        inscription: Option<PExpr>,
    },

    /// `guard c`
    Guard(PCond),

    /// `action print e`
    Print(PExpr),

    /// `action v = e`
    Set {
        var: PName,
        value: PExpr,
    },

    /// `:ch(e1,e2)`
    Uplink {
        channel: PName,
        args: PExprs,
    },

    /// `x: new n`
    New {
        var: PName,
        net: PName,
    },

    /// `t:ch(e1,e2)`
    Downlink {
        target: PExpr,
        channel: PName,
        args: PExprs,
    },

    /// `e1 = e2`
    Equality(PExpr, PExpr),
}
