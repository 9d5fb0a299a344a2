//! From the tokens of a net text to expressions and to inscriptions of transitions.
#![tactic(auto)]

mod conditions;
mod conds;
mod cursor;
mod expressions;
mod exprs;
mod fault;
mod forms;
mod inscriptions;
mod laws;
mod reading;

pub use conds::{PAlts, PCond, PSimple, PSimples};
pub use exprs::{PExpr, PExprs, PForm};
pub use fault::InscriptFault;
pub use inscriptions::{PInscribed, PInscription, PName};
pub use laws::reading_laws;
pub use reading::{read_expr, read_transition_inscription};
