//! Parts of a text that stand at a spot, and limits on how many there are.
ghost use Rattle.std.specs.Prelude.{◌≡◌, map};
ghost use Rattle.rn_declared.specs.Faults.{first_from, past, past_limit};

use crate::fault::Rule;
use crate::first::First;
use rn_inscript::PInscription;
use rn_net::{PChannel, PConst, PKind};
use rn_notation::Spot;

/// What stands at a spot.
pub trait Located {
    ghost use Rattle.rn_notation.specs.declared.token.Spot.{Spot};

    ghost spot_of: { Self → Spot };

    fn spot(&self) -> Spot
        ensures { result ≡ spot_of self.now };
}

impl Located for PKind {
    ghost spot_of = { λ kind. kind.spot };

    fn spot(&self) -> Spot {
        self.spot
    }
}

impl Located for PConst {
    ghost spot_of = { λ constant. constant.spot };

    fn spot(&self) -> Spot {
        self.spot
    }
}

impl Located for PChannel {
    ghost spot_of = { λ channel. channel.name.spot };

    fn spot(&self) -> Spot {
        self.name.spot
    }
}

impl Located for PInscription {
    ghost spot_of = { λ inscription. inscription.spot };

    fn spot(&self) -> Spot {
        self.spot
    }
}

/// Reports that a rule is broken at the first one past so many, where there are more.
pub(crate) fn tell_past_by<T: Located>(rule: Rule, items: &[T], most: usize, first: &mut First)
    ensures { first.new.fault ≡ first_from first.old.fault
        (past rule most (map T.spot_of items.now)) }
{
    if most < items.len() {
        first.tell(rule, items[most].spot());
    }
}

/// Reports the first one past a limit, where there are more.
pub fn tell_past<T: Located>(items: &[T], most: usize, first: &mut First)
    ensures { first.new.fault ≡ first_from first.old.fault (past_limit most (map T.spot_of items.now)) }
{
    tell_past_by(Rule::Limit, items, most, first);
}
