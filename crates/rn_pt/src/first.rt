//! The first of the rules that are broken.
ghost use Rattle.std.specs.Prelude.{◌≡◌};
ghost use Rattle.rn_pt.specs.Faults.{number_of, counts_before, first_with, first_from, broken};
ghost use Rattle.rn_pt.specs.Faults.{broken_if, report_of};

use crate::fault::{Broken, PtFault, Rule};
use rn_notation::Spot;

impl Rule {
    /// The number of the rule: at one spot, the lowest counts.
    pub(crate) fn number(self) -> u8
        ensures { result ≡ number_of self }
    {
        match self {
            Rule::Known => 2,
            Rule::Once => 3,
            Rule::Amount => 4,
            Rule::Limit => 5,
        }
    }
}

impl Broken {
    /// How it is reported.
    pub(crate) fn report(self) -> PtFault
        ensures { result ≡ report_of self }
    {
        match self.rule {
            Rule::Known => PtFault::N2(self.spot),
            Rule::Once => PtFault::N3(self.spot),
            Rule::Amount => PtFault::N4(self.spot),
            Rule::Limit => PtFault::N5(self.spot),
        }
    }

    /// Whether it counts before another: at an earlier spot, or at the same by a lower number.
    pub(crate) fn counts_before(self, other: Broken) -> bool
        ensures { result ≡ counts_before self other }
    {
        let (here, there) = (self.spot, other.spot);
        if here.line != there.line {
            return here.line < there.line;
        }
        if here.column != there.column {
            return here.column < there.column;
        }
        self.rule.number() < other.rule.number()
    }
}

/// The first of the broken rules that were noted.
#[derive(Clone, Copy, Debug)]
pub(crate) struct First {
    /// The one that counts first, if any was noted.
    pub broken: Option<Broken>,
}

impl First {
    /// Notes that a rule is broken at a spot.
    pub(crate) fn note(&mut self, rule: Rule, spot: Spot)
        ensures { self.new.broken ≡ first_with self.old.broken (broken rule spot) }
    {
        let broken = Broken { rule, spot };
        let counts = match self.broken {
            None => true,
            Some(known) => broken.counts_before(known),
        };
        if counts {
            self.broken = Some(broken);
        }
    }

    /// Notes the same where it is so.
    pub(crate) fn note_if(&mut self, is_broken: bool, rule: Rule, spot: Spot)
        ensures { self.new.broken ≡ first_from self.old.broken (broken_if is_broken rule spot) }
    {
        if is_broken {
            self.note(rule, spot);
        }
    }
}
