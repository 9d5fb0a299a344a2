//! The first of the faults that were reported so far.
ghost use Rattle.std.specs.Prelude.{◌≡◌, None};
ghost use Rattle.rn_declared.specs.Faults.{number_of, counts_before, first_with, first_from, broken};
ghost use Rattle.rn_declared.specs.Faults.{broken_if, report_of};

use crate::fault::{CheckFault, Fault, Rule};
use rn_notation::Spot;

impl Rule {
    /// The number of the rule: at one spot, the lowest counts.
    pub fn number(self) -> u8
        ensures { result ≡ number_of self }
    {
        match self {
            Rule::Known => 1,
            Rule::Once => 2,
            Rule::Main => 3,
            Rule::Kinds => 4,
            Rule::Uplink => 5,
            Rule::Actions => 6,
            Rule::Inscription => 7,
            Rule::Channel => 8,
            Rule::Limit => 9,
            Rule::Creation => 10,
            Rule::Comparison => 11,
            Rule::Capacity => 12,
            Rule::Counted => 13,
        }
    }
}

impl Fault {
    /// How the checker reports it.
    pub fn report(self) -> CheckFault
        ensures { result ≡ report_of self.rule self.spot }
    {
        match self.rule {
            Rule::Known => CheckFault::C1(self.spot),
            Rule::Once => CheckFault::C2(self.spot),
            Rule::Main => CheckFault::C3(self.spot),
            Rule::Kinds => CheckFault::C4(self.spot),
            Rule::Uplink => CheckFault::C5(self.spot),
            Rule::Actions => CheckFault::C6(self.spot),
            Rule::Inscription => CheckFault::C7(self.spot),
            Rule::Channel => CheckFault::C8(self.spot),
            Rule::Limit => CheckFault::C9(self.spot),
            Rule::Creation => CheckFault::C10(self.spot),
            Rule::Comparison => CheckFault::C11(self.spot),
            Rule::Capacity => CheckFault::C12(self.spot),
            Rule::Counted => CheckFault::C13(self.spot),
        }
    }

    /// Whether it counts before another: at an earlier spot, or at the same by a lower number.
    pub fn counts_before(self, other: Fault) -> bool
        ensures { result ≡ counts_before self other }
    {
        let (here, there) = (self.spot, other.spot);
        if here.line != there.line {
            return here.line < there.line;
        }
        if here.column != there.column {
            return here.column < there.column;
        }
        self.rule.number() < other.rule.number()
    }
}

/// The first of the faults that were reported.
#[derive(Clone, Copy, Debug)]
pub struct First {
    /// The one that counts first, if any was reported.
    pub fault: Option<Fault>,
}

impl First {
    /// Reports that a rule is broken at a spot.
    pub fn tell(&mut self, rule: Rule, spot: Spot)
        ensures { self.new.fault ≡ first_with self.old.fault (broken rule spot) }
    {
        let fault = Fault { rule, spot };
        let counts = match self.fault {
            None => true,
            Some(known) => fault.counts_before(known),
        };
        if counts {
            self.fault = Some(fault);
        }
    }

    /// Reports the same where it is so.
    pub fn tell_if(&mut self, is_broken: bool, rule: Rule, spot: Spot)
        ensures { self.new.fault ≡ first_from self.old.fault (broken_if is_broken rule spot) }
    {
        if is_broken {
            self.tell(rule, spot);
        }
    }
}
