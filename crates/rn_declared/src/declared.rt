//! Names that were declared with a kind.
ghost use Rattle.std.specs.Prelude.{◌≡◌, option_copied};
ghost use Rattle.rn_declared.specs.link.Tables.{pattern_in};

use crate::pattern::Pattern;
use crate::table::Declared;
use rn_value::Str;

impl Declared {
    /// The pattern of the kind with which a name was declared first.
    pub fn pattern(&self, name: &Str) -> Option<&Pattern>
        ensures { option_copied result ≡ pattern_in self.now name.now }
    {
        match self.table.number(name) {
            Some(number) => self.patterns.get(number),
            None => None,
        }
    }
}
