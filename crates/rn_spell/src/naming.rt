//! How instances are named in a text.
ghost use Rattle.std.specs.Prelude.{◌≡◌, [], unwrap_or};
ghost use Rattle.rn_value.specs.Names.{name_of};
ghost use Rattle.rn_window.specs.Windows.{after};
ghost use Rattle.rn_spell.specs.Spelling.{number_of};

use rn_value::{InstRef, Names};
use rn_window::Window;

/// The names of the nets of instances, and the numbers of those that are still to be made.
pub trait Naming {
    ghost use Rattle.std.specs.Prelude.{List, ℕ};
    ghost use Rattle.rn_value.specs.declared.value.InstRef.{InstRef as Instance};

    /// The names of the nets of the instances with a number, from 1.
    ghost names: { Self → List (List ℕ) };

    /// An instance by its number, where it has one.
    ghost renamed: { Self → Instance → Instance };

    /// Writes the name of the net of the instance with this number, and nothing where none is.
    fn put_name(&self, number: u32, window: &mut Window)
        ensures { window.new ≡ after window.old (unwrap_or (name_of (names self.now) number) []) };

    /// The number of an instance.
    fn number(&self, inst: &InstRef) -> Option<u32>
        ensures { result ≡ number_of (renamed self.now inst.now) };
}

impl Naming for Names {
    ghost names = { λ n. n };

    ghost renamed = { λ n i. i };

    #[tactic(auto, using(rn_window::proofs::Windows::written))]
    fn put_name(&self, number: u32, window: &mut Window) {
        if let Some(name) = self.get(number) {
            window.put(name.as_str().as_bytes());
        }
    }

    fn number(&self, inst: &InstRef) -> Option<u32> {
        match inst {
            InstRef::Old(number) => Some(*number),
            InstRef::New(_, _) => None,
        }
    }
}
