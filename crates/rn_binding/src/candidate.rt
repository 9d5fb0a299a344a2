//! Bindings that were certified.
ghost use Rattle.std.specs.Prelude.{◌≡◌};

use rn_model::Binding;
use rn_value::NoMemory;
use std::marker::Model;

/// Why a binding is no candidate.
#[derive(Clone, Copy, Debug, PartialEq, Eq)]
pub enum NotSound {
    /// It hasn't the shape within the depth.
    B1,

    /// It has the shape, and doesn't agree.
    B2,

    /// It has the shape and agrees, and isn't derived.
    B3,

    /// Memory is out. This says nothing of the binding.
    NoMemory(NoMemory),
}

/// A binding that was certified. The clauses of the calls say for which system, and within which
/// depth.
#[derive(Debug, Drop)]
pub struct Candidate {
    pub(crate) binding: Binding,
}

impl Model for Candidate {
    ghost use Rattle.rn_model.specs.declared.binding.Binding.{Binding};
    ghost use Rattle.rn_value.specs.contracts.value.Value as value;
    ghost use Rattle.std.specs.Coded.{codes};

    ghost Value = { Binding };

    ghost coded = { Prim.hlevel (codes, value.the_row.coded) };

    ghost view = { λ c. c.binding };
}

impl Candidate {
    /// A binding of which it is known from elsewhere that `certify` would certify it.
    pub fn known(binding: Binding) -> Candidate
        ensures { result ≡ binding }
    {
        Candidate { binding }
    }

    /// The binding itself.
    pub fn binding(&self) -> &Binding
        ensures { result.now ≡ self.now }
    {
        &self.binding
    }
}
