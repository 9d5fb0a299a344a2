//! Certifying a binding that is given.
ghost use Rattle.rn_model.specs.Good.{Good};
ghost use Rattle.rn_binding.specs.Soundness.{Certifies};

use crate::candidate::{Candidate, NotSound};
use crate::derived::is_derived;
use rn_agree::{does_agree, has_shape};
use rn_model::{Binding, System};
use std::alloc::Global;

/// Certifies a binding for a system and a depth, or returns the first that it lacks. It may be any
/// binding, also of numbers that nothing has.
pub fn certify(
    alloc: Global,
    system: &System,
    depth: u32,
    binding: Binding,
) -> Result<Candidate, NotSound>
    requires good { Good system.now }
    ensures { Certifies system.now depth binding result }
{
    if !has_shape(system, depth, &binding) {
        return Err(NotSound::B1);
    }
    match does_agree(alloc, system, depth, &binding) {
        Ok(true) => {}
        Ok(false) => return Err(NotSound::B2),
        Err(no_memory) => return Err(NotSound::NoMemory(no_memory)),
    }
    match is_derived(alloc, system, &binding) {
        Ok(true) => Ok(Candidate { binding }),
        Ok(false) => Err(NotSound::B3),
        Err(no_memory) => Err(NotSound::NoMemory(no_memory)),
    }
}
