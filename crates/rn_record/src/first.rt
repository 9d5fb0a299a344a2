//! The lines of a binding at the start of a run.
ghost use Rattle.std.specs.Prelude.{◌≡◌, ◌++◌, OnOk, OnErr};
ghost use Rattle.rn_record.specs.RecordText.{binding_text, first_names};
ghost use Rattle.rn_record.specs.Writable.{HasLines};

use crate::entries::put_binding;
use crate::naming::first_names;
use rn_model::{Binding, System};
use rn_value::NoMemory;
use std::alloc::Global;

/// Appends the lines of a binding at the start of a run, each after `lead`, as
/// `1 main[1].make w=worker[2]`. All but the first have `+ ` between. The instances that it makes are
/// numbered from 2.
pub fn write_first(
    alloc: Global,
    system: &System,
    binding: &Binding,
    lead: &[u8],
    out: &mut Vec<u8>,
) -> Result<(), NoMemory>
    requires { HasLines system.now first_names binding.now }
    ensures ok { OnOk result (out.new.items
        ≡ out.old.items ++ binding_text system.now first_names lead.now binding.now) }
    ensures err { OnErr result (out.new.items ≡ out.old.items) }
{
    let mut names = first_names(alloc)?;
    put_binding(alloc, system, binding, &mut names, lead, out)
}
