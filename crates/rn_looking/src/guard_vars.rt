//! The variables of a guard. A search lists them to see whether all are forced, or all but one that
//! an arc is about to find. They stand here again, since `rn_occurring` has its own and is no crate
//! that a search stands on.
ghost use Rattle.std.specs.Prelude.{◌≡◌, ◌++◌, OnOk, flat_map};
ghost use Rattle.rn_looking.specs.Guards.{vars_of_simple, vars_of_guard};

use rn_model::{Cond, Simple, put_vars};
use rn_value::NoMemory;

// Puts the variables of a comparison or a negation.
#[cycle(guard)]
fn put_simple(simple: &Simple, vars: &mut Vec<u32>) -> Result<(), NoMemory>
    ensures { OnOk result (vars.new.items ≡ vars.old.items ++ vars_of_simple simple.now) }
{
    match simple {
        Simple::Compare(_, a, b) => {
            put_vars(a, vars)?;
            put_vars(b, vars)
        }
        Simple::Not(cond) => put_guard(cond, vars),
    }
}

#[cycle(guard)]
fn put_simples(simples: &[Simple], vars: &mut Vec<u32>) -> Result<(), NoMemory>
    ensures { OnOk result (vars.new.items ≡ vars.old.items ++ flat_map vars_of_simple simples.now) }
{
    for simple in simples {
        put_simple(simple, vars)?;
    }
    Ok(())
}

/// Puts the variables of a guard, in the order of the text.
#[cycle(guard)]
pub fn put_guard(guard: &Cond, vars: &mut Vec<u32>) -> Result<(), NoMemory>
    ensures { OnOk result (vars.new.items ≡ vars.old.items ++ vars_of_guard guard.now) }
{
    for simples in guard.any.as_slice() {
        put_simples(simples.as_slice(), vars)?;
    }
    Ok(())
}
