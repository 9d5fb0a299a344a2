//! Conditions with numbers in place of names.
ghost use Rattle.std.specs.Prelude.{◌≡◌, IfOk, map};
ghost use Rattle.rn_numbered.specs.link.NumbersFound.{AreFew};
ghost use Rattle.rn_numbered.specs.Numbered.{cond_of, number_in};
ghost use Rattle.rn_numbered.specs.link.Parts.{simple_of};

use crate::numbered::expr_of;
use crate::numbers::NameNumbers;
use rn_inscript::{PCond, PSimple};
use rn_items::Items;
use rn_model::{CompareKind, Cond, Simple, Simples};
use rn_value::NoMemory;
use std::alloc::Global;

/// One comparison or negation. An expression without comparison stands for that with itself.
#[cycle(cond)]
fn simple_of(alloc: Global, simple: &PSimple, vars: &NameNumbers) -> Result<Simple, NoMemory>
    requires { AreFew vars.now }
    ensures { IfOk result (λ made. made ≡ simple_of simple.now (number_in vars.now)) }
{
    match simple {
        PSimple::Compare(kind, a, b) => {
            let a = expr_of(alloc, a, vars)?;
            Ok(Simple::Compare(*kind, a, expr_of(alloc, b, vars)?))
        }
        PSimple::Bare(e) => {
            let a = expr_of(alloc, e, vars)?;
            Ok(Simple::Compare(CompareKind::Same, a, expr_of(alloc, e, vars)?))
        }
        PSimple::Not(cond) => Ok(Simple::Not(cond_of(alloc, cond, vars)?)),
    }
}

/// Conditions that all hold.
#[cycle(cond)]
fn simples_of(alloc: Global, simples: &[PSimple], vars: &NameNumbers) -> Result<Simples, NoMemory>
    requires { AreFew vars.now }
    ensures { IfOk result (λ made. made
        ≡ map (λ numbered. numbered (number_in vars.now)) (map simple_of simples.now)) }
{
    let mut made = Vec::with_capacity(alloc, simples.len())?;
    for simple in simples {
        made.push(simple_of(alloc, simple, vars)?)?;
    }
    Ok(Items::from_vec(made))
}

/// The condition with numbers in place of names, where variables have these.
#[cycle(cond)]
pub(crate) fn cond_of(alloc: Global, cond: &PCond, vars: &NameNumbers) -> Result<Cond, NoMemory>
    requires { AreFew vars.now }
    ensures { IfOk result (λ made. made ≡ cond_of cond.now (number_in vars.now)) }
{
    let mut any = Vec::with_capacity(alloc, cond.any.len())?;
    for simples in cond.any.as_slice() {
        any.push(simples_of(alloc, simples.as_slice(), vars)?)?;
    }
    Ok(Cond {
        any: Items::from_vec(any),
    })
}
