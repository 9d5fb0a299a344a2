//! Conditions of guards: what is broken in them is reported.
ghost use Rattle.std.specs.Prelude.{◌≡◌, OnOk};
ghost use Rattle.rn_declared.specs.Faults.{first_from, broken_if};
ghost use Rattle.rn_declared.specs.declared.fault.Rule.TheVariants as Rules;
ghost use Rattle.rn_rules.specs.Expressions.{seen_of, operands_faults};
ghost use Rattle.rn_rules.specs.Conditions.{condition_faults, simple_seen, sides_faults, compared_faults, bare_faults};
ghost use Rattle.rn_rules.specs.link.Sights.{where_of, are_apart};

use crate::seeing::{see, see_operand};
use crate::sight::{Here, SeenExpr};
use rn_declared::numbered::share;
use rn_declared::{First, Numbers, Rule};
use rn_inscript::{PCond, PExpr, PSimple};
use rn_model::CompareKind;
use rn_value::NoMemory;
use std::alloc::Global;

/// Two sides that must share a kind.
pub(crate) fn see_sides<N: Numbers>(
    alloc: Global,
    a: &PExpr,
    b: &PExpr,
    here: &Here<N>,
    first: &mut First,
) -> Result<(), NoMemory>
    ensures { OnOk result (first.new.fault ≡ first_from first.old.fault
        (sides_faults (seen_of a.now (where_of here.now)) (seen_of b.now (where_of here.now)))) }
{
    let left = see(alloc, a, here, first)?;
    let right = see(alloc, b, here, first)?;
    tell_apart(&left, &right, first);
    Ok(())
}

/// Reports two sides that are whole and share no kind.
fn tell_apart<N: Numbers>(a: &SeenExpr<N>, b: &SeenExpr<N>, first: &mut First)
    ensures { first.new.fault ≡ first_from first.old.fault
        (broken_if (are_apart a.now b.now) Rules.Kinds a.now.spot) }
{
    let both = a.whole && b.whole;
    let same = share(&a.pattern, &b.pattern);
    first.tell_if(both && !same, Rule::Kinds, a.spot);
}

/// Two sides that are whole numbers.
fn see_operands<N: Numbers>(
    alloc: Global,
    a: &PExpr,
    b: &PExpr,
    here: &Here<N>,
    first: &mut First,
) -> Result<(), NoMemory>
    ensures { OnOk result (first.new.fault ≡ first_from first.old.fault
        (operands_faults (seen_of a.now (where_of here.now)) (seen_of b.now (where_of here.now)))) }
{
    see_operand(alloc, a, here, first)?;
    see_operand(alloc, b, here, first)?;
    Ok(())
}

/// An expression that stands for no comparison.
fn see_bare<N: Numbers>(
    alloc: Global,
    e: &PExpr,
    here: &Here<N>,
    first: &mut First,
) -> Result<(), NoMemory>
    ensures { OnOk result (first.new.fault ≡ first_from first.old.fault
        (bare_faults (seen_of e.now (where_of here.now)))) }
{
    let sight = see(alloc, e, here, first)?;
    first.tell(Rule::Comparison, sight.spot);
    Ok(())
}

/// The sides of a comparison.
fn see_compared<N: Numbers>(
    alloc: Global,
    kind: CompareKind,
    a: &PExpr,
    b: &PExpr,
    here: &Here<N>,
    first: &mut First,
) -> Result<(), NoMemory>
    ensures { OnOk result (first.new.fault ≡ first_from first.old.fault (compared_faults kind
        (seen_of a.now (where_of here.now)) (seen_of b.now (where_of here.now)))) }
{
    match kind {
        CompareKind::Same => see_sides(alloc, a, b, here, first),
        CompareKind::Differs => see_sides(alloc, a, b, here, first),
        CompareKind::Less => see_operands(alloc, a, b, here, first),
        CompareKind::AtMost => see_operands(alloc, a, b, here, first),
        CompareKind::Greater => see_operands(alloc, a, b, here, first),
        CompareKind::AtLeast => see_operands(alloc, a, b, here, first),
    }
}

#[cycle(condition)]
fn see_simple<N: Numbers>(
    alloc: Global,
    simple: &PSimple,
    here: &Here<N>,
    first: &mut First,
) -> Result<(), NoMemory>
    ensures { OnOk result (first.new.fault ≡ first_from first.old.fault
        (simple_seen simple.now (where_of here.now))) }
{
    match simple {
        PSimple::Compare(kind, a, b) => Ok(see_compared(alloc, *kind, a, b, here, first)?),
        PSimple::Bare(e) => Ok(see_bare(alloc, e, here, first)?),
        PSimple::Not(cond) => Ok(see_condition(alloc, cond, here, first)?),
    }
}

/// Reports what is broken in a condition.
#[cycle(condition)]
pub(crate) fn see_condition<N: Numbers>(
    alloc: Global,
    cond: &PCond,
    here: &Here<N>,
    first: &mut First,
) -> Result<(), NoMemory>
    ensures { OnOk result (first.new.fault ≡ first_from first.old.fault
        (condition_faults cond.now (where_of here.now))) }
{
    for simples in cond.any.as_slice() {
        for simple in simples.as_slice() {
            see_simple(alloc, simple, here, first)?;
        }
    }
    Ok(())
}
