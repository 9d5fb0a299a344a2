//! The truth of a condition.
ghost use Rattle.std.specs.Prelude.{◌≡◌, ◌↔◌, ◌≤◌, IfOk, IfSome, IsTrue, flat_map, map};
ghost use Rattle.std.specs.Prelude.{option_and_then, option_map};
ghost use Rattle.rn_model.specs.Evaluation.{IsTrueUnder, all_true, comparison_of};
ghost use Rattle.rn_model.specs.Evaluation.{simple_truth, truth};
ghost use Rattle.rn_model.specs.AgreementLaws.{MayCompare};
ghost use Rattle.rn_value.specs.declared.value.Value.TheVariants as Value;
ghost use Rattle.rn_model.specs.Limits.{greatest_step};
ghost use Rattle.rn_calc.specs.link.Given.{env_given};
ghost use Rattle.rn_calc.specs.FitComparisons.{AreFit, AreNumbers, ComparisonsAreFit, comparisons_of};
ghost use Rattle.rn_calc.specs.Readings.{seen};

use crate::given::Given;
use crate::reading::{Reading, read};
use crate::values::Values;
use rn_model::{CompareKind, Cond, Simple};
use rn_value::{NoMemory, Value, cmp};
use std::alloc::Global;

fn whole_numbers(v: &Value, w: &Value) -> (i64, i64)
    requires fit { AreNumbers v.now w.now }
    ensures left { v.now ≡ Value.Int result.0 }
    ensures right { w.now ≡ Value.Int result.1 }
{
    match (v, w) {
        (Value::Int(x), Value::Int(y)) => (*x, *y),
        _ => unreachable!(),
    }
}

#[tactic(auto, using(rn_model::proofs::EvaluationLemmas::worth_rules))]
fn compare(kind: CompareKind, v: &Value, w: &Value) -> bool
    requires fit { MayCompare kind v.now w.now }
    ensures { comparison_of kind v.now w.now ≡ Some result }
{
    match kind {
        CompareKind::Same => cmp(v, w).is_eq(),
        CompareKind::Differs => !cmp(v, w).is_eq(),
        CompareKind::Less => {
            let (x, y) = whole_numbers(v, w);
            x < y
        }
        CompareKind::AtMost => {
            let (x, y) = whole_numbers(v, w);
            x <= y
        }
        CompareKind::Greater => {
            let (x, y) = whole_numbers(v, w);
            y < x
        }
        CompareKind::AtLeast => {
            let (x, y) = whole_numbers(v, w);
            y <= x
        }
    }
}

fn compare_readings(kind: CompareKind, a: &Option<Reading>, b: &Option<Reading>) -> Option<bool>
    requires fit { (v w : Value) → option_map seen a.now ≡ Some v
        → option_map seen b.now ≡ Some w → MayCompare kind v w }
    ensures { result ≡ option_and_then
        (λ v. option_and_then (comparison_of kind v) (option_map seen b.now)) (option_map seen a.now) }
{
    match (a, b) {
        (Some(v), Some(w)) => Some(compare(kind, v.get(), w.get())),
        _ => None,
    }
}

#[cycle(condition)]
#[tactic(auto, using(rn_model::proofs::TruthLemmas::cond_rules))]
fn truth_in<V: Values>(alloc: Global, cond: &Cond, values: &V) -> Result<Option<bool>, NoMemory>
    requires step { IfSome (V.env values.now).step (λ n. n ≤ greatest_step) }
    requires fit { ComparisonsAreFit (V.env values.now) cond.now }
    ensures { IfOk result (λ t. t ≡ truth cond.now (V.env values.now)) }
{
    let mut some = false;
    for list in cond.any.as_slice() {
        match all_of(alloc, list.as_slice(), values)? {
            Some(all) => some = some || all,
            None => return Ok(None),
        }
    }
    Ok(Some(some))
}

#[cycle(condition)]
#[tactic(auto, using(rn_model::proofs::TruthLemmas::join_rules))]
fn all_of<V: Values>(
    alloc: Global,
    simples: &[Simple],
    values: &V,
) -> Result<Option<bool>, NoMemory>
    requires step { IfSome (V.env values.now).step (λ n. n ≤ greatest_step) }
    requires fit { AreFit (V.env values.now) (flat_map comparisons_of simples.now) }
    ensures { IfOk result (λ t. t ≡ all_true (map simple_truth simples.now) (V.env values.now)) }
{
    let mut all = true;
    for simple in simples {
        match one(alloc, simple, values)? {
            Some(is_true) => all = all && is_true,
            None => return Ok(None),
        }
    }
    Ok(Some(all))
}

#[cycle(condition)]
fn one<V: Values>(alloc: Global, simple: &Simple, values: &V) -> Result<Option<bool>, NoMemory>
    requires step { IfSome (V.env values.now).step (λ n. n ≤ greatest_step) }
    requires fit { AreFit (V.env values.now) (comparisons_of simple.now) }
    ensures { IfOk result (λ t. t ≡ simple_truth simple.now (V.env values.now)) }
{
    match simple {
        Simple::Compare(kind, a, b) => {
            let v = read(alloc, a, values)?;
            let w = read(alloc, b, values)?;
            Ok(compare_readings(*kind, &v, &w))
        }
        Simple::Not(cond) => match truth_in(alloc, cond, values)? {
            Some(is_true) => Ok(Some(!is_true)),
            None => Ok(None),
        },
    }
}

/// Whether all of a condition is defined, and it is true.
///
/// Values of variables are compared where they stand.
pub fn is_true<V: Values>(alloc: Global, cond: &Cond, values: &V) -> Result<bool, NoMemory>
    requires step { IfSome (V.env values.now).step (λ n. n ≤ greatest_step) }
    requires fit { ComparisonsAreFit (V.env values.now) cond.now }
    ensures exact { IfOk result (λ yes. IsTrue yes ↔ IsTrueUnder (V.env values.now) cond.now) }
{
    match truth_in(alloc, cond, values)? {
        Some(is_true) => Ok(is_true),
        None => Ok(false),
    }
}

/// Whether all of a condition is defined, and it is true.
///
/// `1 < 2 || 1 / 0 == 0` isn't true, since not all of it is defined.
pub fn holds(alloc: Global, cond: &Cond, given: &Given) -> Result<bool, NoMemory>
    requires step { given.now.step ≤ greatest_step }
    requires fit { ComparisonsAreFit (env_given given.now) cond.now }
    ensures exact { IfOk result (λ yes. IsTrue yes ↔ IsTrueUnder (env_given given.now) cond.now) }
{
    is_true(alloc, cond, given)
}
