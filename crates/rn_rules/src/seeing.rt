//! Expressions: what is broken in them is reported, and which kinds they have.
ghost use Rattle.std.specs.Prelude.{◌≡◌, ◌&&◌, not, map, flat_map, IfOk, OnOk, unwrap_or, is_some};
ghost use Rattle.std.specs.List.{list_all};
ghost use Rattle.rn_declared.specs.Faults.{first_from, broken_if, past_limit};
ghost use Rattle.rn_declared.specs.Patterns.{share, both_of};
ghost use Rattle.rn_rules.specs.Expressions.{seen_of, whole, is_whole, variable_faults, with_elements, operand_faults, tuple_of, with_element};
ghost use Rattle.rn_rules.specs.link.Sights.{where_of, sight_of, are_apart, joined, listed_sight, tuple_sight, variable_sight, fits_pattern};
ghost use Rattle.rn_declared.specs.declared.pattern.Pattern.TheVariants as Form;
ghost use Rattle.rn_model.specs.Limits.{most_parts};
ghost use Rattle.rn_declared.specs.declared.fault.Rule.TheVariants as Rules;

use crate::sight::{Here, SeenExpr};
use rn_declared::numbered::{both_of, copy, share};
use rn_declared::{First, Numbered, Numbers, Rule};
use rn_inscript::{PExpr, PForm};
use rn_items::Items;
use rn_model::limits::MOST_PARTS;
use rn_notation::Spot;
use rn_shared::Shared;
use rn_value::{NoMemory, Str};
use std::alloc::Global;

/// Reports an expression that hasn't the kind that is asked for, and says whether it is whole and
/// has.
pub(crate) fn fits<N: Numbers>(sight: &SeenExpr<N>, asked: &Numbered<N>, first: &mut First) -> bool
    ensures fits { result ≡ fits_pattern sight.now asked.now }
    ensures told { first.new.fault ≡ first_from first.old.fault
        (broken_if (sight.now.whole && not (share asked.now sight.now.pattern)) Rules.Kinds sight.now.spot) }
{
    let same = share(asked, &sight.pattern);
    first.tell_if(sight.whole && !same, Rule::Kinds, sight.spot);
    sight.whole && same
}

/// Reports an expression that is no whole number, and says whether it is whole and is one.
fn fits_int<N: Numbers>(sight: &SeenExpr<N>, first: &mut First) -> bool
    ensures fits { result ≡ fits_pattern sight.now Form.Int }
    ensures told { first.new.fault ≡ first_from first.old.fault
        (broken_if (sight.now.whole && not (share Form.Int sight.now.pattern)) Rules.Kinds sight.now.spot) }
{
    let asked = Numbered::int();
    fits(sight, &asked, first)
}

/// Reports what is wrong with a variable, and gives its kind.
pub(crate) fn see_variable<N: Numbers>(
    name: &Str,
    spot: Spot,
    here: &Here<N>,
    first: &mut First,
) -> Result<SeenExpr<N>, NoMemory>
    ensures sight { IfOk result (λ s. s ≡ variable_sight (where_of here.now) name.now spot) }
    ensures told { OnOk result (first.new.fault ≡ first_from first.old.fault
        (variable_faults (where_of here.now) name.now spot)) }
{
    let may_stand = match here.setters.number(name) {
        Some(number) => number < here.past,
        None => true,
    };
    let pattern = match here.vars.pattern(name) {
        Some(pattern) => Some(copy(pattern)?),
        None => None,
    };
    let known = pattern.is_some();
    first.tell_if(!known, Rule::Known, spot);
    first.tell_if(!may_stand, Rule::Actions, spot);
    Ok(SeenExpr {
        spot,
        whole: known && may_stand,
        pattern: pattern.unwrap_or(Numbered::any()),
    })
}

/// The elements of a list so far with one more, which is reported where it shares no kind with
/// them.
fn with_element<N: Numbers>(
    alloc: Global,
    before: SeenExpr<N>,
    e: SeenExpr<N>,
    first: &mut First,
) -> Result<SeenExpr<N>, NoMemory>
    ensures sight { IfOk result (λ s. s ≡ joined before e) }
    ensures told { OnOk result (first.new.fault ≡ first_from first.old.fault
        (broken_if (are_apart before e) Rules.Kinds e.spot)) }
{
    let both = before.whole && e.whole;
    let same = share(&before.pattern, &e.pattern);
    first.tell_if(both && !same, Rule::Kinds, e.spot);
    Ok(SeenExpr {
        spot: before.spot,
        whole: both && same,
        pattern: both_of(alloc, &before.pattern, &e.pattern)?,
    })
}

/// The list of these elements.
fn as_list<N: Numbers>(alloc: Global, elements: SeenExpr<N>) -> Result<SeenExpr<N>, NoMemory>
    ensures { IfOk result (λ s. s ≡ listed_sight elements) }
{
    Ok(SeenExpr {
        spot: elements.spot,
        whole: elements.whole,
        pattern: Numbered::list(Shared::new(alloc, elements.pattern)?),
    })
}

fn are_whole<N: Numbers>(sights: &[SeenExpr<N>]) -> bool
    ensures { result ≡ list_all (λ s. s.whole) sights.now }
{
    for sight in sights {
        if !sight.whole {
            return false;
        }
    }
    true
}

fn patterns_seen<N: Numbers>(
    alloc: Global,
    sights: Vec<SeenExpr<N>>,
) -> Result<Shared<Items<Numbered<N>>>, NoMemory>
    ensures { IfOk result (λ ps. ps ≡ map (λ s. s.pattern) sights.items) }
{
    let mut patterns = Vec::new(alloc);
    for sight in sights {
        let SeenExpr { pattern, .. } = sight;
        patterns.push(pattern)?;
    }
    Ok(Shared::new(alloc, Items::from_vec(patterns))?)
}

/// The tuple of these parts, of which too many are reported at the first that is.
fn as_tuple<N: Numbers>(
    alloc: Global,
    spot: Spot,
    parts: Vec<SeenExpr<N>>,
    first: &mut First,
) -> Result<SeenExpr<N>, NoMemory>
    ensures sight { IfOk result (λ s. s ≡ tuple_sight spot parts.items) }
    ensures told { OnOk result (first.new.fault ≡ first_from first.old.fault
        (past_limit most_parts (map (λ part. part.spot) parts.items))) }
{
    if let Some(part) = parts.get(MOST_PARTS) {
        first.tell(Rule::Limit, part.spot);
    }
    Ok(SeenExpr {
        spot,
        whole: parts.len() <= MOST_PARTS && are_whole(parts.as_slice()),
        pattern: Numbered::tuple(patterns_seen(alloc, parts)?),
    })
}

/// Reports what is broken in an expression, and gives the kinds that it has.
#[cycle(see)]
pub(crate) fn see<N: Numbers>(
    alloc: Global,
    expr: &PExpr,
    here: &Here<N>,
    first: &mut First,
) -> Result<SeenExpr<N>, NoMemory>
    ensures sight { IfOk result (λ s. s ≡ sight_of (seen_of expr.now (where_of here.now))) }
    ensures told { OnOk result (first.new.fault ≡ first_from first.old.fault
        (seen_of expr.now (where_of here.now)).faults) }
{
    let spot = expr.spot;
    match &expr.form {
        PForm::Int(_) => Ok(SeenExpr::whole(spot, Numbered::int())),
        PForm::Text(_) => Ok(SeenExpr::whole(spot, Numbered::text())),
        PForm::Name(name) => Ok(see_variable(name, spot, here, first)?),
        PForm::This => Ok(SeenExpr::whole(spot, Numbered::net())),
        PForm::Step => {
            first.tell_if(!here.step_may, Rule::Actions, spot);
            Ok(SeenExpr {
                spot,
                whole: here.step_may,
                pattern: Numbered::int(),
            })
        }
        PForm::Tuple(parts) => { Ok(see_tuple(alloc, parts.as_slice(), spot, here, first)?) }
        PForm::List(elements) => {
            let seen = see_elements(alloc, elements.as_slice(), spot, here, first)?;
            Ok(as_list(alloc, seen)?)
        }
        PForm::Cons(elements, tail) => {
            let seen = see_elements(alloc, elements.as_slice(), spot, here, first)?;
            let before = as_list(alloc, seen)?;
            let end = see(alloc, tail.get(), here, first)?;
            Ok(with_element(alloc, before, end, first)?)
        }
        PForm::Neg(a) => {
            let whole = see_operand(alloc, a.get(), here, first)?;
            Ok(SeenExpr {
                spot,
                whole,
                pattern: Numbered::int(),
            })
        }
        PForm::Op(_, a, b) => {
            let left = see_operand(alloc, a.get(), here, first)?;
            let right = see_operand(alloc, b.get(), here, first)?;
            Ok(SeenExpr {
                spot,
                whole: left & right,
                pattern: Numbered::int(),
            })
        }
    }
}

/// An operand, which is a whole number.
#[cycle(see)]
pub(crate) fn see_operand<N: Numbers>(
    alloc: Global,
    operand: &PExpr,
    here: &Here<N>,
    first: &mut First,
) -> Result<bool, NoMemory>
    ensures whole { IfOk result (λ w. w
        ≡ is_whole (operand_faults (seen_of operand.now (where_of here.now)))) }
    ensures told { OnOk result (first.new.fault ≡ first_from first.old.fault
        (operand_faults (seen_of operand.now (where_of here.now)))) }
{
    let sight = see(alloc, operand, here, first)?;
    Ok(fits_int(&sight, first))
}

#[cycle(see)]
pub(crate) fn see_all<N: Numbers>(
    alloc: Global,
    exprs: &[PExpr],
    here: &Here<N>,
    first: &mut First,
) -> Result<Vec<SeenExpr<N>>, NoMemory>
    ensures sights { IfOk result (λ sights. sights.items
        ≡ map sight_of (map (λ seen. seen (where_of here.now)) (map seen_of exprs.now))) }
    ensures told { OnOk result (first.new.fault ≡ first_from first.old.fault
        (flat_map (λ e. e.faults) (map (λ seen. seen (where_of here.now)) (map seen_of exprs.now)))) }
{
    let mut sights = Vec::with_capacity(alloc, exprs.len())?;
    for expr in exprs {
        sights.push(see(alloc, expr, here, first)?)?;
    }
    Ok(sights)
}

#[cycle(see)]
fn see_elements<N: Numbers>(
    alloc: Global,
    elements: &[PExpr],
    spot: Spot,
    here: &Here<N>,
    first: &mut First,
) -> Result<SeenExpr<N>, NoMemory>
    ensures sight { IfOk result (λ s. s ≡ sight_of (with_elements (whole spot Form.Any)
        (map (λ seen. seen (where_of here.now)) (map seen_of elements.now)))) }
    ensures told { OnOk result (first.new.fault ≡ first_from first.old.fault
        (with_elements (whole spot Form.Any)
        (map (λ seen. seen (where_of here.now)) (map seen_of elements.now))).faults) }
{
    let mut before = SeenExpr::whole(spot, Numbered::any());
    for element in elements {
        let sight = see(alloc, element, here, first)?;
        before = with_element(alloc, before, sight, first)?;
    }
    Ok(before)
}

#[cycle(see)]
fn see_tuple<N: Numbers>(
    alloc: Global,
    parts: &[PExpr],
    spot: Spot,
    here: &Here<N>,
    first: &mut First,
) -> Result<SeenExpr<N>, NoMemory>
    ensures sight { IfOk result (λ s. s ≡ sight_of (tuple_of spot
        (map (λ seen. seen (where_of here.now)) (map seen_of parts.now)))) }
    ensures told { OnOk result (first.new.fault ≡ first_from first.old.fault (tuple_of spot
        (map (λ seen. seen (where_of here.now)) (map seen_of parts.now))).faults) }
{
    let seen = see_all(alloc, parts, here, first)?;
    Ok(as_tuple(alloc, spot, seen, first)?)
}
