//! How many tokens the arcs of a binding put at each place. No token is made or copied for it
//! beyond what evaluating an inscription takes.
ghost use Rattle.std.specs.Prelude.{◌≡◌, ◌++◌, ◌+◌, ◌<◌, ◌^◌, IfOk, OnOk, length, filter};
ghost use Rattle.std.specs.List.{sum_by};
ghost use Rattle.std.specs.List.Sorted.{IsPermutation, IsSortedByKey};
ghost use Rattle.rn_model.specs.Demands.{puts, filled_at};
ghost use Rattle.rn_model.specs.Systems.{puts_awaited};
ghost use Rattle.rn_arcs.specs.FitInscriptions.{InscriptionsAreFit, IsFitArc, IsFitNode};
ghost use Rattle.rn_arcs.specs.Demanded.{HasFills, fill_place};
ghost use Rattle.rn_arcs.specs.link.Fillings.{may_put, known_count, pours_of, arc_pours, node_pours};
ghost use Rattle.rn_arcs.specs.link.Fillings.{binding_pours, pour_place, fill_of, joined_pour};
ghost use Rattle.rn_arcs.specs.link.Fillings.{with_pour, fills_of};
ghost use Rattle.rn_arcs.specs.link.Joining.{Rising};
ghost use Rattle.rn_arcs.specs.Places.{InstPlace, place_cmp, is_at};

use crate::ask::compare_places;
use crate::demands::{Fill, Fills};
use rn_calc::{NodeValues, Values, holds_action_var, read};
use rn_items::{Items, NoMemory};
use rn_model::{ArcKind, Binding, NetArc, Node, System, Transition, find_transition};
use rn_value::{InstRef, Value, copy_inst};
use std::alloc::Global;

/// How many tokens one arc puts at a place, at least one.
#[derive(Debug, Drop)]
pub(crate) struct Pour {
    pub inst: InstRef,
    pub place: u32,
    pub count: usize,
}

/// Whether an arc puts one token whose value an action gives.
fn puts_awaited(transition: &Transition, arc: &NetArc) -> bool
    ensures { result ≡ puts_awaited transition.now arc.now }
{
    matches!(arc.kind, ArcKind::Output) && holds_action_var(transition, &arc.inscription)
}

/// Whether an arc of this kind puts something.
pub fn may_put(kind: ArcKind) -> bool
    ensures { result ≡ may_put kind }
{
    matches!(
        kind,
        ArcKind::Output | ArcKind::FlexOutput | ArcKind::Reserve
    )
}

/// How many tokens an arc puts, by the value of its inscription.
fn put_count(kind: ArcKind, value: &Value) -> usize
    ensures { result ≡ length (puts kind value.now) }
{
    match kind {
        ArcKind::Output | ArcKind::Reserve => 1,
        ArcKind::FlexOutput => match value {
            Value::List(values) => values.len(),
            _ => 0,
        },
        _ => 0,
    }
}

/// The same, where it has a value.
fn known_count<V: Values>(alloc: Global, values: &V, arc: &NetArc) -> Result<usize, NoMemory>
    requires step { (V.env values.now).step ≡ None }
    requires fit { IsFitArc (V.env values.now) arc.now }
    ensures { IfOk result (λ n. n ≡ known_count (V.env values.now) arc.now) }
{
    if !may_put(arc.kind) {
        return Ok(0);
    }
    match &read(alloc, &arc.inscription, values)? {
        Some(value) => Ok(put_count(arc.kind, value.get())),
        None => Ok(0),
    }
}

/// Adds so many tokens at a place, and nothing where there are none.
fn add_pour(
    alloc: Global,
    pours: &mut Vec<Pour>,
    inst: &InstRef,
    place: u32,
    count: usize,
) -> Result<(), NoMemory>
    ensures { OnOk result (pours.new.items ≡ pours.old.items ++ pours_of inst.now place count) }
{
    if count > 0 {
        let inst = copy_inst(alloc, inst)?;
        pours.push(Pour { inst, place, count })?;
    }
    Ok(())
}

/// Adds what one arc puts.
fn add_arc<V: Values>(
    alloc: Global,
    pours: &mut Vec<Pour>,
    values: &V,
    inst: &InstRef,
    transition: &Transition,
    arc: &NetArc,
) -> Result<(), NoMemory>
    requires step { (V.env values.now).step ≡ None }
    requires fit { IsFitArc (V.env values.now) arc.now }
    ensures { OnOk result (pours.new.items
        ≡ pours.old.items ++ arc_pours transition.now (V.env values.now) inst.now arc.now) }
{
    let awaited = if puts_awaited(transition, arc) { 1 } else { 0 };
    add_pour(alloc, pours, inst, arc.place, awaited)?;
    let known = known_count(alloc, values, arc)?;
    add_pour(alloc, pours, inst, arc.place, known)
}

/// Adds what the arcs of a node put.
fn add_node(
    alloc: Global,
    pours: &mut Vec<Pour>,
    system: &System,
    node: &Node,
) -> Result<(), NoMemory>
    requires fit { IsFitNode system.now node.now }
    ensures { OnOk result
        (pours.new.items ≡ pours.old.items ++ node_pours system.now node.now) }
{
    let Some(transition) = find_transition(system, node) else {
        return Ok(());
    };
    let values = NodeValues::new(system, node);
    for arc in transition.arcs.as_slice() {
        add_arc(alloc, pours, &values, &node.inst, transition, arc)?;
    }
    Ok(())
}

/// What all arcs of a binding put, node by node.
fn pours_of(alloc: Global, system: &System, binding: &Binding) -> Result<Vec<Pour>, NoMemory>
    requires fit { InscriptionsAreFit system.now binding.now }
    ensures { IfOk result (λ pours. pours.items ≡ binding_pours system.now binding.now) }
{
    let mut pours = Vec::new(alloc);
    for node in binding.nodes.as_slice() {
        add_node(alloc, &mut pours, system, node)?;
    }
    Ok(pours)
}

/// Sorts by place. What is put at one place stays in order.
fn sort_pours(pours: &mut Vec<Pour>) -> Result<(), NoMemory>
    ensures sorted { OnOk result (IsSortedByKey pour_place place_cmp pours.new.items) }
    ensures stable { (k : InstPlace) → filter (λ p. is_at k (pour_place p)) pours.new.items
        ≡ filter (λ p. is_at k (pour_place p)) pours.old.items }
    ensures same { IsPermutation pours.old.items pours.new.items }
{
    pours.sort_by(|a, b| compare_places(&a.inst, a.place, &b.inst, b.place))?;
    Ok(())
}

impl Fill {
    /// The row that one arc begins.
    fn new(alloc: Global, pour: &Pour) -> Result<Fill, NoMemory>
        ensures { IfOk result (λ fill. fill ≡ fill_of pour.now) }
    {
        Ok(Fill {
            inst: copy_inst(alloc, &pour.inst)?,
            place: pour.place,
            count: pour.count as u128,
        })
    }

    /// The same row with what one more arc puts.
    fn add(&mut self, pour: &Pour)
        requires { self.old.count + pour.now.count < 2 ^ 128 }
        ensures { self.new ≡ joined_pour pour.now self.old }
    {
        self.count += pour.count as u128;
    }
}

/// Adds what an arc puts to the last row, or a new row after it.
fn put_pour(alloc: Global, fills: &mut Vec<Fill>, pour: &Pour) -> Result<(), NoMemory>
    requires { sum_by (λ f. f.count) fills.old.items + pour.now.count < 2 ^ 128 }
    ensures { OnOk result (fills.new.items ≡ with_pour fills.old.items pour.now) }
{
    let rows = fills.len();
    if rows > 0 {
        let last = &fills[rows - 1];
        if compare_places(&pour.inst, pour.place, &last.inst, last.place).is_eq() {
            fills[rows - 1].add(pour);
            return Ok(());
        }
    }
    let fill = Fill::new(alloc, pour)?;
    fills.push(fill)?;
    Ok(())
}

/// A number of 64 bits in 128.
fn widened(number: usize) -> u128
    ensures same { result ≡ number }
    ensures bound { number < 18446744073709551616 }
{
    number as u128
}

/// The rows of all that these put, where those of one place stand together. Fewer than 2^64 numbers
/// below 2^64 add up to less than 2^128.
fn joined(alloc: Global, pours: &[Pour]) -> Result<Vec<Fill>, NoMemory>
    ensures { IfOk result (λ fills. fills.items ≡ fills_of pours.now) }
{
    let mut fills = Vec::new(alloc);
    let _many = widened(pours.len());
    for pour in pours {
        let _count = widened(pour.count);
        put_pour(alloc, &mut fills, pour)?;
    }
    Ok(fills)
}

/// How many tokens a binding puts at each place, those too whose values its actions give.
pub(crate) fn fills_of(alloc: Global, system: &System, binding: &Binding) -> Result<Fills, NoMemory>
    requires fit { InscriptionsAreFit system.now binding.now }
    ensures exact { IfOk result (λ fills. HasFills fills (filled_at system.now binding.now)) }
    ensures rises { IfOk result (λ fills. Rising fill_place fills) }
{
    let mut pours = pours_of(alloc, system, binding)?;
    sort_pours(&mut pours)?;
    let fills = joined(alloc, pours.as_slice())?;
    Ok(Items::from_vec(fills))
}
