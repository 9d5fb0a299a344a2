//! What the arcs of a node put after its actions.
ghost use Rattle.std.specs.Prelude.{◌≡◌, ◌++◌, All, IfOk, IsTrue, OnOk, flat_map};
ghost use Rattle.std.specs.List.{list_all};
ghost use Rattle.rn_model.specs.Demands.{puts};
ghost use Rattle.rn_model.specs.Firing.{output_defined};
ghost use Rattle.rn_arcs.specs.FitInscriptions.{IsFitArc};
ghost use Rattle.rn_acts.specs.link.Acting.{env_acting};
ghost use Rattle.rn_acts.specs.link.Acted.{row_of, arc_rows};

use crate::acting::Acting;
use rn_agree::awaits_action;
use rn_arcs::{elements_of, may_put};
use rn_calc::{Values, evaluate};
use rn_items::{Items, NoMemory};
use rn_model::{ArcKind, NetArc, Transition};
use rn_table::{Row, Rows};
use rn_value::{InstRef, Vals, Value};
use std::alloc::Global;

/// What an arc puts, by the value of its inscription.
fn put_by(alloc: Global, kind: ArcKind, value: Value) -> Result<Vals, NoMemory>
    ensures { IfOk result (λ values. values ≡ puts kind value) }
{
    match kind {
        ArcKind::Output | ArcKind::Reserve => {
            let mut one = Items::new(alloc);
            one.push(value)?;
            Ok(one)
        }
        ArcKind::FlexOutput => elements_of(alloc, value),
        _ => Ok(Items::new(alloc)),
    }
}

/// Adds values as a row, where there are some and the instance has a number.
fn add_row(put: &mut Rows, inst: &InstRef, place: u32, values: Vals) -> Result<(), NoMemory>
    ensures { OnOk result (put.new ≡ put.old ++ row_of inst.now place values) }
{
    if let InstRef::Old(n) = inst {
        if !values.is_empty() {
            put.push(Row {
                inst: *n,
                place,
                values,
            })?;
        }
    }
    Ok(())
}

/// Adds what one arc puts. The answer is whether it has a value, unless it needs none.
fn put_arc(
    alloc: Global,
    acting: &Acting<'_>,
    transition: &Transition,
    arc: &NetArc,
    put: &mut Rows,
) -> Result<bool, NoMemory>
    requires fit { IsFitArc (env_acting acting.now) arc.now }
    ensures defined { IfOk result (λ done. done
        ≡ output_defined transition.now (env_acting acting.now) arc.now) }
    ensures rows { IfOk result (λ done. IsTrue done →
        put.new ≡ put.old ++ arc_rows (env_acting acting.now) arc.now) }
{
    if !may_put(arc.kind) {
        return Ok(true);
    }
    match evaluate(alloc, &arc.inscription, acting)? {
        Some(value) => {
            let values = put_by(alloc, arc.kind, value)?;
            add_row(put, acting.this(), arc.place, values)?;
            Ok(true)
        }
        None => Ok(!awaits_action(transition, arc)),
    }
}

/// Adds what the arcs of a node put after its actions. The answer is whether each output that holds
/// an action variable has a value; what was added counts only where it is true.
pub(crate) fn put_outputs(
    alloc: Global,
    acting: &Acting<'_>,
    transition: &Transition,
    put: &mut Rows,
) -> Result<bool, NoMemory>
    requires fit { All (IsFitArc (env_acting acting.now)) transition.now.arcs }
    ensures defined { IfOk result (λ done. done
        ≡ list_all (output_defined transition.now (env_acting acting.now)) transition.now.arcs) }
    ensures rows { IfOk result (λ done. IsTrue done →
        put.new ≡ put.old ++ flat_map (arc_rows (env_acting acting.now)) transition.now.arcs) }
{
    for arc in transition.arcs.as_slice() {
        if !put_arc(alloc, acting, transition, arc, put)? {
            return Ok(false);
        }
    }
    Ok(true)
}
