//! The change of a firing.
ghost use Rattle.std.specs.Prelude.{◌≡◌, ℕ, All, IfOk, flat_map, map};
ghost use Rattle.rn_value.specs.declared.value.InstRef.TheVariants.{Old as Numbered};
ghost use Rattle.rn_model.specs.Bindings.{IsNodeOf};
ghost use Rattle.rn_model.specs.Demands.{cleared_at, taken_at};
ghost use Rattle.rn_model.specs.Firing.{Effects, creations_of, marking_after};
ghost use Rattle.rn_model.specs.Good.{Good};
ghost use Rattle.rn_model.specs.Markings.{Marking};
ghost use Rattle.rn_calc.specs.OwnKinds.{HaveOwnKinds};
ghost use Rattle.rn_table.specs.Changes.{changed, values_at};
ghost use Rattle.rn_table.specs.Laws.{LeavesNew};
ghost use Rattle.rn_acts.specs.Acted.{AreOfArcs, ArePut};
ghost use Rattle.rn_acts.specs.link.ChangeRows.{numbered_row};

use crate::creations::nets_made;
use rn_arcs::{Place2, Places2, Takings, takings_of};
use rn_items::{Items, NoMemory};
use rn_model::{Binding, System};
use rn_table::{Change, Row, Rows};
use rn_value::InstRef;
use std::alloc::Global;

/// The rows of instances with numbers.
fn numbered_rows(alloc: Global, places: Places2) -> Result<Rows, NoMemory>
    ensures { IfOk result (λ rows. rows ≡ flat_map numbered_row places) }
{
    let mut rows = Items::new(alloc);
    for row in places.into_vec() {
        let Place2 {
            inst,
            place,
            values,
        } = row;
        if let InstRef::Old(n) = inst {
            rows.push(Row {
                inst: n,
                place,
                values,
            })?;
        }
    }
    Ok(rows)
}

/// The change of a firing, for a binding whose new instances have their numbers: what it takes and
/// clears, the nets of the instances that it makes, and these rows of what it puts.
pub fn change_of(
    alloc: Global,
    system: &System,
    binding: &Binding,
    put: Rows,
) -> Result<Change, NoMemory>
    requires good { Good system.now }
    requires nodes { All (IsNodeOf system.now) binding.now.nodes }
    requires kinds { All (HaveOwnKinds system.now) binding.now.nodes }
    ensures taken { IfOk result (λ change. (n place : ℕ) → values_at change.taken n place
        ≡ taken_at system.now binding.now (Numbered n) place) }
    ensures cleared { IfOk result (λ change. (n place : ℕ) → values_at change.cleared n place
        ≡ flat_map (λ vs. vs) (cleared_at system.now binding.now (Numbered n) place)) }
    ensures made { IfOk result (λ change.
        change.made ≡ map (λ c. c.net) (creations_of system.now binding.now)) }
    ensures put { IfOk result (λ change. change.put ≡ put) }
    ensures arcs { IfOk result (λ change. AreOfArcs system.now binding.now.nodes change.taken
        × AreOfArcs system.now binding.now.nodes change.cleared) }
    ensures after { IfOk result (λ change. (effects : Effects) (m : Marking) →
        ArePut system.now effects put → LeavesNew change m.next →
        changed system.now change m
        ≡ marking_after system.now m (creations_of system.now binding.now) binding.now effects) }
{
    let Takings { taken, cleared } = takings_of(alloc, system, binding)?;
    Ok(Change {
        taken: numbered_rows(alloc, taken)?,
        cleared: numbered_rows(alloc, cleared)?,
        made: nets_made(alloc, system, binding)?,
        put,
    })
}
