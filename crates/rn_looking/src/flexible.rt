//! What is known of the flexible arcs of a node that take the elements of a list. Each binding that
//! follows has the list that is forced, so where the place doesn't hold its elements as often, the
//! branch ends. What other arcs take of the place isn't counted (`docs/SEARCH.md`, "What isn't
//! said").
ghost use Rattle.std.specs.Prelude.{◌≡◌, ◌<◌, ◌↔◌, IfOk, IsTrue, length};
ghost use Rattle.rn_model.specs.Lists.{IsWithin};
ghost use Rattle.rn_model.specs.Markings.{tokens};
ghost use Rattle.rn_looking.specs.declared.told.Verdict.TheVariants.{Fails};
ghost use Rattle.rn_looking.specs.link.Views.{IsNodeStuck, IsNodeView};

use crate::arcs::{arc_at, known_value};
use crate::parts::is_flexible;
use crate::told::{Verdict, unless_waits};
use crate::views::NodeView;
use rn_arcs::{bag_at, elements_of};
use rn_items::Items;
use rn_table::Table;
use rn_value::{InstRef, NoMemory, Vals, sort};
use std::alloc::Global;

// Whether a place holds each of these values as often as they have it. Each of them is looked up
// once they are sorted.
fn holds_all(table: &Table, inst: &InstRef, place: u32, values: Vals) -> Result<bool, NoMemory>
    ensures { IfOk result (λ yes. IsTrue yes
        ↔ IsWithin values (tokens table.now.marking inst.now place)) }
{
    let mut sorted = values.into_vec();
    sort(&mut sorted)?;
    let sorted = Items::from_vec(sorted);
    match bag_at(table, inst, place) {
        Some(bag) => Ok(bag.has_all(&sorted)),
        None => Ok(sorted.is_empty()),
    }
}

// What is known of an arc: it fails where it is a flexible arc, its list is known, and its place
// doesn't hold each element as often as the list has it.
fn test_arc(alloc: Global, at: NodeView<'_>, k: usize) -> Result<Verdict, NoMemory>
    requires at { IsNodeView at }
    requires within { k < length at.transition.now.arcs }
    ensures { IfOk result (λ told. told ≡ Fails → IsNodeStuck at.entry) }
{
    let arc = arc_at(at.transition, k);
    if !is_flexible(arc.kind) {
        return Ok(Verdict::Holds);
    }
    let Some(list) = known_value(alloc, at.growing, at.head, &arc.inscription)? else {
        return Ok(Verdict::Waits);
    };
    let values = elements_of(alloc, list)?;
    if holds_all(at.problem.table(), &at.head.inst, arc.place, values)? {
        Ok(Verdict::Holds)
    } else {
        Ok(Verdict::Fails)
    }
}

/// What is known of the flexible arcs of a node. One fails where its list is known, and its place
/// doesn't hold each element of that as often. Then the decisions lead to no binding: each has the
/// forced values, and so takes all elements of this list.
pub(crate) fn test_lists(alloc: Global, at: NodeView<'_>) -> Result<Verdict, NoMemory>
    requires { IsNodeView at }
    ensures { IfOk result (λ told. told ≡ Fails → IsNodeStuck at.entry) }
{
    let mut waits = false;
    for k in 0..at.transition.arcs.len() {
        match test_arc(alloc, at, k)? {
            Verdict::Fails => return Ok(Verdict::Fails),
            Verdict::Waits => waits = true,
            Verdict::Holds => {}
        }
    }
    Ok(unless_waits(waits))
}
