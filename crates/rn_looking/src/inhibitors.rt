//! What is known of the inhibitor arcs of a node. The marking stays as it is during a search, so
//! once an arc's token is known, whether it is there holds for each binding to which the decisions
//! lead. An arc whose token isn't known waits (`docs/SEARCH.md`, 'What it does next').
ghost use Rattle.std.specs.Prelude.{◌≡◌, ◌<◌, IfOk, length};
ghost use Rattle.rn_looking.specs.declared.told.Verdict.TheVariants.{Fails};
ghost use Rattle.rn_looking.specs.link.Views.{IsNodeStuck, IsNodeView};

use crate::arcs::{arc_at, known_value};
use crate::parts::is_inhibitor;
use crate::told::{Verdict, unless_waits};
use crate::views::NodeView;
use rn_value::NoMemory;
use std::alloc::Global;

// What is known of an arc: it fails where it is an inhibitor arc, its token is known, and its place
// holds that.
fn test_arc(alloc: Global, at: NodeView<'_>, k: usize) -> Result<Verdict, NoMemory>
    requires at { IsNodeView at }
    requires within { k < length at.transition.now.arcs }
    ensures { IfOk result (λ told. told ≡ Fails → IsNodeStuck at.entry) }
{
    let arc = arc_at(at.transition, k);
    if !is_inhibitor(arc.kind) {
        return Ok(Verdict::Holds);
    }
    let decisions = at.growing.decisions();
    match known_value(alloc, at.growing, at.head, &arc.inscription)? {
        Some(value) => match at.problem.only_token(decisions, at.node, k, &value) {
            Some(_) => Ok(Verdict::Fails),
            None => Ok(Verdict::Holds),
        },
        None => Ok(Verdict::Waits),
    }
}

/// What is known of the inhibitor arcs of a node. One fails where its place is known to hold its
/// token. Then the decisions lead to no binding: each has the forced values, and so asks that this
/// token isn't there.
pub(crate) fn test_inhibitors(alloc: Global, at: NodeView<'_>) -> Result<Verdict, NoMemory>
    requires { IsNodeView at }
    ensures { IfOk result (λ told. told ≡ Fails → IsNodeStuck at.entry) }
{
    let mut waits = false;
    for k in 0..at.transition.arcs.len() {
        match test_arc(alloc, at, k)? {
            Verdict::Fails => return Ok(Verdict::Fails),
            Verdict::Waits => waits = true,
            Verdict::Holds => {}
        }
    }
    Ok(unless_waits(waits))
}
