//! Whether an item of a binding may come in now, and bringing it in with the binding's own value.
ghost use Rattle.std.specs.Prelude.{◌≡◌, Contains, IfOk, IfSome, OnOk, []};
ghost use Rattle.std.specs.Option.{option_copied};
ghost use Rattle.rn_model.specs.Bindings.{node_at};
ghost use Rattle.rn_model.specs.Derivation.{entry, found, items_of};
ghost use Rattle.rn_agree.specs.Paths.{AscendByPath};
ghost use Rattle.rn_binding.specs.link.Parts.{item_of, computed_by};
ghost use Rattle.rn_binding.specs.link.Passing.{IsGiven, IsFollowed, BringsItem};

use crate::applications::Application;
use crate::forcing::is_expr_forced;
use crate::headed::Headed;
use crate::part::Part;
use crate::subject::Subject;
use rn_agree::node_index;
use rn_calc::{NodeValues, evaluate};
use rn_growing::{Caller, Growing, Site, Way, copy_head};
use rn_model::{NetArc, transition_of};
use rn_value::NoMemory;
use std::alloc::Global;

// The node on this path, beside its head.
fn headed_on<'a>(subject: Subject<'a>, path: &[u32]) -> Option<&'a Headed<'a>>
    requires ascending { AscendByPath subject.binding.now.nodes }
    requires headed { subject.headed.now ≡ subject.binding.now.nodes }
    ensures node { option_copied result ≡ node_at subject.entry.binding.now path.now }
    ensures there { IfSome result (λ node. Contains subject.entry.binding.now.nodes node.now) }
{
    subject.headed.get(node_index(subject.binding, path)?)
}

// A child comes in once its caller was entered and the target of its downlink is forced. The start
// was entered first of all.
pub(crate) fn bring_entry(
    alloc: Global,
    subject: Subject<'_>,
    growing: &mut Growing<'_>,
    headed: &Headed<'_>,
) -> Result<bool, NoMemory>
    requires given { IsGiven subject.system.now subject.binding.now }
    requires headed { subject.headed.now ≡ subject.binding.now.nodes }
    requires followed { IsFollowed subject.system.now subject.binding.now growing.old }
    requires item { Contains subject.binding.now.nodes headed.now }
    ensures brings { IfOk result (λ yes. BringsItem subject.entry.system.now
        subject.entry.binding.now growing.old (entry headed.now) growing.new yes) }
    ensures followed { IfOk result (λ yes. IsFollowed subject.entry.system.now
        subject.entry.binding.now growing.new) }
{
    let node = headed.node();
    let path = node.path.as_slice();
    if growing.was_entered(path) {
        return Ok(true);
    }
    let Some((i, front)) = path.split_last() else {
        return Ok(false);
    };
    let Some(caller) = headed_on(subject, front) else {
        return Ok(false);
    };
    if !growing.was_entered(front) {
        return Ok(false);
    }
    let Some(downlink) = transition_of(subject.system, caller.node())
        .downlinks
        .get(*i as usize)
    else {
        return Ok(false);
    };
    let from = copy_head(alloc, caller.head())?;
    let site = Site::Target(*i as usize);
    let Some(_inst) = growing.target(alloc, &from, site, &downlink.target)? else {
        return Ok(false);
    };
    let head = copy_head(alloc, headed.head())?;
    growing.enter(
        alloc,
        head,
        Some(Caller {
            head: from,
            downlink: *i,
        }),
    )
}

// What an arc finds comes in once its node was entered.
pub(crate) fn bring_found(
    alloc: Global,
    subject: Subject<'_>,
    growing: &mut Growing<'_>,
    headed: &Headed<'_>,
    k: usize,
    arc: &NetArc,
) -> Result<bool, NoMemory>
    requires given { IsGiven subject.system.now subject.binding.now }
    requires followed { IsFollowed subject.system.now subject.binding.now growing.old }
    requires item { Contains (items_of subject.system.now subject.binding.now)
        (found headed.now k arc.now) }
    ensures brings { IfOk result (λ yes. BringsItem subject.entry.system.now
        subject.entry.binding.now growing.old (found headed.now k arc.now) growing.new yes) }
    ensures followed { IfOk result (λ yes. IsFollowed subject.entry.system.now
        subject.entry.binding.now growing.new) }
{
    let node = headed.node();
    let path = node.path.as_slice();
    if growing.was_found(path, k) {
        return Ok(true);
    }
    if !growing.was_entered(path) {
        return Ok(false);
    }
    let values = NodeValues::new(subject.system, node);
    let Some(value) = evaluate(alloc, &arc.inscription, &values)? else {
        return Ok(false);
    };
    let head = copy_head(alloc, headed.head())?;
    growing.find(alloc, head, k, value)
}

// An operator application comes in once its node was entered and all its variables are forced.
pub(crate) fn bring_computed(
    alloc: Global,
    subject: Subject<'_>,
    growing: &mut Growing<'_>,
    headed: &Headed<'_>,
    application: &Application<'_>,
) -> Result<bool, NoMemory>
    requires given { IsGiven subject.system.now subject.binding.now }
    requires followed { IsFollowed subject.system.now subject.binding.now growing.old }
    requires item { Contains (items_of subject.system.now subject.binding.now)
        (computed_by headed.now application.now) }
    ensures brings { IfOk result (λ yes. BringsItem subject.entry.system.now
        subject.entry.binding.now growing.old (computed_by headed.now application.now)
        growing.new yes) }
    ensures followed { IfOk result (λ yes. IsFollowed subject.entry.system.now
        subject.entry.binding.now growing.new) }
{
    let node = headed.node();
    let path = node.path.as_slice();
    let site = application.site;
    let way = application.way.as_slice();
    if growing.was_computed(path, site, way) {
        return Ok(true);
    }
    if !growing.was_entered(path) {
        return Ok(false);
    }
    if !is_expr_forced(alloc, growing, path, application.form)? {
        return Ok(false);
    }
    let values = NodeValues::new(subject.system, node);
    let Some(value) = evaluate(alloc, application.form, &values)? else {
        return Ok(false);
    };
    let head = copy_head(alloc, headed.head())?;
    let way = Way::from_vec(Vec::from_slice(alloc, way)?);
    growing.compute(alloc, head, site, way, value)
}

/// Brings an item in, with the binding's own value, where it may come in now. True if it is in
/// then.
pub(crate) fn bring(
    alloc: Global,
    subject: Subject<'_>,
    growing: &mut Growing<'_>,
    part: &Part<'_>,
) -> Result<bool, NoMemory>
    requires given { IsGiven subject.system.now subject.binding.now }
    requires headed { subject.headed.now ≡ subject.binding.now.nodes }
    requires followed { IsFollowed subject.system.now subject.binding.now growing.old }
    requires item { Contains (items_of subject.system.now subject.binding.now) (item_of part.now) }
    ensures brings { IfOk result (λ yes. BringsItem subject.entry.system.now
        subject.entry.binding.now growing.old (item_of part.now) growing.new yes) }
    ensures followed { IfOk result (λ yes. IsFollowed subject.entry.system.now
        subject.entry.binding.now growing.new) }
{
    match part {
        Part::Entry(node) => bring_entry(alloc, subject, growing, node),
        Part::Found(node, k, arc) => bring_found(alloc, subject, growing, node, *k, arc),
        Part::Computed(node, application) => {
            bring_computed(alloc, subject, growing, node, application)
        }
    }
}

/// The start is entered first of all.
pub(crate) fn enter_start(
    alloc: Global,
    subject: Subject<'_>,
    growing: &mut Growing<'_>,
) -> Result<(), NoMemory>
    requires given { IsGiven subject.system.now subject.binding.now }
    requires headed { subject.headed.now ≡ subject.binding.now.nodes }
    requires empty { growing.old ≡ record { system = subject.system.now; decisions = [] } }
    ensures { OnOk result (IsFollowed subject.entry.system.now subject.entry.binding.now
        growing.new) }
{
    if let Some(start) = headed_on(subject, &[]) {
        let head = copy_head(alloc, start.head())?;
        let _entered = growing.enter(alloc, head, None)?;
    }
    Ok(())
}
