//! The equations that decisions bring, put into a store one by one. Where no assignment satisfies
//! them with those before, or memory runs out, what was put is undone to the frame before. Else the
//! store would say more than the decisions that stand (`docs/SEARCH.md`, 'A binding grows by
//! decisions').
ghost use Rattle.std.specs.Prelude.{◌≡◌, ◌<◌, ◌≤◌, IfOk, OnErr, length, unwrap_or};
ghost use Rattle.std.specs.Option.{option_copied};
ghost use Rattle.rn_model.specs.Lists.{HaveOneValue};
ghost use Rattle.rn_model.specs.Systems.{empty_transition, uplink_args};
ghost use Rattle.rn_growing.specs.link.Building.{GetsValue};
ghost use Rattle.rn_growing.specs.Decisions.{site_of, transition_in};
ghost use Rattle.rn_growing.specs.link.Entering.{AllHold, ArgHolds, ArgsHold};
ghost use Rattle.rn_growing.specs.link.Entering.{CreationHolds, EqualityHolds};
ghost use Rattle.rn_growing.specs.Equations.{Brings, read_at};
ghost use Rattle.rn_growing.specs.Grown.{HasFewCreations, most_numbered};
ghost use Rattle.rn_growing.specs.link.Grown.{BringsIn, TriesIn};
ghost use Rattle.rn_growing.specs.link.Laid.{Grows};
ghost use Rattle.rn_growing.specs.declared.decision.Decision.TheVariants as D;

use crate::building::{build, build_hole};
use crate::decision::{Caller, Decision, Head, Site, Way};
use crate::laid::Laid;
use crate::slot::Unknown;
use rn_items::Items;
use rn_model::{Creation, Expr, System, Transition, transition_at};
use rn_value::{InstRef, NoMemory, Value, copy};
use std::alloc::Global;

/// An expression where it stands: at a site of a node.
#[derive(Clone, Copy)]
struct Placed<'a> {
    head: &'a Head,
    site: Site,
    expr: &'a Expr,
}

/// Brings in what a decision brings, or leaves all as it was.
pub(crate) fn try_bring(
    alloc: Global,
    system: &System,
    laid: &mut Laid,
    decision: &Decision,
) -> Result<bool, NoMemory>
    requires { HasFewCreations system.now }
    ensures tried { IfOk result
        (λ yes. TriesIn laid.old (λ a. Brings system.now a decision.now) laid.new yes) }
    ensures grows { IfOk result (λ yes. Grows laid.old laid.new) }
    ensures err { OnErr result (laid.new ≡ laid.old) }
{
    let frame = laid.frame();
    match bring(alloc, system, laid, decision) {
        Ok(true) => Ok(true),
        Ok(false) => {
            laid.undo(&frame);
            Ok(false)
        }
        Err(error) => {
            laid.undo(&frame);
            Err(error)
        }
    }
}

/// Brings in what a decision brings, or says that no assignment given satisfies it.
fn bring(
    alloc: Global,
    system: &System,
    laid: &mut Laid,
    decision: &Decision,
) -> Result<bool, NoMemory>
    requires { HasFewCreations system.now }
    ensures brings { IfOk result
        (λ yes. BringsIn laid.old (λ a. Brings system.now a decision.now) laid.new yes) }
    ensures grows { Grows laid.old laid.new }
{
    match decision {
        Decision::Entered(head, caller) => bring_entry(alloc, system, laid, head, caller),
        Decision::Found(head, arc, value) => bring_found(alloc, system, laid, head, *arc, value),
        Decision::Computed(head, site, way, value) => {
            bring_computed(alloc, laid, head, *site, way, value)
        }
    }
}

/// The transition of a node, where there is one.
pub fn transition_in<'a>(system: &'a System, head: &Head) -> Option<&'a Transition>
    ensures { unwrap_or (option_copied result) empty_transition
        ≡ transition_in system.now head.now }
{
    transition_at(system, head.net, head.transition)
}

/// The entry of a node brings its equalities, its creations, and the arguments of its call.
fn bring_entry(
    alloc: Global,
    system: &System,
    laid: &mut Laid,
    head: &Head,
    caller: &Option<Caller>,
) -> Result<bool, NoMemory>
    requires { HasFewCreations system.now }
    ensures brings { IfOk result (λ yes. BringsIn laid.old
        (λ a. Brings system.now a (D.Entered head.now caller.now)) laid.new yes) }
    ensures grows { Grows laid.old laid.new }
{
    let transition = match transition_in(system, head) {
        Some(transition) => transition,
        None => return Ok(true),
    };
    if !bring_equalities(alloc, laid, head, transition.equalities.as_slice())? {
        return Ok(false);
    }
    if !bring_creations(alloc, laid, head, transition.creations.as_slice())? {
        return Ok(false);
    }
    bring_call(alloc, system, laid, head, caller)
}

/// Both sides of each equality have one value.
fn bring_equalities(
    alloc: Global,
    laid: &mut Laid,
    head: &Head,
    equalities: &[(Expr, Expr)],
) -> Result<bool, NoMemory>
    ensures brings { IfOk result
        (λ yes. BringsIn laid.old (AllHold (EqualityHolds head.now equalities.now)) laid.new yes) }
    ensures grows { Grows laid.old laid.new }
{
    for i in 0..equalities.len() {
        let (left, right) = &equalities[i];
        let one = Placed {
            head,
            site: Site::Left(i),
            expr: left,
        };
        let other = Placed {
            head,
            site: Site::Right(i),
            expr: right,
        };
        if !equate(alloc, laid, one, other)? {
            return Ok(false);
        }
    }
    Ok(true)
}

/// The variable of each creation names the instance that it makes.
fn bring_creations(
    alloc: Global,
    laid: &mut Laid,
    head: &Head,
    creations: &[Creation],
) -> Result<bool, NoMemory>
    requires { length creations.now ≤ most_numbered }
    ensures brings { IfOk result
        (λ yes. BringsIn laid.old (AllHold (CreationHolds head.now creations.now)) laid.new yes) }
    ensures grows { Grows laid.old laid.new }
{
    for j in 0..creations.len() {
        let path = Items::from_vec(Vec::from_slice(alloc, head.path.as_slice())?);
        let made = Value::Inst(InstRef::New(path, j as u8));
        let var = laid.unknown(alloc, &head.path, Unknown::Var(creations[j].var))?;
        if !give(alloc, laid, var, made)? {
            return Ok(false);
        }
    }
    Ok(true)
}

/// Each argument of the downlink that calls a node has one value with the node's.
fn bring_call(
    alloc: Global,
    system: &System,
    laid: &mut Laid,
    head: &Head,
    caller: &Option<Caller>,
) -> Result<bool, NoMemory>
    ensures brings { IfOk result
        (λ yes. BringsIn laid.old (ArgsHold system.now head.now caller.now) laid.new yes) }
    ensures grows { Grows laid.old laid.new }
{
    let from = match caller {
        Some(from) => from,
        None => return Ok(true),
    };
    let calling = match transition_in(system, &from.head) {
        Some(calling) => calling,
        None => return Ok(true),
    };
    let downlink = match calling.downlinks.get(from.downlink as usize) {
        Some(downlink) => downlink,
        None => return Ok(true),
    };
    bring_args(
        alloc,
        laid,
        from,
        downlink.args.as_slice(),
        head,
        args_of(system, head),
    )
}

/// The arguments of a node's uplink.
fn args_of<'a>(system: &'a System, head: &Head) -> &'a [Expr]
    ensures { result.now ≡ uplink_args (transition_in system.now head.now) }
{
    match transition_in(system, head) {
        Some(transition) => match &transition.uplink {
            Some(uplink) => uplink.args.as_slice(),
            None => &[],
        },
        None => &[],
    }
}

/// Each two arguments have one value.
fn bring_args(
    alloc: Global,
    laid: &mut Laid,
    from: &Caller,
    args: &[Expr],
    head: &Head,
    others: &[Expr],
) -> Result<bool, NoMemory>
    ensures brings { IfOk result (λ yes. BringsIn laid.old
        (AllHold (ArgHolds from.now args.now head.now others.now)) laid.new yes) }
    ensures grows { Grows laid.old laid.new }
{
    let caller = &from.head;
    let downlink = from.downlink as usize;
    for k in 0..args.len() {
        if k >= others.len() {
            return Ok(true);
        }
        let one = Placed {
            head: caller,
            site: Site::DownlinkArg(downlink, k),
            expr: &args[k],
        };
        let other = Placed {
            head,
            site: Site::UplinkArg(k),
            expr: &others[k],
        };
        if !equate(alloc, laid, one, other)? {
            return Ok(false);
        }
    }
    Ok(true)
}

/// Two expressions have one value.
fn equate(alloc: Global, laid: &mut Laid, one: Placed, other: Placed) -> Result<bool, NoMemory>
    ensures brings { IfOk result (λ yes. BringsIn laid.old
        (λ a. HaveOneValue
        (read_at a one.entry.head.now (site_of one.entry.site) one.entry.expr.now)
        (read_at a other.entry.head.now (site_of other.entry.site) other.entry.expr.now))
        laid.new yes) }
    ensures grows { Grows laid.old laid.new }
{
    let mut way = Vec::new(alloc);
    let p = match build(one.expr, alloc, laid, one.head, one.site, &mut way)? {
        Some(p) => p,
        None => return Ok(false),
    };
    let mut way = Vec::new(alloc);
    let q = match build(other.expr, alloc, laid, other.head, other.site, &mut way)? {
        Some(q) => q,
        None => return Ok(false),
    };
    laid.equal(alloc, p, q)
}

/// An arc's inscription has the value that it finds.
fn bring_found(
    alloc: Global,
    system: &System,
    laid: &mut Laid,
    head: &Head,
    arc: usize,
    value: &Value,
) -> Result<bool, NoMemory>
    ensures brings { IfOk result (λ yes. BringsIn laid.old
        (λ a. Brings system.now a (D.Found head.now arc value.now)) laid.new yes) }
    ensures grows { Grows laid.old laid.new }
{
    let transition = match transition_in(system, head) {
        Some(transition) => transition,
        None => return Ok(true),
    };
    let found = match transition.arcs.get(arc) {
        Some(found) => found,
        None => return Ok(true),
    };
    let token = copy(alloc, value)?;
    let mut way = Vec::new(alloc);
    let site = Site::Inscription(arc);
    match build(&found.inscription, alloc, laid, head, site, &mut way)? {
        Some(built) => give(alloc, laid, built, token),
        None => Ok(false),
    }
}

/// An operator application has its value.
fn bring_computed(
    alloc: Global,
    laid: &mut Laid,
    head: &Head,
    site: Site,
    way: &Way,
    value: &Value,
) -> Result<bool, NoMemory>
    ensures brings { IfOk result (λ yes. BringsIn laid.old
        (λ a. a.hole head.now.path (site_of site) way.now ≡ value.now) laid.new yes) }
    ensures grows { Grows laid.old laid.new }
{
    let worth = copy(alloc, value)?;
    let hole = build_hole(alloc, laid, head, site, way.as_slice())?;
    give(alloc, laid, hole, worth)
}

/// What an id names has a value.
fn give(alloc: Global, laid: &mut Laid, id: usize, value: Value) -> Result<bool, NoMemory>
    requires { id < length laid.old.store.terms }
    ensures gets { IfOk result (λ yes. GetsValue laid.old id value laid.new yes) }
    ensures grows { Grows laid.old laid.new }
{
    // For its clause: the ids of the slots are ids of the store.
    let _laid_in = laid.frame();
    let atom = laid.atom(value)?;
    laid.equal(alloc, id, atom)
}
