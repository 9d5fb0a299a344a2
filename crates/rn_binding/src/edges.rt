//! The edges of a binding: which items and variables may follow from which.
ghost use Rattle.rn_agree.specs.Paths.{AscendByPath};

use crate::applications::{Application, uplink_args};
use crate::call::{across, call_of, part_on};
use crate::equations::{put_equation, put_equations};
use crate::event::{Edge, Event};
use crate::part::Part;
use crate::subject::Subject;
use rn_agree::node_index;
use rn_model::{Expr, Node, find_transition, put_vars};
use rn_value::NoMemory;
use std::alloc::Global;

// The index of an item, and its node with the node's own index.
#[derive(Clone, Copy)]
struct Indexed<'a> {
    i: usize,
    n: usize,
    node: &'a Node,
}

// Puts the edges of a node's equalities, and of the arguments of its call.
fn put_node(
    alloc: Global,
    subject: Subject<'_>,
    n: usize,
    node: &Node,
    edges: &mut Vec<Edge>,
) -> Result<(), NoMemory>
    requires ascending { AscendByPath subject.binding.now.nodes }
{
    let Some(transition) = find_transition(subject.system, node) else {
        return Ok(());
    };
    for k in 0..transition.equalities.len() {
        let (left, right) = &transition.equalities.as_slice()[k];
        put_equation(alloc, left, n, right, n, edges)?;
    }
    let Some(call) = call_of(subject.system, subject.binding, node) else {
        return Ok(());
    };
    let args = call.downlink.args.as_slice();
    put_equations(alloc, args, call.caller, uplink_args(transition), n, edges)
}

// Puts that an item may come in once a node did.
fn put_after(entries: &[usize], n: usize, i: usize, edges: &mut Vec<Edge>) -> Result<(), NoMemory> {
    if let Some(entry) = entries.get(n) {
        let from = Event::In(*entry);
        edges.push(Edge {
            from,
            to: Event::In(i),
        })?;
    }
    Ok(())
}

// Puts that an item may come in once a variable of an expression of a node is forced.
fn put_waiting(
    alloc: Global,
    n: usize,
    expr: &Expr,
    i: usize,
    edges: &mut Vec<Edge>,
) -> Result<(), NoMemory> {
    let mut vars = Vec::new(alloc);
    put_vars(expr, &mut vars)?;
    for x in vars.as_slice() {
        let from = Event::Forced(n, *x);
        edges.push(Edge {
            from,
            to: Event::In(i),
        })?;
    }
    Ok(())
}

// Puts that an item may force these variables of a node.
fn put_forced(i: usize, n: usize, vars: &[u32], edges: &mut Vec<Edge>) -> Result<(), NoMemory> {
    for x in vars {
        let from = Event::In(i);
        edges.push(Edge {
            from,
            to: Event::Forced(n, *x),
        })?;
    }
    Ok(())
}

// Puts that an item may force the variables of an expression of a node.
fn put_forcing(
    alloc: Global,
    i: usize,
    n: usize,
    expr: &Expr,
    edges: &mut Vec<Edge>,
) -> Result<(), NoMemory> {
    let mut vars = Vec::new(alloc);
    put_vars(expr, &mut vars)?;
    put_forced(i, n, vars.as_slice(), edges)
}

// Puts that an item may force the variables of expressions of a node.
fn put_forcing_all(
    alloc: Global,
    i: usize,
    n: usize,
    exprs: &[Expr],
    edges: &mut Vec<Edge>,
) -> Result<(), NoMemory> {
    for expr in exprs {
        put_forcing(alloc, i, n, expr, edges)?;
    }
    Ok(())
}

// Puts the edges of an entry. It waits for its caller and the target, and may force variables of
// the node and those of the arguments of its call.
fn put_entry(
    alloc: Global,
    subject: Subject<'_>,
    entries: &[usize],
    indexed: Indexed<'_>,
    edges: &mut Vec<Edge>,
) -> Result<(), NoMemory>
    requires ascending { AscendByPath subject.binding.now.nodes }
{
    let Indexed { i, n, node } = indexed;
    if let Some(transition) = find_transition(subject.system, node) {
        put_forced(i, n, transition.vars.as_slice(), edges)?;
    }
    let Some(call) = call_of(subject.system, subject.binding, node) else {
        return Ok(());
    };
    put_after(entries, call.caller, i, edges)?;
    put_waiting(alloc, call.caller, &call.downlink.target, i, edges)?;
    put_forcing_all(alloc, i, call.caller, call.downlink.args.as_slice(), edges)
}

// Puts the edges of an operator application. It waits for its node and its variables, and may force
// those of the other side of its equation.
fn put_computed(
    alloc: Global,
    subject: Subject<'_>,
    entries: &[usize],
    indexed: Indexed<'_>,
    application: &Application<'_>,
    edges: &mut Vec<Edge>,
) -> Result<(), NoMemory>
    requires ascending { AscendByPath subject.binding.now.nodes }
{
    let Indexed { i, n, node } = indexed;
    put_after(entries, n, i, edges)?;
    put_waiting(alloc, n, application.form, i, edges)?;
    let site = application.site;
    let Some((m, other)) = across(subject.system, subject.binding, node, n, site) else {
        return Ok(());
    };
    let part = part_on(other, application.way.as_slice());
    put_forcing(alloc, i, m, part, edges)
}

// Puts the edges of an item.
fn put_part(
    alloc: Global,
    subject: Subject<'_>,
    entries: &[usize],
    i: usize,
    part: &Part<'_>,
    edges: &mut Vec<Edge>,
) -> Result<(), NoMemory>
    requires ascending { AscendByPath subject.binding.now.nodes }
{
    let node = part.node();
    let Some(n) = node_index(subject.binding, node.path.as_slice()) else {
        return Ok(());
    };
    let indexed = Indexed { i, n, node };
    match part {
        Part::Entry(_) => put_entry(alloc, subject, entries, indexed, edges),
        Part::Found(_, _, arc) => {
            put_after(entries, n, i, edges)?;
            put_forcing(alloc, i, n, &arc.inscription, edges)
        }
        Part::Computed(_, application) => {
            put_computed(alloc, subject, entries, indexed, application, edges)
        }
    }
}

// The indices of the entries, node by node.
fn entries_of(alloc: Global, parts: &[Part<'_>]) -> Result<Vec<usize>, NoMemory> {
    let mut entries = Vec::new(alloc);
    for i in 0..parts.len() {
        if matches!(&parts[i], Part::Entry(_)) {
            entries.push(i)?;
        }
    }
    Ok(entries)
}

// Puts the edges of all nodes.
fn put_nodes(alloc: Global, subject: Subject<'_>, edges: &mut Vec<Edge>) -> Result<(), NoMemory>
    requires ascending { AscendByPath subject.binding.now.nodes }
{
    let nodes = subject.binding.nodes.as_slice();
    for n in 0..nodes.len() {
        put_node(alloc, subject, n, &nodes[n], edges)?;
    }
    Ok(())
}

/// The edges of a binding of which these items wait, in order.
pub(crate) fn edges_of(
    alloc: Global,
    subject: Subject<'_>,
    parts: &[Part<'_>],
    pending: &[usize],
) -> Result<Vec<Edge>, NoMemory>
    requires ascending { AscendByPath subject.binding.now.nodes }
{
    let entries = entries_of(alloc, parts)?;
    let mut edges = Vec::new(alloc);
    put_nodes(alloc, subject, &mut edges)?;
    for i in pending {
        if let Some(part) = parts.get(*i) {
            put_part(alloc, subject, entries.as_slice(), *i, part, &mut edges)?;
        }
    }
    edges.sort_unstable();
    Ok(edges)
}
