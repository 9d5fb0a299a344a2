//! Nodes that the newest decision reaches: those whose variables are forced by it, along calls.
//! Values that flow through calls force the next thing there, and a look would else go through all
//! nodes to find it. It only decides which nodes are looked at first (`docs/SEARCH.md`, 'What it
//! does next').
use crate::entered::EnteredPaths;
use rn_growing::{Decision, Site, transition_in};
use rn_looking::Remembered;
use rn_model::{Expr, System, Transition};
use rn_value::NoMemory;
use std::alloc::Global;

// So many variables and nodes at most are gone through.
const FEW: usize = 16;

/// Some of the nodes, by the decisions that enter them, and variables of them that may be forced.
#[derive(Clone, Copy)]
struct Reached {
    vars: [(usize, u32); FEW],
    var_count: usize,
    nodes: [usize; FEW],
    node_count: usize,
}

impl Reached {
    fn none() -> Reached {
        Reached {
            vars: [(0, 0); FEW],
            var_count: 0,
            nodes: [0; FEW],
            node_count: 0,
        }
    }

    // One more variable, where it isn't there and there is room.
    fn put_var(&mut self, node: usize, x: u32) {
        for k in 0..self.var_count.min(FEW) {
            if self.vars[k].0 == node && self.vars[k].1 == x {
                return;
            }
        }
        if self.var_count < FEW {
            self.vars[self.var_count] = (node, x);
            self.var_count += 1;
        }
    }

    // One more node, where it isn't there and there is room.
    fn put_node(&mut self, node: usize) {
        for k in 0..self.node_count.min(FEW) {
            if self.nodes[k] == node {
                return;
            }
        }
        if self.node_count < FEW {
            self.nodes[self.node_count] = node;
            self.node_count += 1;
        }
    }

    // The variables of an expression, where it is one or a tuple of them.
    fn put_expr(&mut self, node: usize, expr: &Expr) {
        match expr {
            Expr::Var(x) => self.put_var(node, *x),
            Expr::Tuple(parts) => {
                for part in parts.as_slice() {
                    if let Expr::Var(x) = part {
                        self.put_var(node, *x);
                    }
                }
            }
            _ => (),
        }
    }
}

/// The nodes that decisions enter, as functions hand them on.
#[derive(Clone, Copy)]
struct EnteredNodes<'a> {
    system: &'a System,
    decisions: &'a [Decision],

    /// By which they are found.
    entries: &'a EnteredPaths,
}

// The transition of the node that a decision enters.
fn transition_at<'a>(nodes: EnteredNodes<'a>, node: usize) -> Option<&'a Transition> {
    match nodes.decisions.get(node) {
        Some(Decision::Entered(head, _)) => transition_in(nodes.system, head),
        _ => None,
    }
}

// Whether an expression is a variable.
fn is_var(expr: &Expr, x: u32) -> bool {
    match expr {
        Expr::Var(y) => *y == x,
        _ => false,
    }
}

// An argument of the uplink of a node.
fn uplink_arg<'a>(nodes: EnteredNodes<'a>, node: usize, j: usize) -> Option<&'a Expr> {
    let Some(transition) = transition_at(nodes, node) else {
        return None;
    };
    match &transition.uplink {
        Some(uplink) => uplink.args.get(j),
        None => None,
    }
}

// The node that calls another, and an argument of that call.
fn calling_arg<'a>(nodes: EnteredNodes<'a>, node: usize, j: usize) -> Option<(usize, &'a Expr)> {
    let Some(Decision::Entered(_, Some(caller))) = nodes.decisions.get(node) else {
        return None;
    };
    let Some(above) = nodes
        .entries
        .node_on(nodes.decisions, caller.head.path.as_slice())
    else {
        return None;
    };
    let Some(transition) = transition_at(nodes, above) else {
        return None;
    };
    let Some(downlink) = transition.downlinks.get(caller.downlink as usize) else {
        return None;
    };
    match downlink.args.get(j) {
        Some(arg) => Some((above, arg)),
        None => None,
    }
}

// A child that is called with a variable is reached, with the variable that stands for it there.
fn reach_child(nodes: EnteredNodes<'_>, path: &[u32], i: usize, j: usize, reached: &mut Reached) {
    let Some(child) = nodes.entries.child_on(nodes.decisions, path, i) else {
        return;
    };
    reached.put_node(child);
    if let Some(arg) = uplink_arg(nodes, child, j) {
        reached.put_expr(child, arg);
    }
}

// The children of a node that are called with a variable of it.
fn reach_children(nodes: EnteredNodes<'_>, node: usize, x: u32, reached: &mut Reached) {
    let Some(Decision::Entered(head, _)) = nodes.decisions.get(node) else {
        return;
    };
    let Some(transition) = transition_in(nodes.system, head) else {
        return;
    };
    let path = head.path.as_slice();
    for i in 0..transition.downlinks.len() {
        let args = transition.downlinks.as_slice()[i].args.as_slice();
        for j in 0..args.len() {
            if is_var(&args[j], x) {
                reach_child(nodes, path, i, j, reached);
            }
        }
    }
}

// The caller of a node that has a variable of it in its uplink.
fn reach_caller(nodes: EnteredNodes<'_>, node: usize, x: u32, reached: &mut Reached) {
    let Some(transition) = transition_at(nodes, node) else {
        return;
    };
    let Some(uplink) = &transition.uplink else {
        return;
    };
    let args = uplink.args.as_slice();
    for j in 0..args.len() {
        if is_var(&args[j], x) {
            if let Some((above, arg)) = calling_arg(nodes, node, j) {
                reached.put_expr(above, arg);
            }
        }
    }
}

// What the newest decision forces: variables of an inscription, of an equality or of an argument.
fn put_newest(nodes: EnteredNodes<'_>, reached: &mut Reached) {
    let Some(newest) = nodes.decisions.last() else {
        return;
    };
    match newest {
        Decision::Entered(_, _) => put_entered(nodes, reached),
        Decision::Found(head, k, _) => {
            if let Some(node) = nodes.entries.node_on(nodes.decisions, head.path.as_slice()) {
                put_found(nodes, node, *k, reached);
            }
        }
        Decision::Computed(head, site, _, _) => {
            if let Some(node) = nodes.entries.node_on(nodes.decisions, head.path.as_slice()) {
                put_computed(nodes, node, *site, reached);
            }
        }
    }
}

// What a node that was entered may force: what its caller calls it with.
fn put_entered(nodes: EnteredNodes<'_>, reached: &mut Reached) {
    let node = nodes.decisions.len().saturating_sub(1);
    let Some(transition) = transition_at(nodes, node) else {
        return;
    };
    let Some(uplink) = &transition.uplink else {
        return;
    };
    for j in 0..uplink.args.len() {
        if let Some((above, arg)) = calling_arg(nodes, node, j) {
            reached.put_expr(above, arg);
        }
    }
}

// What an arc that found its value forces.
fn put_found(nodes: EnteredNodes<'_>, node: usize, k: usize, reached: &mut Reached) {
    if let Some(transition) = transition_at(nodes, node) {
        if let Some(arc) = transition.arcs.get(k) {
            reached.put_expr(node, &arc.inscription);
        }
    }
}

// What an operator application forces: both sides of an equality, and what stands for an argument.
fn put_computed(nodes: EnteredNodes<'_>, node: usize, site: Site, reached: &mut Reached) {
    let Some(transition) = transition_at(nodes, node) else {
        return;
    };
    match site {
        Site::Left(i) | Site::Right(i) => {
            if let Some(equality) = transition.equalities.get(i) {
                reached.put_expr(node, &equality.0);
                reached.put_expr(node, &equality.1);
            }
        }
        Site::UplinkArg(j) => {
            if let Some((above, arg)) = calling_arg(nodes, node, j) {
                reached.put_expr(above, arg);
            }
        }
        Site::DownlinkArg(i, j) => {
            if let Some(Decision::Entered(head, _)) = nodes.decisions.get(node) {
                let path = head.path.as_slice();
                reach_child(nodes, path, i, j, reached);
            }
        }
        _ => (),
    }
}

/// Says with which nodes the next look begins, where that is asked: with those that the newest decision
/// reaches.
pub(crate) fn begin_near(
    alloc: Global,
    system: &System,
    decisions: &[Decision],
    entries: &mut EnteredPaths,
    kept: &mut Remembered,
) -> Result<(), NoMemory> {
    if !kept.is_asked() {
        return Ok(());
    }
    entries.catch_up(alloc, decisions)?;
    let nodes = EnteredNodes {
        system,
        decisions,
        entries: &*entries,
    };
    let mut reached = Reached::none();
    put_newest(nodes, &mut reached);
    for k in 0..FEW {
        if k < reached.var_count {
            let (node, x) = reached.vars[k];
            reach_children(nodes, node, x, &mut reached);
            reach_caller(nodes, node, x, &mut reached);
            reached.put_node(node);
        }
    }
    kept.begin_with(&reached.nodes, reached.node_count);
    Ok(())
}
