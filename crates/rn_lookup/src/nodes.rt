//! The nodes of lines, looked up in a system.
ghost use Rattle.std.specs.Prelude.{◌≡◌, ◌<◌, IfOk, length, map};
ghost use Rattle.std.specs.List.{list_all};
ghost use Rattle.rn_model.specs.Systems.{net_at, transition_at};
ghost use Rattle.rn_lines.specs.link.Said.{said};
ghost use Rattle.rn_lines.specs.link.NodeSeen.{given, node};
ghost use Rattle.rn_lookup.specs.Found.{name_nets, net_said, transition_said};
ghost use Rattle.rn_lookup.specs.Found.{fits_var, is_var, values_fit, variables_fit};
ghost use Rattle.rn_lookup.specs.Faults.{Tells, given_fault, node_fault};
ghost use Rattle.rn_lookup.specs.link.Tables.{IsDirectoryOf};

use crate::directory::Directory;
use crate::refusal::Refusal;
use rn_lines::{Mention, ReadGiven, ReadNode};
use rn_model::{Net, System, net_at, transition_at};
use rn_value::{NoMemory, Value, has_kind};
use std::alloc::Global;

/// The numbers of a node's net and transition.
#[derive(Clone, Copy, Debug, PartialEq, Eq)]
pub struct FoundNode {
    pub net: u32,
    pub transition: u32,
}

/// Whether each instance is said to be of a net that is there.
pub(crate) fn name_nets(
    alloc: Global,
    system: &System,
    directory: &Directory,
    mentions: &[Mention<'_>],
) -> Result<bool, NoMemory>
    requires { IsDirectoryOf system.now directory.now }
    ensures { IfOk result (λ all. all ≡ name_nets system.now (map said mentions.now)) }
{
    for mention in mentions {
        if directory.net(alloc, mention.name)?.is_none() {
            return Ok(false);
        }
    }
    Ok(true)
}

fn all_given_name_nets(
    alloc: Global,
    system: &System,
    directory: &Directory,
    all: &[ReadGiven<'_>],
) -> Result<bool, NoMemory>
    requires { IsDirectoryOf system.now directory.now }
    ensures { IfOk result (λ all_named.
        all_named ≡ list_all (λ g. name_nets system.now g.named) (map given all.now)) }
{
    for given in all {
        if !name_nets(alloc, system, directory, given.mentions.as_slice())? {
            return Ok(false);
        }
    }
    Ok(true)
}

/// The variables of a transition, and none where it isn't there.
fn vars_of(system: &System, net: u32, transition: u32) -> &[u32]
    ensures { result.now ≡ (transition_at system.now net transition).vars }
{
    match transition_at(system, net, transition) {
        Some(transition) => transition.vars.as_slice(),
        None => &[],
    }
}

fn fits_var(net: &Net, var: u32, value: &Value) -> bool
    ensures { result ≡ fits_var net.now var value.now }
{
    match net.vars.get(var as usize) {
        Some(var) => has_kind(value, &var.kind),
        None => false,
    }
}

fn is_var(net: &Net, var: u32, word: &[u8]) -> bool
    ensures { result ≡ is_var net.now var word.now }
{
    match net.vars.get(var as usize) {
        Some(var) => var.name.as_str().as_bytes() == word,
        None => false,
    }
}

fn values_fit(net: &Net, all: &[ReadGiven<'_>], vars: &[u32]) -> bool
    ensures { result ≡ values_fit net.now (map given all.now) vars.now }
{
    if all.len() != vars.len() {
        return false;
    }
    for i in 0..all.len() {
        if !fits_var(net, vars[i], &all[i].value) {
            return false;
        }
    }
    true
}

fn variables_fit(net: &Net, all: &[ReadGiven<'_>], vars: &[u32]) -> bool
    requires { length all.now ≡ length vars.now }
    ensures { result ≡ variables_fit net.now (map given all.now) vars.now }
{
    for i in 0..all.len() {
        if !is_var(net, vars[i], all[i].variable) {
            return false;
        }
    }
    true
}

/// Looks at what is given in a node of this transition: the values first, then the variables and
/// the nets that the values name.
fn check_given(
    alloc: Global,
    system: &System,
    directory: &Directory,
    found: FoundNode,
    all: &[ReadGiven<'_>],
) -> Result<(), Refusal>
    requires directory { IsDirectoryOf system.now directory.now }
    requires within { found.net < length system.now.nets }
    ensures { Tells result (given_fault system.now (net_at system.now found.net) (map given all.now)
        (transition_at system.now found.net found.transition).vars) }
{
    let net = net_at(system, found.net);
    let vars = vars_of(system, found.net, found.transition);
    if !values_fit(net, all, vars) {
        return Err(Refusal::Form);
    }
    if !variables_fit(net, all, vars) || !all_given_name_nets(alloc, system, directory, all)? {
        return Err(Refusal::Name);
    }
    Ok(())
}

/// The net and the transition of a node, where what it names is there and each value has its
/// variable's kind. Whether the instances that it names are made isn't looked at.
pub fn find_node(
    alloc: Global,
    system: &System,
    directory: &Directory,
    read: &ReadNode<'_>,
) -> Result<FoundNode, Refusal>
    requires { IsDirectoryOf system.now directory.now }
    ensures fault { Tells result (node_fault system.now (node read.now)) }
    ensures net { IfOk result (λ f. f.net ≡ net_said system.now (said read.now.inst)) }
    ensures transition { IfOk result (λ f.
        f.transition ≡ transition_said system.now (node read.now)) }
{
    let Some(net) = directory.net(alloc, read.inst.name)? else {
        return Err(Refusal::Name);
    };
    let Some(transition) = directory.transition(alloc, net, read.transition)? else {
        return Err(Refusal::Name);
    };
    let found = FoundNode { net, transition };
    check_given(alloc, system, directory, found, read.given.as_slice())?;
    Ok(found)
}
