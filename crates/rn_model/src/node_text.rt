//! The lines of the nodes of a binding.
ghost use Rattle.std.specs.Prelude.{◌≡◌, ◌++◌, length, All, OnOk, OnErr, flat_map};
ghost use Rattle.rn_value.specs.Names.{AreNamed};
ghost use Rattle.rn_value.specs.declared.value.InstRef.TheVariants.{Old};
ghost use Rattle.rn_model.specs.Systems.{net_at, transition_of};
ghost use Rattle.rn_model.specs.NodeText.{instance_text, number_text, var_name};
ghost use Rattle.rn_model.specs.NodeText.{given_text, all_given_text, node_text, node_line, node_lines, IsWritable};

use crate::binding::{Binding, Node};
use crate::parts::{find_net, find_transition};
use crate::system::{Net, System};
use rn_value::{InstRef, Names, NoMemory, Value, write_numeral, write_value};
use std::alloc::Global;

/// Appends a line for each node of a binding, as `main[1].t x=5 w=worker[2]`.
///
/// Each line stands after `lead`, and all but the first have `+ ` between. `names` has the net of
/// each instance. Instances that the binding makes must have their numbers.
pub fn write_nodes(
    alloc: Global,
    system: &System,
    binding: &Binding,
    names: &Names,
    lead: &[u8],
    out: &mut Vec<u8>,
) -> Result<(), NoMemory>
    requires { All (IsWritable system.now names.now) binding.now.nodes }
    ensures ok { OnOk result (out.new.items
        ≡ out.old.items ++ node_lines system.now names.now lead.now binding.now.nodes) }
    ensures err { OnErr result (out.new.items ≡ out.old.items) }
{
    let mut text = Vec::new(alloc);
    put_nodes(
        alloc,
        system,
        binding.nodes.as_slice(),
        names,
        lead,
        &mut text,
    )?;
    out.extend_from_slice(text.as_slice())?;
    Ok(())
}

/// Appends an instance that exists, by the name of its net and its number, as `main[1]`.
pub fn write_instance(
    alloc: Global,
    system: &System,
    net: u32,
    number: u32,
    out: &mut Vec<u8>,
) -> Result<(), NoMemory>
    ensures ok { OnOk result (out.new.items
        ≡ out.old.items ++ instance_text (net_at system.now net).name (Old number)) }
    ensures err { OnErr result (out.new.items ≡ out.old.items) }
{
    let mut text = Vec::new(alloc);
    put_instance(alloc, system, net, &InstRef::Old(number), &mut text)?;
    out.extend_from_slice(text.as_slice())?;
    Ok(())
}

// Each function below appends its text, or a part of it where memory runs out.

fn put_nodes(
    alloc: Global,
    system: &System,
    nodes: &[Node],
    names: &Names,
    lead: &[u8],
    out: &mut Vec<u8>,
) -> Result<(), NoMemory>
    requires { All (IsWritable system.now names.now) nodes.now }
    ensures { OnOk result (out.new.items
        ≡ out.old.items ++ node_lines system.now names.now lead.now nodes.now) }
{
    match nodes {
        [] => Ok(()),
        [first, called @ ..] => {
            put_line(alloc, system, first, names, lead, out)?;
            let mut lead = Vec::from_slice(alloc, lead)?;
            lead.extend_from_slice(b"+ ")?;
            put_lines(alloc, system, called, names, lead.as_slice(), out)
        }
    }
}

fn put_lines(
    alloc: Global,
    system: &System,
    nodes: &[Node],
    names: &Names,
    lead: &[u8],
    out: &mut Vec<u8>,
) -> Result<(), NoMemory>
    requires { All (IsWritable system.now names.now) nodes.now }
    ensures { OnOk result (out.new.items
        ≡ out.old.items ++ flat_map (node_line system.now names.now lead.now) nodes.now) }
{
    for node in nodes {
        put_line(alloc, system, node, names, lead, out)?;
    }
    Ok(())
}

fn put_line(
    alloc: Global,
    system: &System,
    node: &Node,
    names: &Names,
    lead: &[u8],
    out: &mut Vec<u8>,
) -> Result<(), NoMemory>
    requires { IsWritable system.now names.now node.now }
    ensures { OnOk result (out.new.items
        ≡ out.old.items ++ node_line system.now names.now lead.now node.now) }
{
    out.extend_from_slice(lead)?;
    put_node(alloc, system, node, names, out)?;
    out.extend_from_slice(b"\n")?;
    Ok(())
}

fn put_node(
    alloc: Global,
    system: &System,
    node: &Node,
    names: &Names,
    out: &mut Vec<u8>,
) -> Result<(), NoMemory>
    requires { IsWritable system.now names.now node.now }
    ensures { OnOk result (out.new.items ≡ out.old.items ++ node_text system.now names.now node.now) }
{
    put_instance(alloc, system, node.net, &node.inst, out)?;
    out.extend_from_slice(b".")?;
    put_transition_name(system, node, out)?;
    put_values(alloc, system, node, names, out)
}

fn put_instance(
    alloc: Global,
    system: &System,
    net: u32,
    inst: &InstRef,
    out: &mut Vec<u8>,
) -> Result<(), NoMemory>
    ensures { OnOk result (out.new.items
        ≡ out.old.items ++ instance_text (net_at system.now net).name inst.now) }
{
    put_net_name(system, net, out)?;
    out.extend_from_slice(b"[")?;
    put_number(alloc, inst, out)?;
    out.extend_from_slice(b"]")?;
    Ok(())
}

fn put_net_name(system: &System, net: u32, out: &mut Vec<u8>) -> Result<(), NoMemory>
    ensures { OnOk result (out.new.items ≡ out.old.items ++ (net_at system.now net).name) }
{
    if let Some(net) = find_net(system, net) {
        out.extend_from_slice(net.name.as_str().as_bytes())?;
    }
    Ok(())
}

fn put_number(alloc: Global, inst: &InstRef, out: &mut Vec<u8>) -> Result<(), NoMemory>
    ensures { OnOk result (out.new.items ≡ out.old.items ++ number_text inst.now) }
{
    match inst {
        InstRef::Old(number) => write_numeral(alloc, *number as u64, out),
        InstRef::New(_, _) => Ok(()),
    }
}

fn put_transition_name(system: &System, node: &Node, out: &mut Vec<u8>) -> Result<(), NoMemory>
    ensures { OnOk result (out.new.items
        ≡ out.old.items ++ (transition_of system.now node.now).name) }
{
    if let Some(transition) = find_transition(system, node) {
        out.extend_from_slice(transition.name.as_str().as_bytes())?;
    }
    Ok(())
}

fn put_values(
    alloc: Global,
    system: &System,
    node: &Node,
    names: &Names,
    out: &mut Vec<u8>,
) -> Result<(), NoMemory>
    requires { IsWritable system.now names.now node.now }
    ensures { OnOk result (out.new.items ≡ out.old.items ++ all_given_text names.now
        (net_at system.now node.now.net) (transition_of system.now node.now).vars node.now.values) }
{
    if let Some(net) = system.nets.get(node.net as usize) {
        if let Some(transition) = net.transitions.get(node.transition as usize) {
            let vars = transition.vars.as_slice();
            put_all_given(alloc, net, vars, node.values.as_slice(), names, out)?;
        }
    }
    Ok(())
}

fn put_all_given(
    alloc: Global,
    net: &Net,
    vars: &[u32],
    values: &[Value],
    names: &Names,
    out: &mut Vec<u8>,
) -> Result<(), NoMemory>
    requires len { length values.now ≡ length vars.now }
    requires named { All (AreNamed names.now) values.now }
    ensures { OnOk result (out.new.items
        ≡ out.old.items ++ all_given_text names.now net.now vars.now values.now) }
{
    for i in 0..values.len() {
        put_given(alloc, net, vars[i], &values[i], names, out)?;
    }
    Ok(())
}

fn put_given(
    alloc: Global,
    net: &Net,
    var: u32,
    value: &Value,
    names: &Names,
    out: &mut Vec<u8>,
) -> Result<(), NoMemory>
    requires { AreNamed names.now value.now }
    ensures { OnOk result (out.new.items ≡ out.old.items ++ given_text names.now net.now var value.now) }
{
    out.push(b' ')?;
    put_var_name(net, var, out)?;
    out.push(b'=')?;
    write_value(alloc, value, names, out)
}

fn put_var_name(net: &Net, var: u32, out: &mut Vec<u8>) -> Result<(), NoMemory>
    ensures { OnOk result (out.new.items ≡ out.old.items ++ var_name net.now var) }
{
    if let Some(var) = net.vars.get(var as usize) {
        out.extend_from_slice(var.name.as_str().as_bytes())?;
    }
    Ok(())
}
