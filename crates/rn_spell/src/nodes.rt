//! The lines of the nodes of a binding.
ghost use Rattle.std.specs.Prelude.{◌≡◌, ◌++◌, length, map, All, flat_map, codes};
ghost use Rattle.rn_value.specs.declared.value.InstRef.TheVariants.{Old};
ghost use Rattle.rn_value.specs.Text.{value_text};
ghost use Rattle.rn_model.specs.Systems.{net_at, transition_of};
ghost use Rattle.rn_model.specs.Firing.{renamed_node, renamed_value};
ghost use Rattle.rn_model.specs.NodeText.{instance_text, number_text, var_name};
ghost use Rattle.rn_model.specs.NodeText.{given_text, all_given_text};
ghost use Rattle.rn_model.specs.NodeText.{node_text, node_line, node_lines, IsWritable};
ghost use Rattle.rn_window.specs.Windows.{after};

use crate::digits::put_numeral;
use crate::naming::Naming;
use crate::values::put_value;
use rn_model::{Net, Node, System, find_net, find_transition, net_at, transition_of};
use rn_value::{InstRef, Value};
use rn_window::{Text, Window};

/// Writes a line for each node of a binding, as `main[1].t x=5 w=worker[2]`.
///
/// Each line stands after `lead`, and all but the first have `+ ` between. Each instance has its
/// number and its name by `naming`.
pub fn put_nodes<N: Naming, L: Text>(
    system: &System,
    nodes: &[Node],
    naming: &N,
    lead: &L,
    window: &mut Window,
)
    requires { All (IsWritable system.now (N.names naming.now))
        (map (renamed_node (N.renamed naming.now)) nodes.now) }
    ensures { window.new ≡ after window.old (node_lines system.now (N.names naming.now)
        (L.text lead.now) (map (renamed_node (N.renamed naming.now)) nodes.now)) }
{
    match nodes {
        [] => {}
        [first, called @ ..] => {
            lead.put(window);
            put_node(system, first, naming, window);
            put_called(system, called, naming, lead, window);
        }
    }
}

fn put_called<N: Naming, L: Text>(
    system: &System,
    nodes: &[Node],
    naming: &N,
    lead: &L,
    window: &mut Window,
)
    requires { All (IsWritable system.now (N.names naming.now))
        (map (renamed_node (N.renamed naming.now)) nodes.now) }
    ensures { window.new ≡ after window.old
        (flat_map (node_line system.now (N.names naming.now) (L.text lead.now ++ codes "+ "))
        (map (renamed_node (N.renamed naming.now)) nodes.now)) }
{
    for node in nodes {
        lead.put(window);
        window.put(b"+ ");
        put_node(system, node, naming, window);
    }
}

// A node and the end of its line.
#[tactic(auto, using(crate::proofs::NodeTexts::pieces))]
fn put_node<N: Naming>(system: &System, node: &Node, naming: &N, window: &mut Window)
    requires { IsWritable system.now (N.names naming.now)
        (renamed_node (N.renamed naming.now) node.now) }
    ensures { window.new ≡ after window.old (node_text system.now (N.names naming.now)
        (renamed_node (N.renamed naming.now) node.now) ++ codes "\n") }
{
    put_own_instance(system, node, naming, window);
    window.put_byte(b'.');
    window.put(transition_name(system, node));
    put_values(system, node, naming, window);
    window.put_byte(b'\n');
}

// The instance of a node.
#[tactic(auto, using(crate::proofs::NodeTexts::pieces))]
fn put_own_instance<N: Naming>(system: &System, node: &Node, naming: &N, window: &mut Window)
    ensures { window.new ≡ after window.old (instance_text
        (net_at system.now node.now.net).name (N.renamed naming.now node.now.inst)) }
{
    put_net_name(system, node.net, window);
    window.put_byte(b'[');
    put_number(&node.inst, naming, window);
    window.put_byte(b']');
}

#[tactic(auto, using(crate::proofs::NodeTexts::numbers))]
fn put_number<N: Naming>(inst: &InstRef, naming: &N, window: &mut Window)
    ensures { window.new ≡ after window.old (number_text (N.renamed naming.now inst.now)) }
{
    if let Some(number) = naming.number(inst) {
        put_numeral(number as u64, window);
    }
}

/// Writes an instance that exists, by the name of its net and its number, as `main[1]`.
#[tactic(auto, using(crate::proofs::NodeTexts::pieces))]
pub fn put_instance(system: &System, net: u32, number: u32, window: &mut Window)
    ensures { window.new ≡ after window.old
        (instance_text (net_at system.now net).name (Old number)) }
{
    put_net_name(system, net, window);
    window.put_byte(b'[');
    put_numeral(number as u64, window);
    window.put_byte(b']');
}

/// Writes the name of a net, and nothing where there is none.
pub fn put_net_name(system: &System, net: u32, window: &mut Window)
    ensures { window.new ≡ after window.old (net_at system.now net).name }
{
    window.put(net_name(system, net));
}

// The name of a net, which is empty where there is none.
pub(crate) fn net_name(system: &System, net: u32) -> &[u8]
    ensures { result.now ≡ (net_at system.now net).name }
{
    match find_net(system, net) {
        Some(net) => net.name.as_str().as_bytes(),
        None => &[],
    }
}

fn transition_name<'a>(system: &'a System, node: &Node) -> &'a [u8]
    ensures { result.now ≡ (transition_of system.now node.now).name }
{
    match find_transition(system, node) {
        Some(transition) => transition.name.as_str().as_bytes(),
        None => &[],
    }
}

fn put_values<N: Naming>(system: &System, node: &Node, naming: &N, window: &mut Window)
    requires { IsWritable system.now (N.names naming.now)
        (renamed_node (N.renamed naming.now) node.now) }
    ensures { window.new ≡ after window.old (all_given_text (N.names naming.now)
        (net_at system.now node.now.net) (transition_of system.now node.now).vars
        (map (λ v. renamed_value v (N.renamed naming.now)) node.now.values)) }
{
    let vars = transition_of(system, node).vars.as_slice();
    put_all_given(
        net_at(system, node.net),
        vars,
        node.values.as_slice(),
        naming,
        window,
    );
}

#[tactic(auto, using(crate::proofs::NodeTexts::pieces))]
fn put_all_given<N: Naming>(
    net: &Net,
    vars: &[u32],
    values: &[Value],
    naming: &N,
    window: &mut Window,
)
    requires { length values.now ≡ length vars.now }
    ensures { window.new ≡ after window.old (all_given_text (N.names naming.now) net.now vars.now
        (map (λ v. renamed_value v (N.renamed naming.now)) values.now)) }
{
    for i in 0..values.len() {
        put_given(net, vars[i], &values[i], naming, window);
    }
}

#[tactic(auto, using(crate::proofs::NodeTexts::pieces))]
fn put_given<N: Naming>(net: &Net, var: u32, value: &Value, naming: &N, window: &mut Window)
    ensures { window.new ≡ after window.old (given_text (N.names naming.now) net.now var
        (renamed_value value.now (N.renamed naming.now))) }
{
    window.put_byte(b' ');
    window.put(name_of_var(net, var));
    window.put_byte(b'=');
    put_renamed(value, naming, window);
}

fn put_renamed<N: Naming>(value: &Value, naming: &N, window: &mut Window)
    ensures { window.new ≡ after window.old
        (value_text (renamed_value value.now (N.renamed naming.now)) (N.names naming.now)) }
{
    put_value(value, naming, window);
}

fn name_of_var(net: &Net, var: u32) -> &[u8]
    ensures { result.now ≡ var_name net.now var }
{
    match net.vars.get(var as usize) {
        Some(var) => var.name.as_str().as_bytes(),
        None => &[],
    }
}
