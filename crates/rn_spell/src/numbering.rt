//! The names of a run's instances, and the numbers of those that a binding makes.
ghost use Rattle.std.specs.Prelude.{◌≡◌, ◌+◌, ◌^◌, ◌≤◌, ◌&&◌, nat_eq, nat_lt, []};
ghost use Rattle.std.specs.Prelude.{unwrap_or, length, flat_map};
ghost use Rattle.std.specs.Cmp.Lexicographic.{pointwise};
ghost use Rattle.std.specs.Option.{ForSome};
ghost use Rattle.rn_model.specs.Firing.{made_by, numbered_inst};
ghost use Rattle.rn_value.specs.declared.value.InstRef.TheVariants.{New};
ghost use Rattle.rn_value.specs.Names.{name_of};
ghost use Rattle.rn_spell.specs.Spelling.{number_of};
ghost use Rattle.rn_spell.specs.Made.{names_of_nets};
ghost use Rattle.rn_spell.specs.link.Marks.{Halves, made_count};

use crate::marks::{Marks, creations_count};
use crate::naming::Naming;
use crate::nodes::net_name;
use crate::places::{ascend, place_of};
use rn_model::{Node, System};
use rn_value::InstRef;
use rn_window::Window;

// An instance is looked for among all nodes, where they are fewer than this.
const FEW: usize = 16;

/// The names of instances, by the nets of those with a number.
#[derive(Drop)]
pub struct NetNames<'a> {
    pub system: &'a System,
    /// The index of the net of each instance, from the one with number 1.
    pub nets: &'a [u32],
}

impl<'a> Naming for NetNames<'a> {
    ghost names = { λ n. names_of_nets n.system.now n.nets.now };

    ghost renamed = { λ n i. i };

    fn put_name(&self, number: u32, window: &mut Window) {
        window.put(name_by_net(self.system, self.nets, number));
    }

    fn number(&self, inst: &InstRef) -> Option<u32> {
        match inst {
            InstRef::Old(number) => Some(*number),
            InstRef::New(_, _) => None,
        }
    }
}

// The name of the net of the instance with this number, which is empty where there is none.
#[tactic(auto, using(crate::proofs::MadeInstances::named_at))]
fn name_by_net<'a>(system: &'a System, nets: &[u32], number: u32) -> &'a [u8]
    ensures { result.now ≡ unwrap_or (name_of (names_of_nets system.now nets.now) number) [] }
{
    if number == 0 {
        return &[];
    }
    match nets.get(number as usize - 1) {
        Some(net) => net_name(system, *net),
        None => &[],
    }
}

/// Names, and the numbers of the instances that nodes make, counted from `next`, in the order of
/// the nodes and then of the creations.
#[derive(Drop)]
pub struct Numbered<'a, N: Naming> {
    pub names: &'a N,
    pub system: &'a System,
    pub nodes: &'a [Node],
    pub next: u32,
    // Where there are more than a few nodes, and their paths ascend. An instance is looked for by
    // halving then.
    marks: Option<Marks>,
    pub ghost low: { next + length (flat_map (made_by system.now) nodes.now) ≤ 2 ^ 32 },
    ghost marked: { ForSome marks (λ m. Halves system.now nodes.now m.step m.counts) },
}

impl<'a, N: Naming> Numbered<'a, N> {
    /// The instances that the nodes make have the numbers from `next` on.
    ///
    /// It takes no memory. Where there are more than a few nodes it looks at each of them.
    pub fn new(names: &'a N, system: &'a System, nodes: &'a [Node], next: u32) -> Numbered<'a, N>
        requires low { next + length (flat_map (made_by system.now) nodes.now) ≤ 2 ^ 32 }
        ensures names { result.names.now ≡ names.now }
        ensures system { result.system.now ≡ system.now }
        ensures nodes { result.nodes.now ≡ nodes.now }
        ensures next { result.next ≡ next }
    {
        let marks = marks_of(system, nodes);
        Numbered {
            names,
            system,
            nodes,
            next,
            marks,
        }
    }
}

impl<'a, N: Naming> Naming for Numbered<'a, N> {
    ghost names = { λ n. N.names n.names.now };

    ghost renamed = { λ n. numbered_inst (flat_map (made_by n.system.now) n.nodes.now) n.next };

    fn put_name(&self, number: u32, window: &mut Window) {
        self.names.put_name(number, window);
    }

    fn number(&self, inst: &InstRef) -> Option<u32> {
        let (path, index) = match inst {
            InstRef::Old(number) => return Some(*number),
            InstRef::New(path, index) => (path.as_slice(), *index),
        };
        match &self.marks {
            Some(marks) => {
                number_by_halving(self.system, self.nodes, self.next, marks, path, index)
            }
            None => number_of_made(self.system, self.nodes, self.next, path, index),
        }
    }
}

// The marks of more than a few nodes, where their paths ascend.
fn marks_of(system: &System, nodes: &[Node]) -> Option<Marks>
    requires { made_count system.now nodes.now ≤ 2 ^ 32 }
    ensures { ForSome result (λ m. Halves system.now nodes.now m.step m.counts) }
{
    if nodes.len() < FEW || !ascend(nodes) {
        return None;
    }
    Some(Marks::of(system, nodes))
}

// The number of the creation of a path and index, where nodes make it. It is looked for by halving.
fn number_by_halving(
    system: &System,
    nodes: &[Node],
    next: u32,
    marks: &Marks,
    path: &[u32],
    index: u8,
) -> Option<u32>
    requires low { next + length (flat_map (made_by system.now) nodes.now) ≤ 2 ^ 32 }
    requires marks { Halves system.now nodes.now marks.now.step marks.now.counts }
    ensures { result ≡ number_of (numbered_inst (flat_map (made_by system.now) nodes.now) next
        (New path.now index)) }
{
    let place = place_of(nodes, path)?;
    if !makes(system, &nodes[place], path, index) {
        return None;
    }
    let before = marks.count_before(system, nodes, place);
    Some((next as usize + before + index as usize) as u32)
}

// The number of the creation of a path and index, where nodes make it.
fn number_of_made(
    system: &System,
    nodes: &[Node],
    next: u32,
    path: &[u32],
    index: u8,
) -> Option<u32>
    requires { next + length (flat_map (made_by system.now) nodes.now) ≤ 2 ^ 32 }
    ensures { result ≡ number_of (numbered_inst (flat_map (made_by system.now) nodes.now) next
        (New path.now index)) }
{
    let mut before = 0usize;
    for node in nodes {
        if makes(system, node, path, index) {
            return Some((next as usize + before + index as usize) as u32);
        }
        before += creations_count(system, node);
    }
    None
}

// Whether a node makes the instance of a path and index.
fn makes(system: &System, node: &Node, path: &[u32], index: u8) -> bool
    ensures { result ≡ pointwise nat_eq node.now.path path.now
        && nat_lt index (length (made_by system.now node.now)) }
{
    node.path.as_slice() == path && (index as usize) < creations_count(system, node)
}
