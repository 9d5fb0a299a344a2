//! The numbers of the instances that a binding makes.
ghost use Rattle.std.specs.Prelude.{◌≡◌, ◌+◌, ◌^◌, ◌≤◌, ◌++◌, ℕ, List, Some, None, length, map};
ghost use Rattle.std.specs.Prelude.{flat_map, IfOk, OnOk, if◌then◌else◌};
ghost use Rattle.std.specs.List.{enumerate_from};
ghost use Rattle.rn_model.specs.Firing.{made_by, creations_of, named};
ghost use Rattle.rn_model.specs.Firing.{renamed_value, renamed_node};
ghost use Rattle.rn_model.specs.Numbers.{AreNumbersOf, key_of, makes, number_in, numbered_by};

use crate::binding::{Binding, Node};
use crate::new_instances::holds_new;
use crate::parts::find_transition;
use crate::system::{Creation, System};
use rn_items::Items;
use rn_value::{InstRef, NoMemory, Path, Vals, Value, copy, copy_inst, list_value, tuple_value};
use std::alloc::Global;
use std::collections::BTreeMap;

/// A creation, by the path of its node and its index among those of the node's transition.
#[derive(Debug, Drop, PartialEq, Eq, PartialOrd, Ord)]
pub(crate) struct MadeBy {
    path: Path,
    index: usize,
}

/// The numbers of creations.
#[derive(Drop)]
pub(crate) struct Numbers {
    by: BTreeMap<MadeBy, u32>,
}

impl Numbers {
    fn none(alloc: Global) -> Numbers
        ensures { (path : List ℕ) (j : ℕ) → number_in result path j ≡ None }
    {
        Numbers {
            by: BTreeMap::new(alloc),
        }
    }

    // The number of the creation of a path and index.
    fn number(&self, alloc: Global, path: &[u32], index: u8) -> Result<Option<u32>, NoMemory>
        ensures { IfOk result (λ number. number ≡ number_in self.now path.now index) }
    {
        let path = Items::from_vec(Vec::from_slice(alloc, path)?);
        let key = MadeBy {
            path,
            index: index as usize,
        };
        Ok(self.by.get(&key).copied())
    }

    // Puts a creation with its number, in place of the one that it had.
    fn put(&mut self, made: MadeBy, number: u32) -> Result<(), NoMemory>
        ensures { OnOk result ((path : List ℕ) (j : ℕ) → number_in self.new path j
            ≡ (if makes path j made then Some number else number_in self.old path j)) }
    {
        self.by.insert(made, number)?;
        Ok(())
    }
}

/// The binding as its firing names it: the instances that it makes have the numbers from `next`, in
/// ascending order of path and then in the order of the creations. All else is copied.
pub fn named(
    alloc: Global,
    system: &System,
    binding: &Binding,
    next: u32,
) -> Result<Binding, NoMemory>
    requires { next + length (creations_of system.now binding.now) ≤ 2 ^ 32 }
    ensures { IfOk result (λ b. b ≡ named system.now binding.now next) }
{
    let made = creations_of(alloc, system, binding.nodes.as_slice())?;
    let numbers = numbers_of(alloc, made, next)?;
    named_by(alloc, binding, &numbers)
}

fn put_made(
    alloc: Global,
    path: &[u32],
    creations: &[Creation],
    made: &mut Vec<MadeBy>,
) -> Result<(), NoMemory>
    ensures { OnOk result (made.new.items ≡ made.old.items ++ map key_of
        (map (λ c. record { path = path.now; index = c.0; net = c.1.net })
        (enumerate_from 0 creations.now))) }
{
    for index in 0..creations.len() {
        let path = Vec::from_slice(alloc, path)?;
        made.push(MadeBy {
            path: Items::from_vec(path),
            index,
        })?;
    }
    Ok(())
}

fn put_made_by(
    alloc: Global,
    system: &System,
    node: &Node,
    made: &mut Vec<MadeBy>,
) -> Result<(), NoMemory>
    ensures { OnOk result (made.new.items
        ≡ made.old.items ++ map key_of (made_by system.now node.now)) }
{
    if let Some(transition) = find_transition(system, node) {
        let creations = transition.creations.as_slice();
        put_made(alloc, node.path.as_slice(), creations, made)?;
    }
    Ok(())
}

fn creations_of(alloc: Global, system: &System, nodes: &[Node]) -> Result<Vec<MadeBy>, NoMemory>
    ensures { IfOk result (λ made.
        made.items ≡ map key_of (flat_map (made_by system.now) nodes.now)) }
{
    let mut made = Vec::new(alloc);
    for node in nodes {
        put_made_by(alloc, system, node, &mut made)?;
    }
    Ok(made)
}

// The number of each creation, the first of which has this one. Of equal ones the first counts.
fn numbers_of(alloc: Global, made: Vec<MadeBy>, next: u32) -> Result<Numbers, NoMemory>
    requires { next + length made.items ≤ 2 ^ 32 }
    ensures { IfOk result (AreNumbersOf made.items next) }
{
    let mut made = made;
    let mut numbers = Numbers::none(alloc);
    while let Some(creation) = made.pop() {
        let number = next + made.len() as u32;
        numbers.put(creation, number)?;
    }
    Ok(numbers)
}

fn numbered(alloc: Global, inst: &InstRef, numbers: &Numbers) -> Result<InstRef, NoMemory>
    ensures { IfOk result (λ i. i ≡ numbered_by numbers.now inst.now) }
{
    if let InstRef::New(path, index) = inst {
        if let Some(number) = numbers.number(alloc, path.as_slice(), *index)? {
            return Ok(InstRef::Old(number));
        }
    }
    copy_inst(alloc, inst)
}

/// The value with its new instances numbered. A part that holds none shares its insides.
#[cycle(renaming)]
#[tactic(auto, using(crate::proofs::NumberedInstances::renaming_rules, crate::proofs::StillValues::numbered_is_still))]
fn renamed(alloc: Global, value: &Value, numbers: &Numbers) -> Result<Value, NoMemory>
    ensures { IfOk result (λ v. v ≡ renamed_value value.now (numbered_by numbers.now)) }
{
    if !holds_new(value) {
        return Ok(copy(alloc, value)?);
    }
    match value {
        Value::Int(n) => Ok(Value::Int(*n)),
        Value::Text(text) => Ok(Value::Text(text.share()?)),
        Value::Tuple(parts) => {
            let parts = all_renamed(alloc, parts.as_slice(), numbers)?;
            Ok(tuple_value(alloc, parts)?)
        }
        Value::List(elements) => {
            let elements = all_renamed(alloc, elements.as_slice(), numbers)?;
            Ok(list_value(alloc, elements)?)
        }
        Value::Inst(inst) => Ok(Value::Inst(numbered(alloc, inst, numbers)?)),
    }
}

#[cycle(renaming)]
fn all_renamed(alloc: Global, values: &[Value], numbers: &Numbers) -> Result<Vals, NoMemory>
    ensures { IfOk result (λ vs.
        vs ≡ map (λ v. renamed_value v (numbered_by numbers.now)) values.now) }
{
    let mut renamed_values = Vec::with_capacity(alloc, values.len())?;
    for value in values {
        renamed_values.push(renamed(alloc, value, numbers)?)?;
    }
    Ok(Items::from_vec(renamed_values))
}

fn named_node(alloc: Global, node: &Node, numbers: &Numbers) -> Result<Node, NoMemory>
    ensures { IfOk result (λ n. n ≡ renamed_node (numbered_by numbers.now) node.now) }
{
    let path = Vec::from_slice(alloc, node.path.as_slice())?;
    Ok(Node {
        path: Items::from_vec(path),
        inst: numbered(alloc, &node.inst, numbers)?,
        net: node.net,
        transition: node.transition,
        values: all_renamed(alloc, node.values.as_slice(), numbers)?,
    })
}

fn named_by(alloc: Global, binding: &Binding, numbers: &Numbers) -> Result<Binding, NoMemory>
    ensures { IfOk result (λ b.
        b.nodes ≡ map (renamed_node (numbered_by numbers.now)) binding.now.nodes) }
{
    let mut nodes = Vec::with_capacity(alloc, binding.nodes.len())?;
    for node in binding.nodes.as_slice() {
        nodes.push(named_node(alloc, node, numbers)?)?;
    }
    Ok(Binding {
        nodes: Items::from_vec(nodes),
    })
}
