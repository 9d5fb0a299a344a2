//! The names of the nets of the instances that firings make.
ghost use Rattle.std.specs.Prelude.{◌≡◌, ◌∷◌, [], ◌++◌, ◌<◌, ◌^◌, length, map, codes, unwrap_or, IfOk, OnOk};
ghost use Rattle.rn_value.specs.Names.{name_of};
ghost use Rattle.rn_model.specs.Systems.{net_at};
ghost use Rattle.rn_record.specs.RecordText.{names_by, names_after};

use rn_model::{Binding, Creation, Node, System, find_net, find_transition};
use rn_value::{Names, NoMemory, Str};
use std::alloc::Global;

/// Adds the name of a net, which is empty where there is no such net.
pub fn push_name(
    alloc: Global,
    system: &System,
    net: u32,
    names: &mut Names,
) -> Result<(), NoMemory>
    ensures { OnOk result (names.new ≡ names.old ++ (net_at system.now net).name ∷ []) }
{
    match find_net(system, net) {
        Some(net) => names.push(alloc, &net.name),
        None => names.push(alloc, &Str::from_string(String::new(alloc))),
    }
}

fn push_created(
    alloc: Global,
    system: &System,
    creations: &[Creation],
    names: &mut Names,
) -> Result<(), NoMemory>
    ensures { OnOk result (names.new
        ≡ names.old ++ map (λ c. (net_at system.now c.net).name) creations.now) }
{
    for creation in creations {
        push_name(alloc, system, creation.net, names)?;
    }
    Ok(())
}

fn push_by(alloc: Global, system: &System, node: &Node, names: &mut Names) -> Result<(), NoMemory>
    ensures { OnOk result (names.new ≡ names.old ++ names_by system.now node.now) }
{
    if let Some(transition) = find_transition(system, node) {
        push_created(alloc, system, transition.creations.as_slice(), names)?;
    }
    Ok(())
}

/// Adds the names of the instances that a binding makes.
pub fn push_made(
    alloc: Global,
    system: &System,
    binding: &Binding,
    names: &mut Names,
) -> Result<(), NoMemory>
    ensures { OnOk result (names.new ≡ names_after system.now names.old binding.now) }
{
    for node in binding.nodes.as_slice() {
        push_by(alloc, system, node, names)?;
    }
    Ok(())
}

/// The names at the start of a run.
pub fn first_names(alloc: Global) -> Result<Names, NoMemory>
    ensures { IfOk result (λ names. names ≡ codes "main" ∷ []) }
{
    let mut names = Names::new(alloc);
    let name = String::from_str(alloc, "main")?;
    names.push(alloc, &Str::from_string(name))?;
    Ok(names)
}

// Adds a copy of the name of this instance.
fn push_copy(alloc: Global, names: &Names, number: u32, copied: &mut Names) -> Result<(), NoMemory>
    ensures { OnOk result (copied.new
        ≡ copied.old ++ unwrap_or (name_of names.now number) [] ∷ []) }
{
    match names.get(number) {
        Some(name) => copied.push(alloc, name),
        None => copied.push(alloc, &Str::from_string(String::new(alloc))),
    }
}

/// The same names.
pub(crate) fn copy_names(alloc: Global, names: &Names) -> Result<Names, NoMemory>
    requires { length names.now < 2 ^ 32 }
    ensures { IfOk result (λ copied. copied ≡ names.now) }
{
    let mut copied = Names::new(alloc);
    for k in 0..names.len() {
        push_copy(alloc, names, k as u32 + 1, &mut copied)?;
    }
    Ok(copied)
}
