//! The names of the nets of instances, and whether a value uses only these instances.
ghost use Rattle.std.specs.Prelude.{◌≡◌, ◌↔◌, [], ◌∷◌, ◌++◌, map, length, IsTrue, OnOk, OnErr};
ghost use Rattle.std.specs.Option.{option_copied};
ghost use Rattle.std.specs.List.{list_all};
ghost use Rattle.rn_value.specs.Names.{name_of, inst_within, instances_within, AreNamed};

use crate::copying::copy_text;
use crate::text::Str;
use crate::value::{InstRef, Value};
use rn_items::NoMemory;
use std::alloc::Global;
use std::marker::Model;

/// The names of the nets of a run's instances: the k-th name, from 1, belongs to the instance with
/// number k.
#[derive(Debug, Drop)]
pub struct Names {
    names: Vec<Str>,
}

impl Model for Names {
    ghost use Rattle.std.specs.Prelude.{List, ℕ};

    ghost Value = { List (List ℕ) };

    ghost view = { λ n. n.names.items };
}

impl Names {
    /// No names, and no memory.
    pub fn new(alloc: Global) -> Names
        ensures { result ≡ [] }
    {
        Names {
            names: Vec::new(alloc),
        }
    }

    /// How many instances have a name.
    pub fn len(&self) -> usize
        ensures { result ≡ length self.now }
    {
        self.names.len()
    }

    pub fn is_empty(&self) -> bool
        ensures { IsTrue result ↔ (self.now ≡ []) }
    {
        self.names.is_empty()
    }

    /// The name of the instance with this number.
    pub fn get(&self, number: u32) -> Option<&Str>
        ensures { option_copied result ≡ name_of self.now number }
    {
        match number {
            0 => None,
            _ => self.names.get(number as usize - 1),
        }
    }

    /// Adds a copy of the name of the next instance.
    pub fn push(&mut self, alloc: Global, name: &Str) -> Result<(), NoMemory>
        ensures ok { OnOk result (self.new ≡ self.old ++ name.now ∷ []) }
        ensures err { OnErr result (self.new ≡ self.old) }
    {
        let copied = copy_text(alloc, name)?;
        self.names.push(copied)?;
        Ok(())
    }
}

/// Whether each instance in the value exists and has a name.
#[cycle(naming)]
pub fn are_named(value: &Value, names: &Names) -> bool
    ensures { IsTrue result ↔ AreNamed names.now value.now }
{
    match value {
        Value::Int(_) | Value::Text(_) => true,
        Value::Tuple(values) | Value::List(values) => all_are_named(values.as_slice(), names),
        Value::Inst(inst) => is_named(inst, names),
    }
}

#[cycle(naming)]
fn all_are_named(values: &[Value], names: &Names) -> bool
    ensures { result ≡ list_all (λ within. within (length names.now)) (map instances_within values.now) }
{
    for value in values {
        if !are_named(value, names) {
            return false;
        }
    }
    true
}

fn is_named(inst: &InstRef, names: &Names) -> bool
    ensures { result ≡ inst_within inst.now (length names.now) }
{
    match inst {
        InstRef::Old(number) => 1 <= *number && *number as usize <= names.len(),
        InstRef::New(_, _) => false,
    }
}
