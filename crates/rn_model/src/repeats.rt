//! Values in a row, of which equal neighbours stand once, with their number.
ghost use Rattle.std.specs.Prelude.{◌≡◌, ◌↔◌, ◌<◌, ◌+◌, ◌^◌, [], ◌++◌, length, replicate, IsTrue, OnOk, OnErr};
ghost use Rattle.rn_model.specs.Repeats.{repeats_of, values_of, more_of_last, AreParted, EndsIn, RepeatsHoldValues, RepeatsAreParted};

use rn_items::NoMemory;
use rn_value::{Value, same};
use std::alloc::Global;
use std::marker::Model;

/// A value, and how often it stands there.
#[derive(Debug, Drop)]
pub struct Repeat {
    pub value: Value,
    pub count: u64,
}

/// Values in a row, which contracts see as the list of them. Equal neighbours stand there once, with
/// their number, so that a million equal values take the room of one.
#[derive(Debug, Drop)]
pub struct Repeats {
    parts: Vec<Repeat>,
}

impl Model for Repeats {
    ghost use Rattle.std.specs.Prelude.{List};
    ghost use Rattle.std.specs.Coded.{coded_list};
    ghost use Rattle.rn_value.specs.declared.value.Value.{Value as Token};
    ghost use Rattle.rn_value.specs.contracts.value.Value as token;
    ghost use Rattle.rn_model.specs.Repeats.{values_of, AreParted};

    ghost Value = { List Token };

    ghost coded = { coded_list token.the_row.coded };

    ghost view = { λ list. values_of list.parts.items };

    ghost invariant = { λ list. AreParted list.parts.items };
}

impl Repeats {
    /// No values, and no memory.
    pub fn new(alloc: Global) -> Repeats
        ensures { result ≡ [] }
    {
        Repeats {
            parts: Vec::new(alloc),
        }
    }

    pub fn is_empty(&self) -> bool
        ensures { IsTrue result ↔ (self.now ≡ []) }
    {
        self.parts.is_empty()
    }

    /// The values in a row, equal neighbours once, with their number.
    pub fn as_slice(&self) -> &[Repeat]
        ensures { result.now ≡ repeats_of self.now }
    {
        self.parts.as_slice()
    }

    /// Adds a value at the end, as often as that.
    pub fn push(&mut self, value: Value, count: u64) -> Result<(), NoMemory>
        requires some { 0 < count }
        requires room { length self.old + count < 2 ^ 64 }
        ensures ok { OnOk result (self.new ≡ self.old ++ replicate count value) }
        ensures err { OnErr result (self.new ≡ self.old) }
    {
        add(&mut self.parts, value, count)
    }
}

/// Whether the last value is this one.
fn ends_in(parts: &[Repeat], value: &Value) -> bool
    ensures { IsTrue result ↔ EndsIn value.now parts.now }
{
    match parts.last() {
        Some(last) => same(&last.value, value),
        None => false,
    }
}

/// The last value more often by this.
fn repeat_last(parts: &mut Vec<Repeat>, count: u64)
    requires room { length (values_of parts.old.items) + count < 2 ^ 64 }
    ensures { parts.new.items ≡ more_of_last count parts.old.items }
{
    if let Some(last) = parts.last_mut() {
        last.count += count;
    }
}

/// A value at the end, as often as that.
fn add(parts: &mut Vec<Repeat>, value: Value, count: u64) -> Result<(), NoMemory>
    requires some { 0 < count }
    requires parted { AreParted parts.old.items }
    requires room { length (values_of parts.old.items) + count < 2 ^ 64 }
    ensures parted { AreParted parts.new.items }
    ensures ok { OnOk result
        (values_of parts.new.items ≡ values_of parts.old.items ++ replicate count value) }
    ensures err { OnErr result (parts.new.items ≡ parts.old.items) }
{
    if ends_in(parts.as_slice(), &value) {
        repeat_last(parts, count);
        return Ok(());
    }
    parts.push(Repeat { value, count })?;
    Ok(())
}

/// Whether two slices say the same, part by part.
fn same_parts(a: &[Repeat], b: &[Repeat]) -> bool
    ensures { IsTrue result ↔ (a.now ≡ b.now) }
{
    if a.len() != b.len() {
        return false;
    }
    for k in 0..a.len() {
        if !same_part(&a[k], &b[k]) {
            return false;
        }
    }
    true
}

fn same_part(a: &Repeat, b: &Repeat) -> bool
    ensures { IsTrue result ↔ (a.now ≡ b.now) }
{
    a.count == b.count && same(&a.value, &b.value)
}

/// Whether two hold the same values in the same order.
pub fn same_repeats(a: &Repeats, b: &Repeats) -> bool
    ensures { IsTrue result ↔ (a.now ≡ b.now) }
{
    same_parts(a.as_slice(), b.as_slice())
}

/// Values in a row are given by their repeats, and these are parted.
pub fn repeats_hold_values()
    ensures values { RepeatsHoldValues }
    ensures parted { RepeatsAreParted }
{}
