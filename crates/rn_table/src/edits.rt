//! A change as single tokens that are taken or put.
ghost use Rattle.std.specs.Prelude.{◌≡◌, ◌++◌, [], true, IfOk, OnOk};
ghost use Rattle.std.specs.Bool.{OnTrue};
ghost use Rattle.std.specs.Option.{option_copied, option_to_list};
ghost use Rattle.std.specs.List.Sorted.{IsPermutation};
ghost use Rattle.rn_table.specs.link.Steps.{AreNet, Cancels, all_steps, moved, steps_in, steps_of};

use crate::change::{Change, Row};
use rn_items::NoMemory;
use rn_value::{Value, cmp, same};
use std::alloc::Global;
use std::marker::Model;

/// One token that is taken from a place of an instance, or put there. Where it is `alone`, the place
/// is emptied first.
#[derive(Drop)]
pub(crate) struct Edit<'a> {
    pub(crate) inst: u32,
    pub(crate) place: u32,
    pub(crate) value: &'a Value,
    pub(crate) puts: bool,
    pub(crate) alone: bool,
}

impl<'a> Model for Edit<'a> {
    ghost use Rattle.rn_table.specs.link.Steps.{Step, step_code};

    ghost Value = { Step };

    ghost coded = { step_code };

    ghost view = { λ edit. record { inst = edit.inst; place = edit.place; value = edit.value.now; puts = edit.puts; alone = edit.alone } };
}

impl<'a> Edit<'a> {
    /// After it the place holds this token alone, or none. Where there is none, any value stands in.
    pub(crate) fn holding(
        inst: u32,
        place: u32,
        token: Option<&'a Value>,
        any: &'a Value,
    ) -> Edit<'a>
        ensures inst { result.inst ≡ inst }
        ensures place { result.place ≡ place }
        ensures alone { result.alone ≡ true }
        ensures tokens { moved result [] ≡ option_to_list (option_copied token.entry) }
    {
        match token {
            None => Edit {
                inst,
                place,
                value: any,
                puts: false,
                alone: true,
            },
            Some(value) => Edit {
                inst,
                place,
                value,
                puts: true,
                alone: true,
            },
        }
    }

    /// The same.
    fn copy(&self) -> Edit<'a>
        ensures { result ≡ self.now }
    {
        Edit {
            inst: self.inst,
            place: self.place,
            value: self.value,
            puts: self.puts,
            alone: self.alone,
        }
    }
}

/// The tokens that a change takes and puts. What is put where it is taken doesn't move, and is none
/// of them.
pub(crate) fn edits_of<'a>(alloc: Global, change: &'a Change) -> Result<Vec<Edit<'a>>, NoMemory>
    ensures { IfOk result (λ edits. AreNet (all_steps change.now) edits.items) }
{
    let mut edits = Vec::new(alloc);
    append_rows(&mut edits, change.taken.as_slice(), false)?;
    append_rows(&mut edits, change.cleared.as_slice(), false)?;
    append_rows(&mut edits, change.put.as_slice(), true)?;
    sort(&mut edits)?;
    cancelled(alloc, edits.as_slice())
}

fn append_rows<'a>(edits: &mut Vec<Edit<'a>>, rows: &'a [Row], puts: bool) -> Result<(), NoMemory>
    ensures { OnOk result (edits.new.items ≡ edits.old.items ++ steps_in puts rows.now) }
{
    for row in rows {
        append_row(edits, row, puts)?;
    }
    Ok(())
}

fn append_row<'a>(edits: &mut Vec<Edit<'a>>, row: &'a Row, puts: bool) -> Result<(), NoMemory>
    ensures { OnOk result (edits.new.items ≡ edits.old.items ++ steps_of puts row.now) }
{
    for value in row.values.as_slice() {
        edits.push(Edit {
            inst: row.inst,
            place: row.place,
            value,
            puts,
            alone: false,
        })?;
    }
    Ok(())
}

/// Puts what moves the same value at the same place side by side, in the order of the instances.
fn sort<'a>(edits: &mut Vec<Edit<'a>>) -> Result<(), NoMemory>
    ensures { IsPermutation edits.old.items edits.new.items }
{
    edits.sort_by(|a, b| {
        a.inst
            .cmp(&b.inst)
            .then(a.place.cmp(&b.place))
            .then(cmp(a.value, b.value))
    })?;
    Ok(())
}

/// What is left where a token that is put and one that is taken side by side are both left out.
fn cancelled<'a>(alloc: Global, edits: &[Edit<'a>]) -> Result<Vec<Edit<'a>>, NoMemory>
    ensures { IfOk result (λ net. AreNet edits.now net.items) }
{
    let mut net: Vec<Edit<'a>> = Vec::new(alloc);
    for edit in edits {
        let len = net.len();
        if len > 0 && cancels(&net[len - 1], edit) {
            net.pop();
        } else {
            net.push(edit.copy())?;
        }
    }
    Ok(net)
}

/// Whether one moves the same token as the other, back.
fn cancels(a: &Edit<'_>, b: &Edit<'_>) -> bool
    ensures { OnTrue result (Cancels a.now b.now) }
{
    a.puts != b.puts && a.inst == b.inst && a.place == b.place && same(a.value, b.value)
}
