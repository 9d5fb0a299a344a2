//! The marks and the printed values of lines, looked up in a system.
ghost use Rattle.std.specs.Prelude.{◌≡◌, ◌<◌, IfOk, length, map};
ghost use Rattle.std.specs.List.{list_all};
ghost use Rattle.rn_value.specs.Kinds.{value_has_kind};
ghost use Rattle.rn_model.specs.Systems.{net_at, place_kind_in};
ghost use Rattle.rn_lines.specs.link.Said.{said};
ghost use Rattle.rn_lines.specs.link.LinesSeen.{item, token};
ghost use Rattle.rn_lookup.specs.Found.{name_nets, net_said, place_said, tokens_held};
ghost use Rattle.rn_lookup.specs.Faults.{Tells, token_fault, tokens_fault, mark_fault};
ghost use Rattle.rn_lookup.specs.link.Tables.{IsDirectoryOf};

use crate::directory::Directory;
use crate::nodes::name_nets;
use crate::refusal::Refusal;
use rn_lines::{ReadItem, ReadMark, ReadToken};
use rn_model::{System, net_at};
use rn_value::{Kind, NoMemory, has_kind};
use std::alloc::Global;

/// The numbers of a mark's net and place.
#[derive(Clone, Copy, Debug, PartialEq, Eq)]
pub struct FoundMark {
    pub net: u32,
    pub place: u32,
}

/// Looks at a printed value: the nets that it names are there.
pub fn find_token(
    alloc: Global,
    system: &System,
    directory: &Directory,
    read: &ReadToken<'_>,
) -> Result<(), Refusal>
    requires { IsDirectoryOf system.now directory.now }
    ensures { Tells result (token_fault system.now (token read.now)) }
{
    if name_nets(alloc, system, directory, read.mentions.as_slice())? {
        Ok(())
    } else {
        Err(Refusal::Name)
    }
}

fn all_items_name_nets(
    alloc: Global,
    system: &System,
    directory: &Directory,
    items: &[ReadItem<'_>],
) -> Result<bool, NoMemory>
    requires { IsDirectoryOf system.now directory.now }
    ensures { IfOk result (λ all_named.
        all_named ≡ list_all (λ t. name_nets system.now t.named) (tokens_held (map item items.now))) }
{
    for item in items {
        if !name_nets(alloc, system, directory, item.token.mentions.as_slice())? {
            return Ok(false);
        }
    }
    Ok(true)
}

fn items_fit(items: &[ReadItem<'_>], kind: &Kind) -> bool
    ensures { result ≡ list_all (λ t. value_has_kind t.value kind.now)
        (tokens_held (map item items.now)) }
{
    for item in items {
        if !has_kind(&item.token.value, kind) {
            return false;
        }
    }
    true
}

fn check_items(
    alloc: Global,
    system: &System,
    directory: &Directory,
    items: &[ReadItem<'_>],
    kind: &Kind,
) -> Result<(), Refusal>
    requires { IsDirectoryOf system.now directory.now }
    ensures { Tells result (tokens_fault system.now kind.now (tokens_held (map item items.now))) }
{
    if !items_fit(items, kind) {
        return Err(Refusal::Form);
    }
    if !all_items_name_nets(alloc, system, directory, items)? {
        return Err(Refusal::Name);
    }
    Ok(())
}

/// The kind of a net's place.
fn kind_of_place(system: &System, found: FoundMark) -> &Kind
    requires net { found.net < length system.now.nets }
    requires place { found.place < length (net_at system.now found.net).places }
    ensures { result.now ≡ place_kind_in (net_at system.now found.net) found.place }
{
    &net_at(system, found.net).places.as_slice()[found.place as usize].kind
}

/// The net and the place of a mark, where they are there and each token has the place's kind.
/// Whether the instances that it names are made isn't looked at.
pub fn find_mark(
    alloc: Global,
    system: &System,
    directory: &Directory,
    read: &ReadMark<'_>,
) -> Result<FoundMark, Refusal>
    requires { IsDirectoryOf system.now directory.now }
    ensures fault { Tells result (mark_fault system.now (said read.now.inst) read.now.place.now
        (tokens_held (map item read.now.items.items))) }
    ensures net { IfOk result (λ f. f.net ≡ net_said system.now (said read.now.inst)) }
    ensures place { IfOk result (λ f.
        f.place ≡ place_said system.now (said read.now.inst) read.now.place.now) }
{
    let Some(net) = directory.net(alloc, read.inst.name)? else {
        return Err(Refusal::Name);
    };
    let Some(place) = directory.place(alloc, net, read.place)? else {
        return Err(Refusal::Name);
    };
    let found = FoundMark { net, place };
    let kind = kind_of_place(system, found);
    check_items(alloc, system, directory, read.items.as_slice(), kind)?;
    Ok(found)
}
