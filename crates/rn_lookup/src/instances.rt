//! Whether the instances that a line names are made, and are of the nets that it says.
ghost use Rattle.std.specs.Prelude.{◌≡◌, map};
ghost use Rattle.std.specs.List.{list_all};
ghost use Rattle.rn_lines.specs.link.Said.{said};
ghost use Rattle.rn_lines.specs.link.NodeSeen.{given, node};
ghost use Rattle.rn_lines.specs.link.LinesSeen.{item};
ghost use Rattle.rn_lookup.specs.Found.{is_called, are_called, node_is_called};
ghost use Rattle.rn_lookup.specs.Found.{tokens_are_called, tokens_held};

use rn_lines::{Mention, ReadGiven, ReadItem, ReadNode};
use rn_model::{System, find_net};

/// Whether an instance is among those made, and is called by the name of its net. `made` has the
/// nets of the instances that were made, from number 1 on.
pub fn is_called(system: &System, made: &[u32], mention: &Mention<'_>) -> bool
    ensures { result ≡ is_called system.now made.now (said mention.now) }
{
    if mention.number == 0 {
        return false;
    }
    let Some(net) = made.get(mention.number as usize - 1) else {
        return false;
    };
    match find_net(system, *net) {
        Some(net) => net.name.as_str().as_bytes() == mention.name,
        None => mention.name.is_empty(),
    }
}

/// Whether each of these is.
pub fn are_called(system: &System, made: &[u32], mentions: &[Mention<'_>]) -> bool
    ensures { result ≡ are_called system.now made.now (map said mentions.now) }
{
    for mention in mentions {
        if !is_called(system, made, mention) {
            return false;
        }
    }
    true
}

fn all_given_called(system: &System, made: &[u32], all: &[ReadGiven<'_>]) -> bool
    ensures { result ≡ list_all (λ g. are_called system.now made.now g.named) (map given all.now) }
{
    for given in all {
        if !are_called(system, made, given.mentions.as_slice()) {
            return false;
        }
    }
    true
}

/// Whether the instance of a node and those that its values name are.
pub fn node_is_called(system: &System, made: &[u32], read: &ReadNode<'_>) -> bool
    ensures { result ≡ node_is_called system.now made.now (node read.now) }
{
    is_called(system, made, &read.inst) && all_given_called(system, made, read.given.as_slice())
}

/// Whether the instances that the values of a mark name are.
pub fn tokens_are_called(system: &System, made: &[u32], items: &[ReadItem<'_>]) -> bool
    ensures { result ≡ tokens_are_called system.now made.now (tokens_held (map item items.now)) }
{
    for item in items {
        if !are_called(system, made, item.token.mentions.as_slice()) {
            return false;
        }
    }
    true
}
