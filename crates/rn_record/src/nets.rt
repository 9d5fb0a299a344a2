//! How many instances entries make.
ghost use Rattle.std.specs.Prelude.{◌≡◌, ◌<◌, ◌^◌, length};
ghost use Rattle.rn_spell.specs.Made.{made_in, nets_by, nets_made};
ghost use Rattle.rn_record.specs.Nets.{fired_in};

use rn_model::{Binding, Entry, Node, Reason, System, find_transition};

/// How many instances an entry's binding makes, or would make.
pub(crate) fn count_made(system: &System, entry: &Entry) -> usize
    requires { length (made_in system.now entry.now) < 2 ^ 64 }
    ensures { result ≡ length (made_in system.now entry.now) }
{
    match entry {
        Entry::Fire {
            worker: _,
            binding,
            outs: _,
        } => count_all(system, binding),
        Entry::End(Reason::Fault(_, binding)) => count_all(system, binding),
        Entry::End(_) => 0,
    }
}

/// How many instances an entry makes: an end makes none.
pub(crate) fn count_fired(system: &System, entry: &Entry) -> usize
    requires { length (made_in system.now entry.now) < 2 ^ 64 }
    ensures { result ≡ length (fired_in system.now entry.now) }
{
    match entry {
        Entry::Fire {
            worker: _,
            binding,
            outs: _,
        } => count_all(system, binding),
        Entry::End(_) => 0,
    }
}

fn count_all(system: &System, binding: &Binding) -> usize
    requires { length (nets_made system.now binding.now) < 2 ^ 64 }
    ensures { result ≡ length (nets_made system.now binding.now) }
{
    let mut count = 0;
    for node in binding.nodes.as_slice() {
        count += count_by(system, node);
    }
    count
}

fn count_by(system: &System, node: &Node) -> usize
    ensures { result ≡ length (nets_by system.now node.now) }
{
    match find_transition(system, node) {
        Some(transition) => transition.creations.len(),
        None => 0,
    }
}
