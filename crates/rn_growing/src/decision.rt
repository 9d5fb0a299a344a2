//! What is decided of a binding. Each decision carries its node and its value, so what one brings
//! in doesn't depend on the others. A node is given by its path, which copies of its head share
//! (`docs/SEARCH.md`, 'A binding grows by decisions').
ghost use Rattle.std.specs.Prelude.{◌≡◌, IfOk};

use rn_items::Items;
use rn_shared::Shared;
use rn_value::{InstRef, NoMemory, Path, Value, copy_inst};
use std::alloc::Global;

/// Where an expression stands in its transition. Each number is an index in the order of the text,
/// from 0.
#[derive(Clone, Copy, Debug, PartialEq, Eq)]
pub enum Site {
    Left(usize),
    Right(usize),
    UplinkArg(usize),
    Target(usize),
    DownlinkArg(usize, usize),
    Inscription(usize),
}

/// The way to a part of an expression: the index of the part to take at each bracket.
pub type Way = Items<usize>;

/// A node without its values.
#[derive(Debug, Drop, PartialEq, Eq)]
pub struct Head {
    pub path: Shared<Path>,
    pub inst: InstRef,
    pub net: u32,
    pub transition: u32,
}

/// The same node. Both share the path.
pub fn copy_head(alloc: Global, head: &Head) -> Result<Head, NoMemory>
    ensures { IfOk result (λ h. h ≡ head.now) }
{
    let path = head.path.share()?;
    let inst = copy_inst(alloc, &head.inst)?;
    Ok(Head {
        path,
        inst,
        net: head.net,
        transition: head.transition,
    })
}

/// A node that calls, and the index of its downlink.
#[derive(Debug, Drop, PartialEq, Eq)]
pub struct Caller {
    pub head: Head,
    pub downlink: u32,
}

pub type Decisions = Items<Decision>;

/// What is decided of a binding: one of its items, with the value that it brings.
#[derive(Debug, Drop)]
pub enum Decision {
    /// This node is there. The start has no caller.
    Entered(Head, Option<Caller>),

    /// What an arc of a node finds, by the arc's index: a token, or the list of a clear arc.
    Found(Head, usize, Value),

    /// The value of an outermost operator application of a node, by its site and the way to it.
    Computed(Head, Site, Way, Value),
}
