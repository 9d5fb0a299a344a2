//! The uplinks of a system, and the heights of its transitions.
ghost use Rattle.std.specs.Prelude.{◌≡◌, ◌<◌, ℕ, ◌^◌, All, IfOk, length, slice_index_or, Option};
ghost use Rattle.rn_model.specs.declared.system.System.{System as Whole};
ghost use Rattle.rn_model.specs.Systems.{net_at, transition_at};
ghost use Rattle.rn_channel.specs.Answering.{answering};
ghost use Rattle.rn_channel.specs.Heights.{IsLeastHeight};
ghost use Rattle.rn_channel.specs.link.Uplinks.{AreUplinksOf};

use crate::heights::{heights_of, levels_of};
use crate::rows::{Rows, row_of, rows_of};
use rn_items::{Items, NoMemory};
use rn_model::System;
use std::alloc::Global;

/// What is kept of one net.
#[derive(Debug, Drop)]
pub(crate) struct NetUplinks {
    pub(crate) rows: Rows,
    pub(crate) heights: Items<Option<u32>>,
}

/// Which transitions answer a call, for each net and channel of a system, and how many levels of
/// calls each transition needs below it.
#[derive(Debug, Drop)]
pub struct Uplinks {
    nets: Vec<NetUplinks>,
}

// The height of a transition, among those of its net.
fn height_in(heights: &[Option<u32>], transition: u32) -> Option<u32>
    ensures { transition < length heights.now → (h : Option ℕ) → result ≡ slice_index_or heights.now transition h }
{
    match heights.get(transition as usize) {
        Some(height) => *height,
        None => None,
    }
}

impl Uplinks {
    /// The uplinks of a system, whose nets have fewer than 2^32 transitions each, as those of a good
    /// one. The work grows as the size of the system.
    pub fn new(alloc: Global, system: &System) -> Result<Uplinks, NoMemory>
        requires { All (λ net. length net.transitions < 2 ^ 32) system.now.nets }
        ensures { IfOk result (λ uplinks. AreUplinksOf system.now uplinks) }
    {
        let levels = levels_of(alloc, system)?;
        let mut nets = Vec::with_capacity(alloc, system.nets.len())?;
        for net in system.nets.as_slice() {
            let rows = rows_of(alloc, net)?;
            let heights = heights_of(alloc, levels.as_slice(), net)?;
            nets.push(NetUplinks { rows, heights })?;
        }
        Ok(Uplinks { nets })
    }

    /// The transitions of a net with an uplink of this channel, ascending. It takes no memory, and
    /// grows as the logarithm of the number of channels that the net answers.
    pub fn answering(&self, net: u32, channel: u32) -> &[u32]
        ensures { (system : Whole) → AreUplinksOf system self.now →
            result.now ≡ answering system net channel }
    {
        match self.nets.get(net as usize) {
            Some(kept) => row_of(&kept.rows, channel),
            None => &[],
        }
    }

    /// The least number of levels of calls that suffices below a transition, or `None` where no
    /// number up to the greatest depth, 16, does. It takes no memory.
    pub fn height(&self, net: u32, transition: u32) -> Option<u32>
        ensures { (system : Whole) → AreUplinksOf system self.now → net < length system.nets →
            transition < length (net_at system net).transitions →
            IsLeastHeight system (transition_at system net transition) result }
    {
        match self.nets.get(net as usize) {
            Some(kept) => height_in(kept.heights.as_slice(), transition),
            None => None,
        }
    }
}
