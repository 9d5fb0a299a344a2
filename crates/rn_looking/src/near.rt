//! Where a look begins, before it goes through all that is asked: with nodes that the newest
//! decision reaches, the newest decision, and those around the one that a look found last. What it
//! finds there counts only where nothing better can come, so a choice is still made by looking
//! further (`docs/SEARCH.md`, 'What it does next').
ghost use Rattle.std.specs.Prelude.{◌<◌, IfOk, IfSome, length};
ghost use Rattle.rn_looking.specs.Applying.{AreAppliedIn};
ghost use Rattle.rn_looking.specs.Branches.{IsBranchOf};
ghost use Rattle.rn_looking.specs.link.Views.{AllLooked};

use crate::best::is_enough;
use crate::look::Look;
use crate::looking::look_at_node;
use crate::tested::Remembered;
use crate::views::BranchView;
use rn_value::NoMemory;
use std::alloc::Global;

// From so many decisions on that may not be settled a look begins near where the last one ended.
const MANY: usize = 16;

// Looks at what a decision asks. It counts where nothing better can come.
fn look_at_best(
    alloc: Global,
    branch: BranchView<'_>,
    node: usize,
    kept: &mut Remembered,
) -> Result<Option<Look>, NoMemory>
    requires branch { IsBranchOf branch.problem.now branch.growing.now }
    requires applied { AreAppliedIn branch.growing.now.system branch.growing.now.decisions
        branch.applications.now }
    requires within { node < length branch.growing.now.decisions }
    ensures { IfOk result (λ best. IfSome best (AllLooked branch.entry)) }
{
    let look = look_at_node(alloc, branch, node, kept)?;
    if is_enough(look, kept.idle) {
        kept.near = node;
        return Ok(Some(look));
    }
    Ok(None)
}

// How far from the decision by which one found last how to go on a look goes before it goes through
// all: at most so far, and a part of all.
const WIDE: usize = 4;

const PART: usize = 16;

// Where a look begins: with the nodes that are kept for it, the newest decision, that by which one found
// last how to go on, and those around it, the nearest first.
fn place(kept: &Remembered, k: usize, near: usize, end: usize) -> usize {
    let begins = kept.begins();
    if k < begins {
        return kept.begin(k);
    }
    let k = k - begins;
    if k == 0 {
        return end.saturating_sub(1);
    }
    let away = k / 2;
    if k % 2 == 0 {
        near.saturating_sub(away)
    } else {
        near.saturating_add(away)
    }
}

// Whether a look that begins there goes by this node.
fn is_beside(node: usize, near: usize) -> bool {
    node.max(near) - node.min(near) <= WIDE
}

/// Looks there, and counts where nothing better can come.
pub(crate) fn look_near(
    alloc: Global,
    branch: BranchView<'_>,
    from: usize,
    kept: &mut Remembered,
) -> Result<Option<Look>, NoMemory>
    requires branch { IsBranchOf branch.problem.now branch.growing.now }
    requires applied { AreAppliedIn branch.growing.now.system branch.growing.now.decisions
        branch.applications.now }
    ensures { IfOk result (λ best. IfSome best (AllLooked branch.entry)) }
{
    let end = branch.growing.mark();
    if end.saturating_sub(from) < MANY {
        return Ok(None);
    }
    let near = kept.near;
    let wide = ((end.saturating_sub(from)) / PART).min(WIDE);
    for k in 0..kept.begins().saturating_add(2 * wide + 2) {
        let node = place(&*kept, k, near, end);
        if from <= node && node < end {
            let best = look_at_best(alloc, branch, node, kept)?;
            if best.is_some() {
                kept.found_near(k, is_beside(node, near));
                return Ok(best);
            }
        }
    }
    kept.found_nothing();
    Ok(None)
}
