//! How many instances nodes make: all of them, and those before a place.
ghost use Rattle.std.specs.Prelude.{◌≡◌, ◌<◌, ◌≤◌, ◌^◌, take, length};
ghost use Rattle.rn_model.specs.Firing.{made_by};
ghost use Rattle.rn_spell.specs.link.Marks.{AreMarks, made_count};

use rn_model::{Node, System, find_transition};

// At so many places it is kept how many instances the nodes before make.
const MARKS: usize = 64;

/// How many instances are made before places that are `step` apart, from the first node on.
#[derive(Drop)]
pub(crate) struct Marks {
    step: usize,
    counts: [usize; MARKS],
    ghost apart: { 0 < step },
}

impl Marks {
    /// They are spread evenly over the nodes.
    pub(crate) fn of(system: &System, nodes: &[Node]) -> Marks
        requires { made_count system.now nodes.now ≤ 2 ^ 32 }
        ensures { AreMarks system.now nodes.now result.step result.counts }
    {
        let step = nodes.len() / MARKS + 1;
        let mut counts = [0; MARKS];
        let mut before = 0;
        let mut place = 0;
        for k in 0..MARKS {
            counts[k] = before;
            let next = place + step.min(nodes.len() - place);
            before += count_made(system, &nodes[place..next]);
            place = next;
        }
        Marks { step, counts }
    }

    /// How many instances are made by the nodes before this place, of those that the marks are of.
    pub(crate) fn count_before(&self, system: &System, nodes: &[Node], place: usize) -> usize
        requires marks { AreMarks system.now nodes.now self.now.step self.now.counts }
        requires few { made_count system.now nodes.now ≤ 2 ^ 32 }
        requires within { place ≤ length nodes.now }
        ensures { result ≡ made_count system.now (take place nodes.now) }
    {
        match self.counts.get(place / self.step) {
            Some(count) => {
                let from = place - place % self.step;
                *count + count_made(system, &nodes[from..place])
            }
            None => count_made(system, &nodes[..place]),
        }
    }
}

// How many instances nodes make.
fn count_made(system: &System, nodes: &[Node]) -> usize
    requires { made_count system.now nodes.now ≤ 2 ^ 32 }
    ensures { result ≡ made_count system.now nodes.now }
{
    let mut count = 0;
    for node in nodes {
        count += creations_count(system, node);
    }
    count
}

/// How many instances a node makes.
#[tactic(auto, using(crate::proofs::FirstCreation::made_by_length))]
pub(crate) fn creations_count(system: &System, node: &Node) -> usize
    ensures { result ≡ length (made_by system.now node.now) }
{
    match find_transition(system, node) {
        Some(transition) => transition.creations.len(),
        None => 0,
    }
}
