//! What looks keep for those that follow: of how many nodes the tests are known to hold, where a
//! look begins, and which choices were gone through in vain. It says what is looked at first, and
//! no more: what is tested of a binding at the end of a branch doesn't rest on it
//! (`docs/SEARCH.md`, 'What it does next').
use crate::best::is_idle;
use crate::look::Look;
use rn_choices::Next;
use rn_growing::Head;
use rn_search::Point;

/// Of the nodes that so many of the first decisions enter, guards and inhibitor arcs are known to
/// hold, and so are flexible arcs. They needn't be looked at again.
#[derive(Clone, Copy, Debug)]
pub struct Tested {
    pub(crate) guards: usize,
    pub(crate) lists: usize,
}

impl Tested {
    /// Of no node.
    pub fn none() -> Tested {
        Tested {
            guards: 0,
            lists: 0,
        }
    }

    /// Of the nodes of so many of the first decisions too.
    pub fn at_least(self, count: usize) -> Tested {
        Tested {
            guards: self.guards.max(count),
            lists: self.lists.max(count),
        }
    }

    /// A decision that enters no node is passed, where those before it are.
    pub(crate) fn pass(&mut self, decision: usize) {
        step_on(&mut self.guards, decision);
        step_on(&mut self.lists, decision);
    }
}

/// One more of the first decisions is passed, where those before it are.
pub(crate) fn step_on(passed: &mut usize, decision: usize) {
    if *passed == decision {
        *passed = decision.saturating_add(1);
    }
}

// Of so many kinds of choices it is counted how often they were gone through in vain.
const KINDS: usize = 64;

// As so many alternatives at most a choice counts that was gone through in vain.
const MOST: usize = 4096;

/// A choice as it stands in the text: of a token of some transition, or of the answer of one of its
/// calls. Few of them share a number.
#[derive(Clone, Copy, Debug)]
pub struct TextChoice(usize);

impl TextChoice {
    /// The choices of tokens of the transition of a node.
    pub fn tokens(head: &Head) -> TextChoice {
        TextChoice(mixed(head.net, head.transition, 0))
    }

    /// The choice of the answer of a call of the transition of a node.
    pub fn call(head: &Head, i: usize) -> TextChoice {
        TextChoice(mixed(head.net, head.transition, i.wrapping_add(1)))
    }
}

// A number for a transition and a choice of it.
fn mixed(net: u32, transition: u32, choice: usize) -> usize {
    let text = (net as usize)
        .wrapping_mul(31)
        .wrapping_add(transition as usize);
    text.wrapping_mul(37).wrapping_add(choice)
}

// So many nodes at most are kept for a look to begin with.
const FIRST: usize = 16;

// For so many looks nodes to begin with are asked for where one found nothing near, for so many more
// after each that found with such a node what to do, and for so many at most.
const ASKED: usize = 4;

const MORE: usize = 8;

const LONGEST: usize = 64;

// One of so many looks that find nothing near has them asked for.
const SELDOM: usize = 64;

/// What looks keep for those that follow.
#[derive(Clone, Copy)]
pub struct Remembered {
    pub(crate) tested: Tested,

    /// The decision by whose node a look found last how to go on, or that nothing does.
    pub(crate) near: usize,

    /// The operator application that a look found last to be known, by its number in its node.
    pub(crate) result: usize,

    /// The call that a look found last to have one answer at most, by the decision that enters its
    /// node, and by its number in that.
    pub(crate) caller: usize,
    pub(crate) call: usize,

    /// Whether the last look found nothing better than a call of which each answer asks for nothing.
    /// Then nothing better comes by an answer of it.
    pub(crate) idle: bool,

    /// Nodes with which the next look begins, and how many they are.
    begin: [usize; FIRST],
    begins: usize,

    /// For how many looks more nodes to begin with are asked for, and how many looks found nothing
    /// near where they weren't.
    asked: usize,
    missed: usize,

    /// How often choices were gone through in vain.
    failed: [u32; KINDS],
}

impl Remembered {
    /// Nothing is kept.
    pub fn none() -> Remembered {
        Remembered {
            tested: Tested::none(),
            near: 0,
            result: 0,
            caller: 0,
            call: 0,
            idle: false,
            begin: [0; FIRST],
            begins: 0,
            asked: 0,
            missed: 0,
            failed: [0; KINDS],
        }
    }

    /// Of how many nodes the tests are known to hold.
    pub fn tested(&self) -> Tested {
        self.tested
    }

    /// The tests are known to hold of so many nodes, and no more.
    pub fn set_tested(&mut self, tested: Tested) {
        self.tested = tested;
    }

    /// The tests are known to hold of the nodes of so many of the first decisions too.
    pub fn settle(&mut self, count: usize) {
        self.tested = self.tested.at_least(count);
    }

    /// Whether it is worth saying with which nodes the next look begins.
    pub fn is_asked(&self) -> bool {
        self.asked > 0
    }

    /// The next look begins with so many of these nodes, by the decisions that enter them, as far as
    /// there is room.
    pub fn begin_with(&mut self, nodes: &[usize], count: usize) {
        let count = count.min(nodes.len()).min(FIRST);
        for k in 0..count {
            self.begin[k] = nodes[k];
        }
        self.begins = count;
        if count == 0 {
            self.asked = self.asked.saturating_sub(1);
        }
    }

    /// With how many nodes the next look begins.
    pub(crate) fn begins(&self) -> usize {
        self.begins
    }

    /// The nodes with which the next look begins.
    pub(crate) fn begin(&self, k: usize) -> usize {
        match self.begin.get(k) {
            Some(node) => *node,
            None => 0,
        }
    }

    /// A look found what to do with one of the nodes that it looked at first, by its number among them.
    /// Where it stands beside that of the last look, it would have been found by that as well.
    pub(crate) fn found_near(&mut self, k: usize, beside: bool) {
        if k < self.begins && !beside {
            self.asked = self.asked.saturating_add(MORE).min(LONGEST);
        } else if self.begins > 0 {
            self.asked = self.asked.saturating_sub(1);
        }
        self.begins = 0;
    }

    /// A look found nothing near.
    pub(crate) fn found_nothing(&mut self) {
        if self.begins > 0 {
            self.asked = self.asked.saturating_sub(1);
        } else {
            if self.missed % SELDOM == 0 {
                self.asked = ASKED;
            }
            self.missed = self.missed.wrapping_add(1);
        }
        self.begins = 0;
    }

    /// Whether a look found nothing better than a call of which each answer asks for nothing, and which.
    pub(crate) fn keep_idle(&mut self, look: Look) {
        self.idle = is_idle(look);
        if !self.idle {
            return;
        }
        if let Look::Goes(Next::Choose(Point::Call(node, i, _), _, _), _) = look {
            self.near = node;
            self.caller = node;
            self.call = i;
        }
    }

    /// A decision was taken back.
    pub fn go_back(&mut self) {
        self.idle = false;
        self.begins = 0;
    }

    /// A choice was gone through in vain.
    pub fn fail(&mut self, choice: TextChoice) {
        let k = choice.0 % KINDS;
        self.failed[k] = self.failed[k].saturating_add(1);
    }

    /// As how many alternatives a choice of so many counts: the more often it was gone through in
    /// vain, the fewer, and fewer than one that never was.
    pub(crate) fn weighed(&self, choice: TextChoice, count: usize) -> usize {
        if count < 2 {
            return count;
        }
        let failed = self.failed[choice.0 % KINDS] as usize;
        if failed == 0 {
            return count.saturating_add(1).min(usize::MAX - 1);
        }
        (count.min(MOST) / failed.saturating_add(1)).max(2)
    }
}
