//! Nodes that were entered, found by their paths. Only the last node of a key is compared with the
//! path, so one that shares its key with a later one isn't found. No clause speaks of them: they
//! only decide which nodes are looked at first (`docs/SEARCH.md`, 'What it does next').
use rn_chains::Chains;
use rn_growing::Decision;
use rn_value::NoMemory;
use std::alloc::Global;

/// The keys of the paths of the nodes that the first decisions enter.
#[derive(Drop)]
pub(crate) struct EnteredPaths {
    keys: Chains,
}

// One more number goes into a key.
fn stirred(key: usize, n: usize) -> usize {
    key.wrapping_mul(16777619).wrapping_add(n)
}

// The key of a path.
fn key_of(path: &[u32]) -> usize {
    let mut key = 1;
    for n in path {
        key = stirred(key, *n as usize);
    }
    key
}

// The key of a decision: that of the path of the node that it enters, or any other.
fn key_at(decision: &Decision, index: usize) -> usize {
    match decision {
        Decision::Entered(head, _) => key_of(head.path.as_slice()),
        _ => stirred(7, index),
    }
}

// Whether a path is that of a child of the node on another.
fn is_child(path: &[u32], above: &[u32], i: usize) -> bool {
    let n = above.len();
    path.len() == n.saturating_add(1) && path[n] as usize == i && path[..n] == above[..]
}

impl EnteredPaths {
    /// Of no decisions. It takes no memory.
    pub(crate) fn new(alloc: Global) -> EnteredPaths {
        EnteredPaths {
            keys: Chains::new(alloc),
        }
    }

    /// The decisions come in that aren't there yet.
    pub(crate) fn catch_up(
        &mut self,
        alloc: Global,
        decisions: &[Decision],
    ) -> Result<(), NoMemory> {
        for k in self.keys.len()..decisions.len() {
            self.keys.push(alloc, key_at(&decisions[k], k))?;
        }
        Ok(())
    }

    /// Lets all but those of the first decisions go.
    pub(crate) fn truncate(&mut self, count: usize) {
        self.keys.truncate(count);
    }

    /// The decision that enters the node on a path, where it is found.
    pub(crate) fn node_on(&self, decisions: &[Decision], path: &[u32]) -> Option<usize> {
        let Some(node) = self.keys.last(key_of(path)).checked_sub(1) else {
            return None;
        };
        match decisions.get(node) {
            Some(Decision::Entered(head, _)) if head.path.as_slice() == path => Some(node),
            _ => None,
        }
    }

    /// The decision that enters a child of the node on a path, where it is found.
    pub(crate) fn child_on(&self, decisions: &[Decision], path: &[u32], i: usize) -> Option<usize> {
        let Some(node) = self.keys.last(stirred(key_of(path), i)).checked_sub(1) else {
            return None;
        };
        match decisions.get(node) {
            Some(Decision::Entered(head, _)) if is_child(head.path.as_slice(), path, i) => {
                Some(node)
            }
            _ => None,
        }
    }
}
