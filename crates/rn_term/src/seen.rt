//! Ids that a walk through terms has seen, so that it goes through each shared term once.
ghost use Rattle.std.specs.Prelude.{◌≡◌, ◌↔◌, ◌⊎◌, ℕ, IsTrue};
ghost use Rattle.rn_term.specs.link.Seen.{IsSeen};

use rn_value::NoMemory;
use std::alloc::Global;

/// Ids that were seen. It may forget some: a short walk remembers nothing and takes no memory. Only
/// after a number of steps that grows with the size of the store a flag is kept for each id.
#[derive(Debug, Drop)]
pub(crate) struct Seen {
    flags: Vec<bool>,
    size: usize,
    forgets: usize,
}

impl Seen {
    /// No ids of a store of this size.
    pub(crate) fn new(alloc: Global, size: usize) -> Seen
        ensures none { (id : ℕ) → ¬ IsSeen result id }
    {
        Seen {
            flags: Vec::new(alloc),
            size,
            forgets: size / 64,
        }
    }

    /// Whether this id was seen and not forgotten.
    pub(crate) fn has(&self, id: usize) -> bool
        ensures exact { IsTrue result ↔ IsSeen self.now id }
    {
        id < self.flags.len() && self.flags[id]
    }

    /// Remembers an id, or forgets it where the walk is still short.
    pub(crate) fn add(&mut self, alloc: Global, id: usize) -> Result<(), NoMemory>
        ensures only { (k : ℕ) → IsSeen self.new k → (k ≡ id) ⊎ IsSeen self.old k }
    {
        if self.forgets > 0 {
            self.forgets -= 1;
            return Ok(());
        }
        if self.flags.is_empty() {
            self.flags = vec![in alloc; false; self.size]?;
        }
        if id < self.flags.len() {
            self.flags[id] = true;
        }
        Ok(())
    }
}
