//! Classes of ids that were made one, so that no two of them are compared again.
ghost use Rattle.std.specs.Prelude.{◌≡◌, ◌<◌, ℕ, IsTrue};
ghost use Rattle.rn_value.specs.declared.value.Value.{Value};
ghost use Rattle.rn_unify.specs.link.Classes.{Fits};

use rn_value::NoMemory;
use std::alloc::Global;

/// Ids that were made one. Beside each stands one more than the smaller id with which it was made
/// one, or 0 where there is none. It may forget some: a short comparison remembers nothing and takes
/// no memory.
#[derive(Debug, Drop)]
pub(crate) struct Classes {
    parents: Vec<usize>,
    size: usize,
    forgets: usize,
}

impl Classes {
    /// Each id of a store of this size by itself.
    pub(crate) fn new(alloc: Global, size: usize) -> Classes
        ensures alone { (f : ℕ → Value) → Fits result f }
    {
        Classes {
            parents: Vec::new(alloc),
            size,
            forgets: size / 16,
        }
    }

    /// The least id of a class, as far as is known.
    fn root(&self, id: usize) -> usize
        ensures same { (f : ℕ → Value) → Fits self.now f → f id ≡ f result }
    {
        let mut root = id;
        while root < self.parents.len() && 0 < self.parents[root] && self.parents[root] <= root {
            root = self.parents[root] - 1;
        }
        root
    }

    /// Whether two ids are known to have been made one.
    pub(crate) fn are_one(&self, a: usize, b: usize) -> bool
        ensures same { IsTrue result → (f : ℕ → Value) → Fits self.now f → f a ≡ f b }
    {
        self.root(a) == self.root(b)
    }

    /// Remembers that two ids were made one, or forgets it where the comparison is still short.
    pub(crate) fn join(&mut self, alloc: Global, a: usize, b: usize) -> Result<(), NoMemory>
        ensures fits { (f : ℕ → Value) → Fits self.old f → f a ≡ f b → Fits self.new f }
    {
        if self.forgets > 0 {
            self.forgets -= 1;
            return Ok(());
        }
        self.make_room(alloc)?;
        self.link_roots(a, b);
        Ok(())
    }

    fn make_room(&mut self, alloc: Global) -> Result<(), NoMemory>
        ensures fits { (f : ℕ → Value) → Fits self.old f → Fits self.new f }
    {
        if self.parents.is_empty() {
            self.parents = vec![in alloc; 0; self.size]?;
        }
        Ok(())
    }

    fn link_roots(&mut self, a: usize, b: usize)
        ensures fits { (f : ℕ → Value) → Fits self.old f → f a ≡ f b → Fits self.new f }
    {
        let x = self.root(a);
        let y = self.root(b);
        if x < y {
            self.link(y, x);
        } else if y < x {
            self.link(x, y);
        }
    }

    fn link(&mut self, id: usize, parent: usize)
        requires smaller { parent < id }
        ensures fits { (f : ℕ → Value) → Fits self.old f → f id ≡ f parent → Fits self.new f }
    {
        if id < self.parents.len() {
            self.parents[id] = parent + 1;
        }
    }
}
