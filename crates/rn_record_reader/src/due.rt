//! Which nodes of a binding are due, by the downlinks of those before.
ghost use Rattle.std.specs.Prelude.{◌≡◌, ◌++◌, [], ◌∷◌, false, IfOk, OnOk, drop};
ghost use Rattle.rn_record_reader.specs.Paths.{children, is_root};
ghost use Rattle.rn_record_reader.specs.link.DueAhead.{due_paths, path_due};

use crate::level::Level;
use rn_items::Items;
use rn_value::{NoMemory, Path};
use std::alloc::Global;

/// The nodes that are due, by the way to the first of them.
#[derive(Debug, Drop)]
pub(crate) struct Due {
    pub(crate) levels: Vec<Level>,
    pub(crate) done: bool,
}

impl Due {
    /// The first node of a binding is due.
    pub(crate) fn new(alloc: Global) -> Due
        ensures { due_paths result ≡ [] ∷ [] }
    {
        Due {
            levels: Vec::new(alloc),
            done: false,
        }
    }

    pub(crate) fn is_done(&self) -> bool
        ensures { result ≡ self.now.done }
    {
        self.done
    }

    /// Whether the first node of a binding is the one that is due.
    pub(crate) fn is_first(&self) -> bool
        ensures { result ≡ is_root (path_due self.now) }
    {
        self.levels.is_empty()
    }

    /// The path of the node that is due.
    pub(crate) fn path(&self, alloc: Global) -> Result<Path, NoMemory>
        ensures { IfOk result (λ path. path ≡ path_due self.now) }
    {
        let mut path = Vec::with_capacity(alloc, self.levels.len())?;
        for level in self.levels.as_slice() {
            path.push(level.index)?;
        }
        Ok(Items::from_vec(path))
    }

    /// The node that was due has been read, with this many downlinks.
    pub(crate) fn read(&mut self, downlinks: u32) -> Result<(), NoMemory>
        requires { self.old.done ≡ false }
        ensures { OnOk result (due_paths self.new
            ≡ children (path_due self.old) downlinks ++ drop 1 (due_paths self.old)) }
    {
        if 0 < downlinks {
            self.levels.push(Level {
                index: 0,
                after: downlinks - 1,
            })?;
        } else {
            self.advance()?;
        }
        Ok(())
    }

    /// Goes on to the next node that is due.
    fn advance(&mut self) -> Result<(), NoMemory>
        requires { self.old.done ≡ false }
        ensures { OnOk result (due_paths self.new ≡ drop 1 (due_paths self.old)) }
    {
        while let Some(level) = self.levels.pop() {
            if 0 < level.after {
                self.levels.push(Level {
                    index: level.index + 1,
                    after: level.after - 1,
                })?;
                return Ok(());
            }
        }
        self.done = true;
        Ok(())
    }
}
