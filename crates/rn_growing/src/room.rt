//! The vectors of bindings, from one to the next. A search opens a binding for each start; in the
//! room of the one before it asks for memory only where it needs more. By the invariant nothing is
//! left in them, so no binding begins with what another decided (`docs/SEARCH.md`, 'Going back').
use crate::decision::Decision;
use crate::laid::Laid;
use crate::slot::Frame;
use rn_chains::Chains;
use rn_value::NoMemory;
use std::alloc::Global;
use std::marker::Model;

/// The vectors of a binding that grew, empty, for the next one.
#[derive(Drop)]
pub struct GrowingRoom {
    pub(crate) laid: Laid,
    pub(crate) decisions: Vec<Decision>,
    pub(crate) frames: Vec<Frame>,
    pub(crate) keys: Chains,
}

impl Model for GrowingRoom {
    ghost use Rattle.std.specs.Prelude.{◌≡◌, [], ⊤};

    ghost Value = { ⊤ };

    ghost view = { λ _. tt };

    ghost invariant = { λ r. (r.laid.slots ≡ []) × (r.decisions.items ≡ [])
        × (r.frames.items ≡ []) × (r.keys ≡ []) };
}

impl GrowingRoom {
    /// It takes no memory.
    pub fn new(alloc: Global) -> GrowingRoom {
        GrowingRoom {
            laid: Laid::new(alloc),
            decisions: Vec::new(alloc),
            frames: Vec::new(alloc),
            keys: Chains::new(alloc),
        }
    }

    /// It has room for so many decisions from the start.
    pub fn with_room(alloc: Global, decisions: usize) -> Result<GrowingRoom, NoMemory> {
        let frames = Vec::with_capacity(alloc, decisions)?;
        let keys = Chains::with_room(alloc, decisions)?;
        let laid = Laid::with_room(alloc, decisions)?;
        Ok(GrowingRoom {
            laid,
            decisions: Vec::with_capacity(alloc, decisions)?,
            frames,
            keys,
        })
    }
}
