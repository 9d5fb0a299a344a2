//! A window on a text that is written.
ghost use Rattle.std.specs.Prelude.{◌≡◌, ◌∷◌, [], length, take, IfOk, vec_capacity};
ghost use Rattle.rn_window.specs.Windows.{after};

use rn_items::NoMemory;
use std::alloc::Global;
use std::marker::Model;

/// A window on a text that is written.
///
/// It passes over the first bytes of the text, keeps the next ones while there is room for them,
/// and counts all. So a text that is longer than the room is written several times, each time with
/// another piece of it in the window. No memory is taken but for the room.
#[derive(Drop)]
pub struct Window {
    kept: Vec<u8>,
    room: usize,
    skip: usize,
    came: usize,
}

impl Model for Window {
    ghost use Rattle.std.specs.Prelude.{◌≤◌, vec_capacity, vec_len};
    ghost use Rattle.rn_window.specs.Windows.{Sight};

    ghost Value = { Sight };

    ghost view = { λ w. record {
      room = w.room;
      skip = w.skip;
      kept = w.kept.items;
      came = w.came;
    } };

    ghost invariant = { λ w. (w.room ≤ vec_capacity w.kept) × (vec_len w.kept ≤ w.room) };
}

impl Window {
    /// A window with room for so many bytes.
    pub fn new(alloc: Global, room: usize) -> Result<Window, NoMemory>
        ensures { IfOk result (λ w. w ≡ record { room = room; skip = 0; kept = []; came = 0 }) }
    {
        let kept = Vec::with_capacity(alloc, room)?;
        Ok(Window {
            kept,
            room,
            skip: 0,
            came: 0,
        })
    }

    /// A window that keeps the bytes of a vector, with room for as many as its memory holds.
    pub fn over(kept: Vec<u8>) -> Window
        ensures { result
            ≡ record { room = vec_capacity kept; skip = 0; kept = kept.items; came = 0 } }
    {
        let room = kept.capacity();
        Window {
            kept,
            room,
            skip: 0,
            came: 0,
        }
    }

    /// The bytes that are kept.
    pub fn kept(&self) -> &[u8]
        ensures { result.now ≡ self.now.kept }
    {
        self.kept.as_slice()
    }

    /// How many bytes it keeps at most.
    pub fn room(&self) -> usize
        ensures { result ≡ self.now.room }
    {
        self.room
    }

    /// How many bytes came.
    pub fn came(&self) -> usize
        ensures { result ≡ self.now.came }
    {
        self.came
    }

    /// The vector of the bytes that are kept.
    pub fn into_vec(self) -> Vec<u8>
        ensures { result.items ≡ self.kept }
    {
        let Window {
            kept,
            room: _,
            skip: _,
            came: _,
        } = self;
        kept
    }

    /// Only the first `length` bytes are kept, and a text begins anew, of which so many bytes are
    /// passed over.
    pub fn begin(&mut self, length: usize, skip: usize)
        ensures { self.new ≡ record {
          room = self.old.room;
          skip = skip;
          kept = take length self.old.kept;
          came = 0;
        } }
    {
        self.kept.truncate(length);
        self.skip = skip;
        self.came = 0;
    }

    /// The next bytes of the text.
    #[tactic(auto, unfolding(crate::specs::Windows::after))]
    pub fn put(&mut self, bytes: &[u8])
        ensures { self.new ≡ after self.old bytes.now }
    {
        let passed = self.skip.min(bytes.len());
        let seen = &bytes[passed..];
        let n = seen.len().min(self.room - self.kept.len());
        self.skip -= passed;
        self.came = self.came.saturating_add(bytes.len());
        match self.kept.extend_from_slice(&seen[..n]) {
            Ok(()) => {}
            Err(_) => unreachable!(),
        }
    }

    /// The next byte of the text.
    pub fn put_byte(&mut self, byte: u8)
        ensures { self.new ≡ after self.old (byte ∷ []) }
    {
        self.put(&[byte])
    }
}
