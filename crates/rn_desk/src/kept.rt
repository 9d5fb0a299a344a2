//! What a desk can keep: a state with entries, of which each has an author, and a part that stays
//! the same. A desk knows nothing else of its state, so the same desk serves runs and least runs,
//! and its rule speaks of lists of entries alone (`docs/WORKERS.md`, 'Turns').
ghost use Rattle.std.specs.Prelude.{◌≡◌, ℕ, List, length};

/// A state with a list of entries, of which each has an author or none.
///
/// Where memory runs out as a desk is opened, the state is dropped.
pub trait Kept: Drop {
    /// An entry.
    type Item;
    /// What stays the same while the state lies in a desk.
    type Fixed;

    /// The entries, in order.
    ghost entries: { Self → List Self.Item };

    /// The number of the pass that authored an entry, or 0 for none.
    ghost author: { Self.Item → ℕ };

    /// What stays the same.
    ghost fixed: { Self → Self.Fixed };

    /// The number of entries.
    fn length(&self) -> u64
        ensures { result ≡ length (entries self.now) };
}
