//! What a chunk of a bag keeps for itself.

/// Which slots of a chunk hold a token, how many these are, how many tokens stand in the chunks
/// before it, the position of the list in the pool that has its values, and how many of that list's
/// values, from the first on, are its. So more can come after them and the chunk stays as it is.
#[derive(Clone, Copy)]
pub(crate) struct Tag {
    pub(crate) word: u64,
    pub(crate) count: usize,
    pub(crate) before: usize,
    pub(crate) at: usize,
    pub(crate) len: usize,
}
