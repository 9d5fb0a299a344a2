//! How many tokens stand before each chunk, and looking for a token by its index.
ghost use Rattle.std.specs.Prelude.{◌≡◌, ◌<◌, ◌≤◌, ◌+◌, ◌*◌, ℕ, length, take, slice_get, Some};
ghost use Rattle.rn_bag.specs.link.Chunks.{AreCounted, tokens_in, values_in};

use crate::chunks::Chunks;
use crate::words::ROOM;
use rn_value::Value;

/// How many tokens stand in the chunks before this index.
pub(crate) fn count_before(chunks: &Chunks, index: usize) -> usize
    requires inside { index ≤ length chunks.now }
    requires counted { AreCounted 0 0 (take index chunks.now) }
    ensures count { result ≡ length (tokens_in (take index chunks.now)) }
    ensures bound { result ≤ ROOM * index }
{
    if index == 0 {
        return 0;
    }
    chunks.before(index - 1) + chunks.count(index - 1)
}

/// The chunks from this index on say again how many tokens stand before each of them.
pub(crate) fn recount(chunks: &mut Chunks, from: usize)
    requires inside { from ≤ length chunks.old }
    requires counted { AreCounted 0 0 (take from chunks.old) }
    ensures tokens { tokens_in chunks.new ≡ tokens_in chunks.old }
    ensures values { values_in chunks.new ≡ values_in chunks.old }
    ensures counted { AreCounted 0 0 chunks.new }
{
    let mut total = count_before(chunks, from);
    for i in from..chunks.len() {
        chunks.set_before(i, total);
        total += chunks.count(i);
    }
}

/// The chunk of the token of this index, by halving over how many stand before a chunk.
fn chunk_of(chunks: &Chunks, index: usize) -> usize
    requires inside { index < length (tokens_in chunks.now) }
    requires counted { AreCounted 0 0 chunks.now }
    ensures inside { result < length chunks.now }
    ensures before { length (tokens_in (take result chunks.now)) ≤ index }
    ensures after { index < length (tokens_in (take (result + 1) chunks.now)) }
{
    let mut low = 0;
    let mut high = chunks.len();
    while high - low > 1 {
        let middle = low + (high - low) / 2;
        if chunks.before(middle) <= index {
            low = middle;
        } else {
            high = middle;
        }
    }
    low
}

/// The token of this index.
pub(crate) fn token_at(chunks: &Chunks, index: usize) -> &Value
    requires inside { index < length (tokens_in chunks.now) }
    requires counted { AreCounted 0 0 chunks.now }
    ensures { slice_get (tokens_in chunks.now) index ≡ Some result.now }
{
    let chunk = chunks.at(chunk_of(chunks, index));
    chunk.nth(index - chunk.before())
}

/// Tokens that stand side by side in the slots of one chunk, the first of which has this index. After
/// them may come more.
pub(crate) fn run_at(chunks: &Chunks, index: usize) -> &[Value]
    requires inside { index < length (tokens_in chunks.now) }
    requires counted { AreCounted 0 0 chunks.now }
    ensures some { 0 < length result.now }
    ensures bound { index + length result.now ≤ length (tokens_in chunks.now) }
    ensures tokens { (k : ℕ) → k < length result.now →
        slice_get (tokens_in chunks.now) (index + k) ≡ slice_get result.now k }
{
    let chunk = chunks.at(chunk_of(chunks, index));
    chunk.run_from(index - chunk.before())
}
