//! Slots by their indices, and looking for them by halving.
ghost use Rattle.std.specs.Prelude.{◌≡◌, ◌<◌, ◌≤◌, [], true, take, drop, length, slice_index_or as get_or, IfSome, IfNone, Some};
ghost use Rattle.rn_bag.specs.link.Chunks.{Slots, values_in};
ghost use Rattle.rn_bag.specs.Cuts.{AllBefore, NoneBefore, Ascends};
ghost use Rattle.rn_bag.specs.link.SlotIndices.{tokens_before, tokens_after, values_before, values_after};
ghost use Rattle.rn_bag.specs.Words.{has_bit};

use crate::chunks::Chunks;
use crate::cut::{Cut, stands_before};
use rn_value::Value;

/// A slot: the index of its chunk, and its index in the chunk.
#[derive(Clone, Copy)]
pub(crate) struct SlotIndex {
    pub(crate) chunk: usize,
    pub(crate) slot: usize,
}

/// How many of the values stand before a cut.
pub(crate) fn slot_of(values: &[Value], key: &Value, cut: Cut) -> usize
    requires { Ascends values.now }
    ensures bound { result ≤ length values.now }
    ensures before { AllBefore cut key.now (take result values.now) }
    ensures rest { NoneBefore cut key.now (drop result values.now) }
{
    let mut low = 0;
    let mut high = values.len();
    while low < high {
        let middle = low + (high - low) / 2;
        if stands_before(&values[middle], key, cut) {
            low = middle + 1;
        } else {
            high = middle;
        }
    }
    low
}

/// How many of the chunks have slots that all stand before a cut.
pub(crate) fn chunk_of(chunks: &Chunks, key: &Value, cut: Cut) -> usize
    requires { Ascends (values_in chunks.now) }
    ensures bound { result ≤ length chunks.now }
    ensures before { AllBefore cut key.now (values_in (take result chunks.now)) }
    ensures rest { (d : Slots) → result < length chunks.now → ¬ AllBefore cut key.now (get_or chunks.now result d).values }
{
    let mut low = 0;
    let mut high = chunks.len();
    while low < high {
        let middle = low + (high - low) / 2;
        if chunks.at(middle).stands_before(key, cut) {
            low = middle + 1;
        } else {
            high = middle;
        }
    }
    low
}

/// The slot before which all slots stand before a cut, and none from it on. It may be the end of the
/// last chunk.
pub(crate) fn seek(chunks: &Chunks, key: &Value, cut: Cut) -> SlotIndex
    requires { Ascends (values_in chunks.now) }
    ensures before { AllBefore cut key.now (values_before chunks.now result.chunk result.slot) }
    ensures rest { NoneBefore cut key.now (values_after chunks.now result.chunk result.slot) }
    ensures chunk { 0 < length chunks.now → result.chunk < length chunks.now }
    ensures slot { (d : Slots) → result.chunk < length chunks.now → result.slot ≤ length (get_or chunks.now result.chunk d).values }
{
    let chunk = chunk_of(chunks, key, cut);
    if chunk < chunks.len() {
        let slot = slot_of(chunks.at(chunk).values(), key, cut);
        return SlotIndex { chunk, slot };
    }
    if chunk == 0 {
        return SlotIndex { chunk: 0, slot: 0 };
    }
    SlotIndex {
        chunk: chunk - 1,
        slot: chunks.at(chunk - 1).values().len(),
    }
}

/// The slot of the first token from a slot on.
pub(crate) fn first_token(chunks: &Chunks, from: SlotIndex) -> Option<SlotIndex>
    ensures none { IfNone result (tokens_after chunks.now from.chunk from.slot ≡ []) }
    ensures before { IfSome result (λ p. tokens_before chunks.now p.chunk p.slot ≡ tokens_before chunks.now from.chunk from.slot) }
    ensures chunk { IfSome result (λ p. p.chunk < length chunks.now) }
    ensures slot { IfSome result (λ p. (d : Slots) → p.slot < length (get_or chunks.now p.chunk d).values) }
    ensures there { IfSome result (λ p. (d : Slots) → has_bit (get_or chunks.now p.chunk d).there p.slot ≡ true) }
{
    let mut slot = from.slot;
    for chunk in from.chunk..chunks.len() {
        if let Some(first) = chunks.at(chunk).first_from(slot) {
            return Some(SlotIndex { chunk, slot: first });
        }
        slot = 0;
    }
    None
}
