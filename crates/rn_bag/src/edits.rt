//! Changes of one chunk among others.
ghost use Rattle.std.specs.Prelude.{◌≡◌, ◌<◌, ◌≤◌, suc, [], ◌∷◌, ◌++◌, true, false, length, take, drop, slice_index_or, slice_get, Some, OnOk, OnErr, ◌+◌};
ghost use Rattle.rn_value.specs.declared.value.Value.{Value};
ghost use Rattle.rn_bag.specs.link.Chunks.{Slots, AreSound, Replaces, tokens_in_chunk, tokens_in, values_in};
ghost use Rattle.rn_bag.specs.Cuts.{AllBefore, NoneBefore, Ascends};
ghost use Rattle.rn_bag.specs.declared.cut.Cut.TheVariants.{UpTo};
ghost use Rattle.rn_bag.specs.link.SlotIndices.{tokens_before, tokens_after, values_before, values_after};
ghost use Rattle.rn_bag.specs.Slots.{there_from};
ghost use Rattle.rn_bag.specs.Words.{has_bit};

use crate::chunks::Chunks;
use crate::counting::recount;
use crate::seek::SlotIndex;
use crate::words::ROOM;
use rn_items::NoMemory;
use rn_value::Value;
use std::alloc::Global;

/// A value becomes the first token.
pub(crate) fn put_first(chunks: &mut Chunks, alloc: Global, value: Value) -> Result<(), NoMemory>
    requires { chunks.old ≡ [] }
    ensures ok { OnOk result (tokens_in chunks.new ≡ value ∷ []) }
    ensures sound { AreSound chunks.new }
    ensures err { OnErr result (chunks.new ≡ chunks.old) }
{
    let mut tokens = Vec::with_capacity(alloc, 1)?;
    tokens.push(value)?;
    chunks.begin(alloc, tokens)?;
    Ok(())
}

/// The token of a slot goes. It takes no memory.
pub(crate) fn take_out(chunks: &mut Chunks, at: SlotIndex)
    requires chunk { at.chunk < length chunks.old }
    requires slot { (d : Slots) → at.slot < length (slice_index_or chunks.old at.chunk d).values }
    requires there { (d : Slots) → has_bit (slice_index_or chunks.old at.chunk d).there at.slot
        ≡ true }
    requires sound { AreSound chunks.old }
    ensures tokens { tokens_in chunks.new ≡ tokens_before chunks.old at.chunk at.slot
        ++ tokens_after chunks.old at.chunk (suc at.slot) }
    ensures sound { AreSound chunks.new }
{
    clear_slot(chunks, at);
    recount(chunks, at.chunk);
}

/// The slot holds no token from now on, and a chunk without tokens goes.
fn clear_slot(chunks: &mut Chunks, at: SlotIndex)
    requires chunk { at.chunk < length chunks.old }
    requires slot { (d : Slots) → at.slot < length (slice_index_or chunks.old at.chunk d).values }
    requires there { (d : Slots) → has_bit (slice_index_or chunks.old at.chunk d).there at.slot
        ≡ true }
    requires ascend { Ascends (values_in chunks.old) }
    ensures tokens { tokens_in chunks.new ≡ tokens_before chunks.old at.chunk at.slot
        ++ tokens_after chunks.old at.chunk (suc at.slot) }
    ensures ascend { Ascends (values_in chunks.new) }
    ensures prefix { take at.chunk chunks.new ≡ take at.chunk chunks.old }
    ensures size { at.chunk ≤ length chunks.new }
{
    let (there, count) = chunks.at(at.chunk).without_slot(at.slot);
    if count == 0 {
        chunks.remove(at.chunk);
    } else {
        chunks.set_there(at.chunk, there, count);
    }
}

/// The value of a slot that holds no token becomes one. It takes no memory.
pub(crate) fn put_back(chunks: &mut Chunks, at: SlotIndex)
    requires chunk { at.chunk < length chunks.old }
    requires slot { (d : Slots) → at.slot < length (slice_index_or chunks.old at.chunk d).values }
    requires free { (d : Slots) → has_bit (slice_index_or chunks.old at.chunk d).there at.slot
        ≡ false }
    requires sound { AreSound chunks.old }
    ensures tokens { (v : Value) → ((d : Slots) →
        slice_get (slice_index_or chunks.old at.chunk d).values at.slot ≡ Some v) →
        tokens_in chunks.new ≡ tokens_before chunks.old at.chunk at.slot
        ++ (v ∷ tokens_after chunks.old at.chunk (suc at.slot)) }
    ensures sound { AreSound chunks.new }
{
    set_slot(chunks, at);
    recount(chunks, at.chunk);
}

/// The slot holds a token from now on.
fn set_slot(chunks: &mut Chunks, at: SlotIndex)
    requires chunk { at.chunk < length chunks.old }
    requires slot { (d : Slots) → at.slot < length (slice_index_or chunks.old at.chunk d).values }
    requires free { (d : Slots) → has_bit (slice_index_or chunks.old at.chunk d).there at.slot
        ≡ false }
    ensures tokens { (v : Value) → ((d : Slots) →
        slice_get (slice_index_or chunks.old at.chunk d).values at.slot ≡ Some v) →
        tokens_in chunks.new ≡ tokens_before chunks.old at.chunk at.slot
        ++ (v ∷ tokens_after chunks.old at.chunk (suc at.slot)) }
    ensures values { values_in chunks.new ≡ values_in chunks.old }
    ensures prefix { take at.chunk chunks.new ≡ take at.chunk chunks.old }
    ensures size { at.chunk ≤ length chunks.new }
{
    let (there, count) = chunks.at(at.chunk).with_slot(at.slot);
    chunks.set_there(at.chunk, there, count);
}

/// A value becomes a token before the tokens from a slot on: the chunk is made anew, or a new one
/// begins after it where it is full.
pub(crate) fn put_new(
    chunks: &mut Chunks,
    alloc: Global,
    at: SlotIndex,
    value: Value,
) -> Result<(), NoMemory>
    requires chunk { at.chunk < length chunks.old }
    requires slot { (d : Slots) → at.slot ≤ length (slice_index_or chunks.old at.chunk d).values }
    requires sound { AreSound chunks.old }
    requires before { AllBefore UpTo value (values_before chunks.old at.chunk at.slot) }
    requires rest { NoneBefore UpTo value (values_after chunks.old at.chunk at.slot) }
    ensures ok { OnOk result (tokens_in chunks.new ≡ tokens_before chunks.old at.chunk at.slot
        ++ (value ∷ tokens_after chunks.old at.chunk at.slot)) }
    ensures sound { AreSound chunks.new }
    ensures err { OnErr result (chunks.new ≡ chunks.old) }
{
    grow(chunks, alloc, at, value)?;
    recount(chunks, at.chunk);
    Ok(())
}

/// The same, before the tokens are counted again.
fn grow(chunks: &mut Chunks, alloc: Global, at: SlotIndex, value: Value) -> Result<(), NoMemory>
    requires chunk { at.chunk < length chunks.old }
    requires slot { (d : Slots) → at.slot ≤ length (slice_index_or chunks.old at.chunk d).values }
    ensures ok { OnOk result ((x : Slots) → x ≡ slice_index_or chunks.old at.chunk x →
        Replaces chunks.old at.chunk (there_from (has_bit x.there) 0 (take at.slot x.values)
        ++ (value ∷ there_from (has_bit x.there) at.slot (drop at.slot x.values))) chunks.new) }
    ensures err { OnErr result (chunks.new ≡ chunks.old) }
{
    let chunk = chunks.at(at.chunk);
    let count = chunk.count();
    if at.slot == chunk.values().len() && count == at.slot {
        if count == ROOM {
            return put_after(chunks, alloc, at.chunk, value);
        }
        return put_last(chunks, alloc, at.chunk, value);
    }
    let tokens = chunk.with_token(alloc, at.slot, value)?;
    replace(chunks, alloc, at.chunk, tokens)
}

/// One or two chunks of these tokens come in place of one.
fn replace(
    chunks: &mut Chunks,
    alloc: Global,
    at: usize,
    tokens: Vec<Value>,
) -> Result<(), NoMemory>
    requires at { at < length chunks.old }
    requires some { 0 < length tokens.items }
    requires few { length tokens.items ≤ ROOM + 1 }
    ensures ok { OnOk result (Replaces chunks.old at tokens.items chunks.new) }
    ensures err { OnErr result (chunks.new ≡ chunks.old) }
{
    if tokens.len() > ROOM {
        put_two(chunks, alloc, at, tokens)
    } else {
        put_one(chunks, alloc, at, tokens)
    }
}

/// A chunk of one token comes after the one of this index.
fn put_after(chunks: &mut Chunks, alloc: Global, at: usize, value: Value) -> Result<(), NoMemory>
    requires at { at < length chunks.old }
    ensures ok { OnOk result ((x : Slots) → x ≡ slice_index_or chunks.old at x →
        tokens_in_chunk x ≡ x.values → Replaces chunks.old at (x.values ++ value ∷ []) chunks.new) }
    ensures err { OnErr result (chunks.new ≡ chunks.old) }
{
    let mut tokens = Vec::with_capacity(alloc, 1)?;
    tokens.push(value)?;
    chunks.insert_after(alloc, at, tokens)
}

/// The value comes after those of the chunk of this index, which are all tokens: in place where no
/// copy shares them, and else the chunk is made anew.
fn put_last(chunks: &mut Chunks, alloc: Global, at: usize, value: Value) -> Result<(), NoMemory>
    requires at { at < length chunks.old }
    requires tokens { (x : Slots) → x ≡ slice_index_or chunks.old at x →
        tokens_in_chunk x ≡ x.values }
    requires room { (x : Slots) → x ≡ slice_index_or chunks.old at x → length x.values < ROOM }
    ensures ok { OnOk result ((x : Slots) → x ≡ slice_index_or chunks.old at x →
        Replaces chunks.old at (x.values ++ value ∷ []) chunks.new) }
    ensures err { OnErr result (chunks.new ≡ chunks.old) }
{
    let Some(value) = chunks.push(at, value)? else {
        return Ok(());
    };
    let chunk = chunks.at(at);
    let tokens = chunk.with_token(alloc, chunk.values().len(), value)?;
    put_one(chunks, alloc, at, tokens)
}

/// A chunk of these tokens comes in place of one.
fn put_one(
    chunks: &mut Chunks,
    alloc: Global,
    at: usize,
    tokens: Vec<Value>,
) -> Result<(), NoMemory>
    requires at { at < length chunks.old }
    requires some { 0 < length tokens.items }
    requires few { length tokens.items ≤ ROOM }
    ensures ok { OnOk result (Replaces chunks.old at tokens.items chunks.new) }
    ensures err { OnErr result (chunks.new ≡ chunks.old) }
{
    chunks.replace(alloc, at, tokens)
}

/// Two chunks of these tokens come in place of one.
fn put_two(
    chunks: &mut Chunks,
    alloc: Global,
    at: usize,
    tokens: Vec<Value>,
) -> Result<(), NoMemory>
    requires at { at < length chunks.old }
    requires many { ROOM < length tokens.items }
    requires few { length tokens.items ≤ ROOM + 1 }
    ensures ok { OnOk result (Replaces chunks.old at tokens.items chunks.new) }
    ensures err { OnErr result (chunks.new ≡ chunks.old) }
{
    let mut lower = tokens;
    let upper = lower.split_off(32)?;
    chunks.split(alloc, at, lower, upper)
}
