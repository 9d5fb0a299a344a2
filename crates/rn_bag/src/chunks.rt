//! The chunks of a bag, which contracts see as a list of chunks.
ghost use Rattle.std.specs.Prelude.{◌≡◌, ◌+◌, ◌*◌, ◌^◌, ◌<◌, ◌≤◌, [], ◌∷◌, ◌++◌, length, take, drop, suc, set, slice_index_or as get_or, IfOk, IfSome, IfNone, OnOk, OnErr};
ghost use Rattle.rn_bag.specs.link.Chunks.{Slots, HasRoom, IsChunk, tokens_in_chunk};
ghost use Rattle.rn_bag.specs.link.Tags.{IsFull};

use crate::chunk::Chunk;
use crate::pool::Pool;
use crate::tag::Tag;
use crate::words::{self, ROOM};
use rn_items::NoMemory;
use rn_value::Value;
use std::alloc::Global;
use std::marker::Model;

/// Chunks in their order. A copy has tags of its own, which it copies in one piece, and shares the
/// pool in which they find their values. A chunk that is made anew has its values at the end of the
/// pool, and those that it had before stay there until the pool is made anew.
#[derive(Drop)]
pub(crate) struct Chunks {
    tags: Vec<Tag>,
    pool: Pool,
}

impl Model for Chunks {
    ghost use Rattle.std.specs.Prelude.{List};
    ghost use Rattle.std.specs.Coded.{coded_list};
    ghost use Rattle.rn_bag.specs.link.Chunks.{Slots, slots_code};
    ghost use Rattle.rn_bag.specs.link.Tags.{chunks_of, AreTags};

    ghost Value = { List Slots };

    ghost coded = { coded_list slots_code };

    ghost view = { λ chunks. chunks_of chunks.pool chunks.tags.items };

    ghost invariant = { λ chunks. AreTags chunks.pool chunks.tags.items };
}

impl Chunks {
    /// No chunks. It takes no memory.
    pub(crate) fn new(alloc: Global) -> Chunks
        ensures { result ≡ [] }
    {
        Chunks {
            tags: Vec::new(alloc),
            pool: Pool::new(alloc),
        }
    }

    /// The same chunks, which share their values with the first, with room for one more. It takes
    /// no memory where there are none.
    pub(crate) fn copy(&self) -> Result<Chunks, NoMemory>
        ensures { IfOk result (λ chunks. chunks ≡ self.now) }
    {
        let alloc = *self.tags.allocator();
        if self.tags.len() == 0 {
            return Ok(Chunks::new(alloc));
        }
        let mut tags = Vec::with_capacity(alloc, self.tags.len() + 1)?;
        tags.extend_from_slice(self.tags.as_slice())?;
        Ok(Chunks {
            tags,
            pool: self.pool.copy()?,
        })
    }

    /// The allocator that the chunks keep.
    pub(crate) fn allocator(&self) -> Global {
        *self.tags.allocator()
    }

    /// How many chunks there are. Each takes 40 bytes, so their tokens can be counted.
    pub(crate) fn len(&self) -> usize
        ensures count { result ≡ length self.now }
        ensures small { ROOM * length self.now < 2 ^ 64 }
    {
        self.tags.as_slice().len()
    }

    /// The chunk of an index.
    pub(crate) fn at(&self, index: usize) -> Chunk<'_>
        requires { index < length self.now }
        ensures chunk { result ≡ get_or self.now index result }
        ensures small { ROOM * length self.now < 2 ^ 64 }
    {
        let tag = self.tags.as_slice()[index];
        Chunk::new(&self.pool.get(tag.at).as_slice()[..tag.len], tag)
    }

    /// How many tokens the chunk of an index has.
    pub(crate) fn count(&self, index: usize) -> usize
        requires { index < length self.now }
        ensures count { (x : Slots) → x ≡ get_or self.now index x → result ≡ length (tokens_in_chunk x) }
        ensures bound { result ≤ ROOM }
        ensures small { ROOM * length self.now < 2 ^ 64 }
    {
        self.tags.as_slice()[index].count
    }

    /// How many tokens the chunk of an index says stand before it.
    pub(crate) fn before(&self, index: usize) -> usize
        requires { index < length self.now }
        ensures { (x : Slots) → x ≡ get_or self.now index x → result ≡ x.before }
    {
        self.tags[index].before
    }

    /// The chunk of an index says from now on that so many tokens stand before it.
    pub(crate) fn set_before(&mut self, index: usize, before: usize)
        requires { index < length self.old }
        ensures chunk { (x : Slots) → x ≡ get_or self.old index x →
            self.new ≡ set self.old index (record {
              values = x.values;
              there = x.there;
              before = before;
            }) }
        ensures size { length self.new ≡ length self.old }
    {
        self.tags[index].before = before;
    }

    /// The slots of the chunk of an index that hold a token are from now on those of a set, and so
    /// many.
    pub(crate) fn set_there(&mut self, index: usize, there: u64, count: usize)
        requires inside { index < length self.old }
        requires counted { (x : Slots) → x ≡ get_or self.old index x →
            IsChunk x.values there count }
        ensures { (x : Slots) → x ≡ get_or self.old index x →
            self.new ≡ set self.old index (record {
              values = x.values;
              there = there;
              before = x.before;
            }) }
    {
        let tag = &mut self.tags[index];
        tag.word = there;
        tag.count = count;
    }

    /// The chunk of an index goes, and all that is kept goes with the last one. It takes no memory.
    pub(crate) fn remove(&mut self, index: usize)
        requires { index < length self.old }
        ensures { self.new ≡ take index self.old ++ drop (suc index) self.old }
    {
        let _gone = self.tags.remove(index);
        if self.tags.len() == 0 {
            self.pool.clear();
        }
    }

    /// A chunk of these tokens becomes the first.
    pub(crate) fn begin(&mut self, alloc: Global, tokens: Vec<Value>) -> Result<(), NoMemory>
        requires none { self.old ≡ [] }
        requires room { HasRoom tokens.items }
        ensures ok { OnOk result ((y : Slots) × IsFull tokens.items y × (self.new ≡ y ∷ [])) }
        ensures err { OnErr result (self.new ≡ self.old) }
    {
        let tag = self.pool.keep(alloc, tokens)?;
        self.tags.push(tag)?;
        Ok(())
    }

    /// A chunk of these tokens comes in place of the one of an index.
    pub(crate) fn replace(
        &mut self,
        alloc: Global,
        index: usize,
        tokens: Vec<Value>,
    ) -> Result<(), NoMemory>
        requires inside { index < length self.old }
        requires room { HasRoom tokens.items }
        ensures ok { OnOk result ((y : Slots) × IsFull tokens.items y
            × (self.new ≡ set self.old index y)) }
        ensures err { OnErr result (self.new ≡ self.old) }
    {
        self.settle(alloc)?;
        let tag = self.pool.keep(alloc, tokens)?;
        self.tags[index] = tag;
        Ok(())
    }

    /// The value comes after those of the chunk of an index, which are all tokens, in place where
    /// no copy shares them. Where one does, the answer is the value.
    pub(crate) fn push(&mut self, index: usize, value: Value) -> Result<Option<Value>, NoMemory>
        requires inside { index < length self.old }
        requires tokens { (x : Slots) → x ≡ get_or self.old index x → tokens_in_chunk x ≡ x.values }
        requires room { (x : Slots) → x ≡ get_or self.old index x → length x.values < ROOM }
        ensures pushed { IfOk result (λ left. IfNone left ((x : Slots) →
            x ≡ get_or self.old index x → (y : Slots) × IsFull (x.values ++ value ∷ []) y
            × (self.new ≡ set self.old index y))) }
        ensures left { IfOk result (λ left.
            IfSome left (λ v. (v ≡ value) × (self.new ≡ self.old))) }
        ensures err { OnErr result (self.new ≡ self.old) }
    {
        let tag = self.tags[index];
        if let Some(value) = self.pool.push(tag.at, tag.len, value)? {
            return Ok(Some(value));
        }
        let len = tag.len + 1;
        self.tags[index] = Tag {
            word: words::all_below(len),
            count: len,
            before: 0,
            at: tag.at,
            len,
        };
        Ok(None)
    }

    /// A chunk of these tokens comes after the one of an index.
    pub(crate) fn insert_after(
        &mut self,
        alloc: Global,
        index: usize,
        tokens: Vec<Value>,
    ) -> Result<(), NoMemory>
        requires inside { index < length self.old }
        requires room { HasRoom tokens.items }
        ensures ok { OnOk result ((y : Slots) × IsFull tokens.items y
            × (self.new ≡ take (index + 1) self.old ++ y ∷ drop (index + 1) self.old)) }
        ensures err { OnErr result (self.new ≡ self.old) }
    {
        self.settle(alloc)?;
        let tag = self.pool.keep(alloc, tokens)?;
        self.tags.insert(index + 1, tag)?;
        Ok(())
    }

    /// Two chunks of these tokens come in place of the one of an index.
    pub(crate) fn split(
        &mut self,
        alloc: Global,
        index: usize,
        lower: Vec<Value>,
        upper: Vec<Value>,
    ) -> Result<(), NoMemory>
        requires inside { index < length self.old }
        requires lower { HasRoom lower.items }
        requires upper { HasRoom upper.items }
        ensures ok { OnOk result ((y z : Slots) × IsFull lower.items y × IsFull upper.items z
            × (self.new ≡ set (take (index + 1) self.old ++ z ∷ drop (index + 1) self.old)
            index y)) }
        ensures err { OnErr result (self.new ≡ self.old) }
    {
        self.settle(alloc)?;
        let first = self.pool.keep(alloc, lower)?;
        let second = self.pool.keep(alloc, upper)?;
        self.tags.insert(index + 1, second)?;
        self.tags[index] = first;
        Ok(())
    }

    /// The pool is made anew where it is long.
    fn settle(&mut self, alloc: Global) -> Result<(), NoMemory>
        ensures { self.new ≡ self.old }
    {
        if self.pool.is_long(self.tags.len()) {
            let settled = self.settled(alloc)?;
            *self = settled;
        }
        Ok(())
    }

    /// The same chunks over a pool of their values alone.
    fn settled(&self, alloc: Global) -> Result<Chunks, NoMemory>
        ensures { IfOk result (λ chunks. chunks ≡ self.now) }
    {
        let mut lists = Vec::with_capacity(alloc, self.tags.len() + 1)?;
        let mut tags = Vec::with_capacity(alloc, self.tags.len() + 1)?;
        for i in 0..self.tags.len() {
            let tag = self.tags[i];
            lists.push(self.pool.get(tag.at).share()?)?;
            tags.push(Tag { at: i, ..tag })?;
        }
        let pool = Pool::of(alloc, lists)?;
        Ok(Chunks { tags, pool })
    }
}
