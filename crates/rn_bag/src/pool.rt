//! The lists of values that chunks have, found by their positions.
ghost use Rattle.std.specs.Prelude.{◌≡◌, ◌<◌, [], ◌∷◌, ◌++◌, length, slice_index_or, IfOk, IfSome, IfNone, OnOk, OnErr};
ghost use Rattle.rn_bag.specs.link.Chunks.{HasRoom};
ghost use Rattle.rn_bag.specs.link.Pools.{IsPushed};
ghost use Rattle.rn_bag.specs.link.Tags.{IsKept};

use crate::list::SharedList;
use crate::tag::Tag;
use crate::words;
use rn_items::{Items, NoMemory};
use rn_shared::Shared;
use rn_value::Value;
use std::alloc::Global;
use std::marker::Model;

/// A copy has fewer pointers of its own than this, after `settle` of the chunks.
const OWN: usize = 64;

/// How many pointers of its own a copy may have for few chunks, and one more for each `CHUNKS`.
const FEW_OWN: usize = 8;

/// For how many chunks a copy may have one more pointer of its own.
const CHUNKS: usize = 16;

/// So many lists aren't worth one pointer that all copies share.
const FEW: usize = 4;

/// Lists of values by their positions. All copies share the first ones behind one pointer, and have
/// a pointer of their own for each of the rest. A list is put at the end, and none goes alone.
#[derive(Drop)]
pub(crate) struct Pool {
    base: Option<Shared<Items<SharedList>>>,
    own: Vec<SharedList>,
}

impl Model for Pool {
    ghost use Rattle.std.specs.Prelude.{List};
    ghost use Rattle.std.specs.Coded.{coded_list};
    ghost use Rattle.rn_value.specs.declared.value.Value.{Value as Token};
    ghost use Rattle.rn_value.specs.contracts.value.Value as token;
    ghost use Rattle.rn_bag.specs.link.Pools.{lists_in};

    ghost Value = { List (List Token) };

    ghost coded = { coded_list (coded_list token.the_row.coded) };

    ghost view = { λ pool. lists_in pool.base pool.own.items };
}

impl Pool {
    /// The pool without lists. It takes no memory.
    pub(crate) fn new(alloc: Global) -> Pool
        ensures { result ≡ [] }
    {
        Pool {
            base: None,
            own: Vec::new(alloc),
        }
    }

    /// A pool of these lists, which all its copies share behind one pointer where they are many.
    pub(crate) fn of(alloc: Global, lists: Vec<SharedList>) -> Result<Pool, NoMemory>
        ensures { IfOk result (λ pool. pool ≡ lists.items) }
    {
        if lists.len() <= FEW {
            return Ok(Pool {
                base: None,
                own: lists,
            });
        }
        let base = Shared::new(alloc, Items::from_vec(lists))?;
        Ok(Pool {
            base: Some(base),
            own: Vec::new(alloc),
        })
    }

    /// The same lists, with room for one more.
    pub(crate) fn copy(&self) -> Result<Pool, NoMemory>
        ensures { IfOk result (λ pool. pool ≡ self.now) }
    {
        Ok(Pool {
            base: shared(&self.base)?,
            own: each_shared(*self.own.allocator(), self.own.as_slice())?,
        })
    }

    /// How many lists there are.
    fn len(&self) -> usize
        ensures { result ≡ length self.now }
    {
        match &self.base {
            None => self.own.len(),
            Some(lists) => lists.get().as_slice().len() + self.own.len(),
        }
    }

    /// The list at a position.
    pub(crate) fn get(&self, at: usize) -> &SharedList
        requires { at < length self.now }
        ensures { result.now ≡ slice_index_or self.now at [] }
    {
        match &self.base {
            None => &self.own[at],
            Some(lists) => {
                let lists = lists.get().as_slice();
                if at < lists.len() {
                    &lists[at]
                } else {
                    &self.own[at - lists.len()]
                }
            }
        }
    }

    /// These tokens become the list at the end. The answer is the tag of a chunk that has them, and
    /// says that no token stands before it.
    pub(crate) fn keep(&mut self, alloc: Global, tokens: Vec<Value>) -> Result<Tag, NoMemory>
        requires { HasRoom tokens.items }
        ensures ok { OnOk result (self.new ≡ self.old ++ tokens.items ∷ []) }
        ensures tag { IfOk result (λ tag. IsKept self.old tokens.items tag) }
        ensures err { OnErr result (self.new ≡ self.old) }
    {
        let at = self.len();
        let count = tokens.len();
        let word = words::all_below(count);
        let list = SharedList::new(alloc, tokens)?;
        self.own.push(list)?;
        Ok(Tag {
            word,
            count,
            before: 0,
            at,
            len: count,
        })
    }

    /// The value comes after those of the list at a position, in place, where no copy shares the
    /// list and it has so many values. Where it doesn't, the answer is the value.
    pub(crate) fn push(
        &mut self,
        at: usize,
        len: usize,
        value: Value,
    ) -> Result<Option<Value>, NoMemory>
        requires { at < length self.old }
        ensures pushed { IfOk result (λ left.
            IfNone left (IsPushed self.old at len value self.new)) }
        ensures left { IfOk result (λ left.
            IfSome left (λ v. (v ≡ value) × (self.new ≡ self.old))) }
        ensures err { OnErr result (self.new ≡ self.old) }
    {
        let shared = match &self.base {
            None => 0,
            Some(lists) => lists.get().as_slice().len(),
        };
        if at < shared {
            return Ok(Some(value));
        }
        push_to(&mut self.own, at - shared, len, value)
    }

    /// No list is left. It takes no memory.
    pub(crate) fn clear(&mut self)
        ensures { self.new ≡ [] }
    {
        self.base = None;
        self.own.clear();
    }

    /// Whether the pool is better made anew for so many chunks, since a copy takes many pointers of
    /// its own, or since most lists are of chunks that went.
    pub(crate) fn is_long(&self, chunks: usize) -> bool {
        let own = self.own.len();
        own >= OWN || own > FEW_OWN + chunks / CHUNKS || self.len() / 2 > chunks
    }
}

/// The value comes after those of the list of an index, where this is its one owner and it has so
/// many values. Where it doesn't, the answer is the value.
fn push_to(
    own: &mut Vec<SharedList>,
    index: usize,
    len: usize,
    value: Value,
) -> Result<Option<Value>, NoMemory>
    requires { index < length own.old.items }
    ensures pushed { IfOk result (λ left.
        IfNone left (IsPushed own.old.items index len value own.new.items)) }
    ensures left { IfOk result (λ left.
        IfSome left (λ v. (v ≡ value) × (own.new.items ≡ own.old.items))) }
    ensures err { OnErr result (own.new.items ≡ own.old.items) }
{
    let list = &mut own[index];
    if list.as_slice().len() != len {
        return Ok(Some(value));
    }
    list.push(value)
}

/// The same lists behind one more pointer.
fn shared(
    base: &Option<Shared<Items<SharedList>>>,
) -> Result<Option<Shared<Items<SharedList>>>, NoMemory>
    ensures { IfOk result (λ copy. copy ≡ base.now) }
{
    match base {
        None => Ok(None),
        Some(lists) => Ok(Some(lists.share()?)),
    }
}

/// The same lists behind one more pointer each, with room for one more list.
fn each_shared(alloc: Global, lists: &[SharedList]) -> Result<Vec<SharedList>, NoMemory>
    ensures { IfOk result (λ copy. copy.items ≡ lists.now) }
{
    let mut copy = Vec::with_capacity(alloc, lists.len() + 1)?;
    for list in lists {
        copy.push(list.share()?)?;
    }
    Ok(copy)
}
