//! Keys in the order in which they came, each chained to the one before it in its bucket, so that
//! the last of a key is found without going through all.
ghost use Rattle.std.specs.Prelude.{ℕ, ◌≡◌, ◌∷◌, ◌++◌, ◌<◌, ◌≤◌, ◌-◌, [], length, take, get_or};
ghost use Rattle.std.specs.Prelude.{IfOk, OnErr, OnOk};
ghost use Rattle.rn_chains.specs.link.Chains.{AreChained, AreLinked, InBucket, IsUpToLast};

use rn_items::NoMemory;
use std::alloc::Global;
use std::marker::Model;

/// How keys are chained, each to the one before it in its bucket.
#[derive(Drop)]
struct Links {
    /// For each key, how many keys there are up to the last before it that is in its bucket.
    befores: Vec<usize>,

    /// For each bucket, how many keys there are up to the last that is in it.
    buckets: Vec<usize>,
}

/// Keys in the order in which they came.
#[derive(Drop)]
pub struct Chains {
    keys: Vec<usize>,
    links: Links,
}

impl Model for Chains {
    ghost use Rattle.std.specs.Prelude.{ℕ, List};
    ghost use Rattle.rn_chains.specs.link.Chains.{AreChained};

    ghost Value = { List ℕ };

    ghost view = { λ c. c.keys.items };

    ghost invariant = { λ c. AreChained c.keys.items c.links.befores.items c.links.buckets.items };
}

/// Goes back to the last key that is this one, by those of its bucket.
fn down(keys: &[usize], befores: &[usize], key: usize, from: usize) -> usize
    requires within { from ≤ length keys.now }
    requires each { length befores.now ≡ length keys.now }
    requires back { (i : ℕ) → i < length keys.now → get_or befores.now i 0 ≤ i }
    ensures { (buckets n : ℕ) → n ≤ length keys.now → AreLinked buckets keys.now befores.now →
        IsUpToLast (InBucket buckets key) keys.now n from →
        IsUpToLast (λ k. k ≡ key) keys.now n result }
{
    let mut at = from;
    while at > 0 {
        if keys[at - 1] == key {
            return at;
        }
        at = befores[at - 1];
    }
    0
}

impl Links {
    /// Chains a key that comes behind others.
    fn link(&mut self, keys: &[usize], key: usize) -> Result<(), NoMemory>
        requires chained { AreChained keys.now self.old.befores.items self.old.buckets.items }
        requires room { length keys.now < length self.old.buckets.items }
        ensures chained { OnOk result (AreChained (keys.now ++ key ∷ []) self.new.befores.items
            self.new.buckets.items) }
        ensures wide { length self.new.buckets.items ≡ length self.old.buckets.items }
        ensures err { OnErr result (AreChained keys.now self.new.befores.items
            self.new.buckets.items) }
    {
        let bucket = key % self.buckets.len();
        self.befores.push(self.buckets[bucket])?;
        self.buckets[bucket] = keys.len() + 1;
        Ok(())
    }
}

/// Chains keys in so many buckets.
fn spread(alloc: Global, keys: &[usize], wide: usize) -> Result<Links, NoMemory>
    requires { length keys.now ≤ wide }
    ensures chained { IfOk result
        (λ links. AreChained keys.now links.befores.items links.buckets.items) }
    ensures wide { IfOk result (λ links. length links.buckets.items ≡ wide) }
{
    let mut links = Links {
        befores: Vec::with_capacity(alloc, wide)?,
        buckets: vec![in alloc; 0; wide]?,
    };
    for i in 0..keys.len() {
        links.link(&keys[..i], keys[i])?;
    }
    Ok(links)
}

/// Has a bucket for one key more.
fn widen(alloc: Global, keys: &[usize], links: &mut Links) -> Result<(), NoMemory>
    requires { AreChained keys.now links.old.befores.items links.old.buckets.items }
    ensures chained { AreChained keys.now links.new.befores.items links.new.buckets.items }
    ensures room { OnOk result (length keys.now < length links.new.buckets.items) }
{
    if keys.len() == links.buckets.len() {
        *links = spread(alloc, keys, 2 * keys.len() + 1)?;
    }
    Ok(())
}

impl Chains {
    /// No keys, and no memory is taken.
    pub fn new(alloc: Global) -> Chains
        ensures { result ≡ [] }
    {
        Chains {
            keys: Vec::new(alloc),
            links: Links {
                befores: Vec::new(alloc),
                buckets: Vec::new(alloc),
            },
        }
    }

    /// No keys, with room for so many.
    pub fn with_room(alloc: Global, keys: usize) -> Result<Chains, NoMemory>
        ensures { IfOk result (λ chains. chains ≡ []) }
    {
        Ok(Chains {
            keys: Vec::with_capacity(alloc, keys)?,
            links: spread(alloc, &[], keys)?,
        })
    }

    /// How many keys there are.
    pub fn len(&self) -> usize
        ensures { result ≡ length self.now }
    {
        self.keys.len()
    }

    /// How many keys there are up to the last that is this one, or 0.
    pub fn last(&self, key: usize) -> usize
        ensures { IsUpToLast (λ k. k ≡ key) self.now (length self.now) result }
    {
        let buckets = self.links.buckets.as_slice();
        if buckets.is_empty() {
            return 0;
        }
        let from = buckets[key % buckets.len()];
        down(
            self.keys.as_slice(),
            self.links.befores.as_slice(),
            key,
            from,
        )
    }

    /// How many keys there are up to the last before the one at an index that is the same, or 0.
    pub fn before(&self, index: usize) -> usize
        requires { index < length self.now }
        ensures { IsUpToLast (λ k. k ≡ get_or self.now index 0) self.now index result }
    {
        let keys = self.keys.as_slice();
        let befores = self.links.befores.as_slice();
        down(keys, befores, keys[index], befores[index])
    }

    /// One more key.
    pub fn push(&mut self, alloc: Global, key: usize) -> Result<(), NoMemory>
        ensures pushed { OnOk result (self.new ≡ self.old ++ key ∷ []) }
        ensures err { OnErr result (self.new ≡ self.old) }
    {
        self.keys.reserve(1)?;
        widen(alloc, self.keys.as_slice(), &mut self.links)?;
        self.links.link(self.keys.as_slice(), key)?;
        self.keys.push(key)?;
        Ok(())
    }

    /// Takes back the last key.
    fn pop(&mut self)
        ensures { self.new ≡ take (length self.old - 1) self.old }
    {
        let Some(key) = self.keys.pop() else {
            return;
        };
        let Some(before) = self.links.befores.pop() else {
            return;
        };
        let bucket = key % self.links.buckets.len();
        self.links.buckets[bucket] = before;
    }

    /// Takes back all keys but the first `to`.
    pub fn truncate(&mut self, to: usize)
        ensures { self.new ≡ take to self.old }
    {
        while self.keys.len() > to {
            self.pop();
        }
    }
}
