//! Instances of which it is known that nothing starts in them. A bit for each lets a search pass
//! over 64 by one word. It is known of one table alone: after a change all that may reach a changed
//! instance has to be taken out, or a binding would be missed (`docs/SEARCH.md`, 'What is searched
//! again').
ghost use Rattle.std.specs.Prelude.{◌≡◌, ◌≢◌, ◌<◌, ◌≤◌, ◌⊎◌, ◌+◌, ◌*◌, ◌^◌, ℕ};
ghost use Rattle.rn_finder.specs.Idle.{IsIn};

use rn_bag::words;
use rn_items::NoMemory;
use std::alloc::Global;
use std::marker::Model;

/// Which instances are idle, as far as that is known: no enabled binding starts with one of them. It is
/// a bit for each instance.
///
/// It may be told to get no more: then each search goes through all starts.
#[derive(Drop)]
pub struct Idle {
    words: Vec<u64>,

    /// How many are in it.
    count: u32,

    /// How many a search passed over since it was asked last.
    passed: u64,
    grows: bool,
}

impl Model for Idle {
    ghost use Rattle.std.specs.Prelude.{List, ℕ};
    ghost use Rattle.std.specs.Coded.{coded_list, coded_ℕ};

    ghost Value = { List ℕ };

    ghost coded = { coded_list coded_ℕ };

    ghost view = { λ idle. idle.words.items };
}

// The number of a bit of a word, or the last number of 32 bits where it is greater.
fn number_at(word: usize, bit: usize) -> u32
    ensures most { result ≤ 64 * word + bit }
    ensures least { (n : ℕ) → n < 2 ^ 32 → n ≤ 64 * word + bit → n ≤ result }
{
    let number = word.saturating_mul(words::ROOM).saturating_add(bit);
    number.min(u32::MAX as usize) as u32
}

impl Idle {
    /// Of none it is known, and it gets none.
    pub fn new(alloc: Global) -> Idle
        ensures { (n : ℕ) → ¬ IsIn result n }
    {
        Idle {
            words: Vec::new(alloc),
            count: 0,
            passed: 0,
            grows: false,
        }
    }

    /// How many are in it.
    pub fn count(&self) -> u32 {
        self.count
    }

    /// How many searches passed over since this was asked last.
    pub fn take_passed(&mut self) -> u64
        ensures { self.new ≡ self.old }
    {
        let passed = self.passed;
        self.passed = 0;
        passed
    }

    /// Of none it is known any more. From now on it gets those that are searched in vain, or none.
    pub fn clear(&mut self, grows: bool)
        ensures { (n : ℕ) → ¬ IsIn self.new n }
    {
        self.words.clear();
        self.count = 0;
        self.grows = grows;
    }

    /// Something may start with one.
    pub fn remove(&mut self, number: u32)
        ensures { (n : ℕ) → IsIn self.new n → IsIn self.old n × (n ≢ number) }
    {
        let at = (number / 64) as usize;
        let bit = (number % 64) as usize;
        if at >= self.words.len() || !words::is_in(self.words[at], bit) {
            return;
        }
        self.words[at] = words::without_bit(self.words[at], bit);
        self.count = self.count.saturating_sub(1);
    }

    // There are so many words at least.
    fn lengthen(&mut self, count: usize) -> Result<(), NoMemory>
        ensures { (n : ℕ) → IsIn self.new n → IsIn self.old n }
    {
        while self.words.len() < count {
            self.words.push(0)?;
        }
        Ok(())
    }

    /// Nothing starts with one. Where there is no memory for that, it isn't known.
    pub(crate) fn add(&mut self, number: u32)
        ensures { (n : ℕ) → IsIn self.new n → IsIn self.old n ⊎ (n ≡ number) }
    {
        if !self.grows {
            return;
        }
        let at = (number / 64) as usize;
        if at >= self.words.len() && self.lengthen(at + 1).is_err() {
            return;
        }
        self.add_within(number);
    }

    /// The same, unless it is another.
    pub(crate) fn add_unless(&mut self, number: u32, other: u32)
        ensures { (n : ℕ) → IsIn self.new n →
            IsIn self.old n ⊎ ((n ≡ number) × (number ≢ other)) }
    {
        if number != other {
            self.add(number);
        }
    }

    // The same, where there is a word for it.
    fn add_within(&mut self, number: u32)
        ensures { (n : ℕ) → IsIn self.new n → IsIn self.old n ⊎ (n ≡ number) }
    {
        let at = (number / 64) as usize;
        let bit = (number % 64) as usize;
        if at >= self.words.len() || words::is_in(self.words[at], bit) {
            return;
        }
        self.words[at] = words::with_bit(self.words[at], bit);
        self.count = self.count.saturating_add(1);
    }

    /// So many were passed over.
    pub(crate) fn pass(&mut self, count: u32)
        ensures { self.new ≡ self.old }
    {
        self.passed = self.passed.saturating_add(count as u64);
    }

    /// A number from one on, such that all before it are idle.
    pub(crate) fn first_other(&self, from: u32) -> u32
        ensures later { from ≤ result }
        ensures passed { (n : ℕ) → from ≤ n → n < result → IsIn self.now n }
    {
        let mut bit = (from % 64) as usize;
        for at in (from / 64) as usize..self.words.len() {
            let other = words::first_absent_from(self.words[at], bit);
            if other < words::ROOM {
                return number_at(at, other);
            }
            bit = 0;
        }
        from.max(number_at(self.words.len(), 0))
    }
}
