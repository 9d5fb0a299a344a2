//! The stack of choices.

ghost use Rattle.std.specs.Prelude.{◌≡◌, [], ◌∷◌, OnOk, IfNone, MatchOption};

use crate::choice::Choice;
use rn_items::NoMemory;
use std::alloc::Global;
use std::marker::Model;

/// The choices of a search.
pub type Choices<S> = Stack<Choice<S>>;

/// A stack, seen as the list of what is on it, newest first.
#[derive(Debug, Drop)]
pub struct Stack<T> {
    items: Vec<T>,

    /// What searches with it have cost.
    spent: u64,

    /// How far the choice after the first begins behind where it would.
    lag: u64,
}

impl<T> Model for Stack<T> {
    ghost use Rattle.std.specs.Prelude.{List, reverse};
    ghost use Rattle.std.specs.Coded.{coded_list};

    ghost Value = { List T };

    ghost coded = { coded_list T.code };

    ghost view = { λ s. reverse s.items.items };
}

impl<T: Drop> Stack<T> {
    /// The empty stack, which takes no memory.
    pub fn new(alloc: Global) -> Stack<T>
        ensures { result ≡ [] }
    {
        Stack {
            items: Vec::new(alloc),
            spent: 0,
            lag: 0,
        }
    }

    /// What searches with it have cost: their steps, and the alternatives that they tried.
    pub fn spent(&self) -> u64 {
        self.spent
    }

    /// So much more was spent.
    pub fn spend(&mut self, more: u64)
        ensures { self.new ≡ self.old }
    {
        self.spent = self.spent.wrapping_add(more);
    }

    /// How far the choice after the first begins behind where it would.
    pub fn lag(&self) -> u64 {
        self.lag
    }

    /// Searches begin so far behind from now on.
    pub fn set_lag(&mut self, lag: u64)
        ensures { self.new ≡ self.old }
    {
        self.lag = lag;
    }

    /// What was pushed last.
    pub fn newest(&self) -> Option<&T>
        ensures { IfNone result (self.now ≡ []) }
    {
        self.items.last()
    }

    /// Takes all away, and keeps the room.
    pub fn clear(&mut self)
        ensures { self.new ≡ [] }
    {
        self.items.clear();
    }

    pub fn push(&mut self, item: T) -> Result<(), NoMemory>
        ensures { OnOk result (self.new ≡ item ∷ self.old) }
    {
        self.items.push(item)?;
        Ok(())
    }

    /// What was pushed before all else that is there.
    pub fn oldest(&self) -> Option<&T>
        ensures { IfNone result (self.now ≡ []) }
    {
        self.items.first()
    }

    /// Takes the newest away.
    pub fn pop(&mut self) -> Option<T>
        ensures { MatchOption result ((self.old ≡ []) × (self.new ≡ [])) (λ item. self.old
            ≡ item ∷ self.new) }
    {
        self.items.pop()
    }
}
