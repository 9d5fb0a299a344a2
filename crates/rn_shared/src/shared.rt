//! A value with several owners that contracts see as the value.
ghost use Rattle.std.specs.Prelude.{◌≡◌, IfOk, IfErr};

use std::alloc::{AllocError, AllocFailed, Global};
use std::cmp::Ordering;
use std::marker::Model;
use std::ops::Deref;
use std::sync::Arc;

/// A value with several owners, which contracts see as the value.
///
/// Each handle lends the value, and the last one that goes takes it along. Two of them are equal in
/// a contract where their values are, whether they are handles of one value or of two.
#[derive(Debug, Drop)]
pub struct Shared<T> {
    owner: Arc<T>,
}

impl<T> Model for Shared<T> {
    ghost Value = { T };

    ghost coded = { T.code };

    ghost view = { λ shared. shared.owner.value };
}

impl<T> Shared<T> {
    /// The first handle of a value. The error gives the value back.
    pub fn new(alloc: Global, value: T) -> Result<Shared<T>, AllocFailed<T>>
        ensures ok { IfOk result (λ shared. shared ≡ value) }
        ensures value_returned { IfErr result (λ failed. failed.value ≡ value) }
    {
        Ok(Shared {
            owner: Arc::new(alloc, value)?,
        })
    }

    /// One more handle of the value. It takes no memory; the error says that their count is full,
    /// which is 2^63 - 1.
    pub fn share(&self) -> Result<Shared<T>, AllocError>
        ensures { IfOk result (λ shared. shared ≡ self.now) }
    {
        Ok(Shared {
            owner: Arc::try_clone(&self.owner)?,
        })
    }

    /// The value, where this was its one handle. The error is the handle.
    pub fn try_unwrap(self) -> Result<T, Shared<T>>
        ensures alone { IfOk result (λ value. value ≡ self) }
        ensures shared { IfErr result (λ shared. shared ≡ self) }
    {
        let Shared { owner } = self;
        match Arc::try_unwrap(owner) {
            Ok(value) => Ok(value),
            Err(owner) => Err(Shared { owner }),
        }
    }

    /// The value.
    pub fn get(&self) -> &T
        ensures { result.now ≡ self.now }
    {
        &self.owner
    }
}

impl<T> Deref for Shared<T> {
    type Target = T;

    ghost deref_gives = { λ shared value. value ≡ shared };

    fn deref(&self) -> &T {
        &self.owner
    }
}

impl<T: PartialEq> PartialEq for Shared<T> {
    ghost eq = { T.eq };

    ghost laws = { T.laws };

    fn eq(&self, other: &Self) -> bool {
        self.get() == other.get()
    }
}

impl<T: Eq> Eq for Shared<T> {
    ghost laws = { T.Eq.laws };
}

impl<T: PartialOrd> PartialOrd for Shared<T> {
    ghost partial_cmp = { T.partial_cmp };

    ghost laws = { T.PartialOrd.laws };

    fn partial_cmp(&self, other: &Self) -> Option<Ordering> {
        self.get().partial_cmp(other.get())
    }
}

impl<T: Ord> Ord for Shared<T> {
    ghost cmp = { T.cmp };

    ghost total = { T.total };

    ghost matches_partial_cmp = { T.matches_partial_cmp };

    ghost matches_eq = { T.matches_eq };

    fn cmp(&self, other: &Self) -> Ordering {
        self.get().cmp(other.get())
    }
}
