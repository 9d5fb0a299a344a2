//! A box that contracts see as its content.
ghost use Rattle.std.specs.Prelude.{◌≡◌, IfOk, IfErr};

use std::alloc::{AllocFailed, Global};
use std::marker::Model;
use std::ops::Deref;

/// A `Box` that contracts see as its content.
///
/// Two of them are equal in a contract where their contents are, wherever these lie in memory.
#[derive(Debug, Drop)]
pub struct Boxed<T> {
    content: Box<T>,
}

impl<T> Model for Boxed<T> {
    ghost Value = { T };

    ghost coded = { T.code };

    ghost view = { λ boxed. boxed.content.value };
}

impl<T> Boxed<T> {
    /// Puts a value into a box. The error gives it back.
    pub fn new(alloc: Global, value: T) -> Result<Boxed<T>, AllocFailed<T>>
        ensures ok { IfOk result (λ boxed. boxed ≡ value) }
        ensures value_returned { IfErr result (λ failed. failed.value ≡ value) }
    {
        Ok(Boxed {
            content: Box::new(alloc, value)?,
        })
    }

    /// The same content. It takes no memory.
    pub fn from_box(content: Box<T>) -> Boxed<T>
        ensures { result ≡ content.value }
    {
        Boxed { content }
    }

    /// The content, out of its box.
    pub fn into_inner(self) -> T
        ensures { result ≡ self }
    {
        let Boxed { content } = self;
        Box::into_inner(content)
    }

    /// The content, in its box.
    pub fn get(&self) -> &T
        ensures { result.now ≡ self.now }
    {
        &self.content
    }
}

impl<T> Deref for Boxed<T> {
    type Target = T;

    ghost deref_gives = { λ boxed content. content ≡ boxed };

    fn deref(&self) -> &T {
        &self.content
    }
}

impl<T: PartialEq> PartialEq for Boxed<T> {
    ghost eq = { T.eq };

    ghost laws = { T.laws };

    fn eq(&self, other: &Self) -> bool {
        self.get() == other.get()
    }
}

impl<T: Eq> Eq for Boxed<T> {
    ghost laws = { T.Eq.laws };
}
