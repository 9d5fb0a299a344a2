//! Values in a row that have several owners. The one who owns them alone can put more at their end.
ghost use Rattle.std.specs.Prelude.{◌≡◌, [], ◌∷◌, ◌++◌, IfOk, IfSome, IfNone, OnErr};

use rn_items::NoMemory;
use rn_value::Value;
use std::alloc::{AllocError, Global};
use std::marker::Model;
use std::sync::Arc;

/// A list of values with several owners, which contracts see as the list.
#[derive(Drop)]
pub(crate) struct SharedList {
    owner: Arc<Vec<Value>>,
}

impl Model for SharedList {
    ghost use Rattle.std.specs.Prelude.{List};
    ghost use Rattle.std.specs.Coded.{coded_list};
    ghost use Rattle.rn_value.specs.declared.value.Value.{Value as Token};
    ghost use Rattle.rn_value.specs.contracts.value.Value as token;

    ghost Value = { List Token };

    ghost coded = { coded_list token.the_row.coded };

    ghost view = { λ list. list.owner.value.items };
}

impl SharedList {
    /// The list of a vector's values, with one owner.
    pub(crate) fn new(alloc: Global, values: Vec<Value>) -> Result<SharedList, NoMemory>
        ensures { IfOk result (λ list. list ≡ values.items) }
    {
        Ok(SharedList {
            owner: Arc::new(alloc, values)?,
        })
    }

    /// One more owner of the list. It takes no memory; the error says that their count is full,
    /// which is 2^63 - 1.
    pub(crate) fn share(&self) -> Result<SharedList, AllocError>
        ensures { IfOk result (λ list. list ≡ self.now) }
    {
        Ok(SharedList {
            owner: Arc::try_clone(&self.owner)?,
        })
    }

    /// The values.
    pub(crate) fn as_slice(&self) -> &[Value]
        ensures { result.now ≡ self.now }
    {
        self.owner.as_slice()
    }

    /// Puts a value after the others, in place, where this is their one owner. Where it isn't, the
    /// answer is the value.
    pub(crate) fn push(&mut self, value: Value) -> Result<Option<Value>, NoMemory>
        ensures pushed { IfOk result (λ left. IfNone left (self.new ≡ self.old ++ value ∷ [])) }
        ensures left { IfOk result (λ left.
            IfSome left (λ v. (v ≡ value) × (self.new ≡ self.old))) }
        ensures err { OnErr result (self.new ≡ self.old) }
    {
        let Some(own) = Arc::get_mut(&mut self.owner) else {
            return Ok(Some(value));
        };
        own.push(value)?;
        Ok(None)
    }
}
