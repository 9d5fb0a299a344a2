//! The numbers of names that are declared without fault, in the order of the text.
ghost use Rattle.std.specs.Prelude.{◌≡◌, ◌<◌, ◌^◌, [], ◌∷◌, ◌++◌, false, OnOk, IfOk, map, length};
ghost use Rattle.std.specs.List.{list_any};
ghost use Rattle.rn_declared.specs.Names.{same_name, names_faults};
ghost use Rattle.rn_declared.specs.Channels.{channels_faults};
ghost use Rattle.rn_numbered.specs.Numbered.{number_in};
ghost use Rattle.rn_numbered.specs.link.NumbersFound.{is_key, key_of, channel_by};

use indexmap::IndexSet;
use rn_declared::{NameTable, Named};
use rn_net::PChannel;
use rn_value::{NoMemory, Str};
use std::alloc::Global;
use std::marker::Model;

/// Names, which contracts see as their list. The number of a name is its index.
///
/// The set numbers them, and the table finds their numbers. It compares names in order, so that it
/// finds one among names with equal hashes as fast as among others.
#[derive(Drop)]
pub struct NameNumbers {
    names: IndexSet<String>,
    numbers: NameTable,
}

impl Model for NameNumbers {
    ghost use Rattle.std.specs.Prelude.{◌≡◌, List, ℕ, map, string_bytes};
    ghost use Rattle.rn_declared.specs.Names.{number_among};
    ghost use Rattle.rn_declared.specs.link.Tables.{found_in};

    ghost Value = { List (List ℕ) };

    ghost view = { λ names. map string_bytes names.names.keys };

    ghost invariant = { λ names. (name : List ℕ) →
        found_in names.numbers name ≡ number_among (map string_bytes names.names.keys) name };
}

impl NameNumbers {
    fn new(alloc: Global) -> NameNumbers
        ensures { result ≡ [] }
    {
        NameNumbers {
            names: IndexSet::new(alloc),
            numbers: NameTable::new(alloc),
        }
    }

    /// These names, and another at the end.
    fn with(self, alloc: Global, name: &Str) -> Result<NameNumbers, NoMemory>
        requires { list_any (λ declared. same_name declared name.now) self ≡ false }
        ensures { IfOk result (λ names. names ≡ self ++ name.now ∷ []) }
    {
        let NameNumbers {
            mut names,
            mut numbers,
        } = self;
        let number = names.len();
        names.insert(String::from_str(alloc, name.as_str())?)?;
        numbers.declare(alloc, name, number)?;
        Ok(NameNumbers { names, numbers })
    }

    /// The number of a name, and 0 where it isn't there.
    pub(crate) fn number(&self, name: &Str) -> u32
        requires { length self.now < 2 ^ 32 }
        ensures { result ≡ number_in self.now name.now }
    {
        match self.numbers.number(name) {
            Some(number) => number as u32,
            None => 0,
        }
    }
}

/// The names that are declared here.
pub fn names_of<T: Named>(alloc: Global, items: &[T]) -> Result<NameNumbers, NoMemory>
    requires { names_faults [] (map T.name_of items.now) ≡ [] }
    ensures { IfOk result (λ names. names ≡ map (λ item. (T.name_of item).text) items.now) }
{
    let mut names = NameNumbers::new(alloc);
    for item in items {
        names = names.with(alloc, &item.name().text)?;
    }
    Ok(names)
}

/// Channels by name and number of arguments, which contracts see as their list. The number of a
/// channel is its index.
#[derive(Drop)]
pub struct ChannelNumbers {
    channels: IndexSet<(String, usize)>,
}

impl Model for ChannelNumbers {
    ghost use Rattle.std.specs.Prelude.{List, ℕ, map, string_bytes};

    ghost Value = { List (List ℕ × ℕ) };

    ghost view = { λ names. map (λ key. (string_bytes key.0, key.1)) names.channels.keys };
}

impl ChannelNumbers {
    fn new(alloc: Global) -> ChannelNumbers
        ensures { result ≡ [] }
    {
        ChannelNumbers {
            channels: IndexSet::new(alloc),
        }
    }

    /// Puts a channel at the end, if it isn't there.
    fn put(&mut self, alloc: Global, name: &Str, count: usize) -> Result<(), NoMemory>
        ensures { OnOk result (list_any (is_key name.now count) self.old ≡ false →
            self.new ≡ self.old ++ (name.now, count) ∷ []) }
    {
        let name = String::from_str(alloc, name.as_str())?;
        self.channels.insert((name, count))?;
        Ok(())
    }

    /// The number of a channel, and 0 where it isn't there.
    pub(crate) fn number(&self, alloc: Global, name: &Str, count: usize) -> Result<u32, NoMemory>
        requires { length self.now < 2 ^ 32 }
        ensures { IfOk result (λ number. number ≡ channel_by self.now name.now count) }
    {
        let key = (String::from_str(alloc, name.as_str())?, count);
        match self.channels.get_index_of(&key) {
            Some(number) => Ok(number as u32),
            None => Ok(0),
        }
    }
}

/// The channels that are declared here.
pub fn channel_names_of(alloc: Global, channels: &[PChannel]) -> Result<ChannelNumbers, NoMemory>
    requires { channels_faults [] channels.now ≡ [] }
    ensures { IfOk result (λ names. names ≡ map key_of channels.now) }
{
    let mut names = ChannelNumbers::new(alloc);
    for channel in channels {
        names.put(alloc, &channel.name.text, channel.kinds.len())?;
    }
    Ok(names)
}
