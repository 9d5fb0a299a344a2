//! Declarations of channels: what is broken in them is reported, and each gets its number.
ghost use Rattle.std.specs.Prelude.{◌≡◌, ◌++◌, ◌&&◌, ℕ, [], List, OnOk, IfOk, nat_eq, map, is_some, is_none, length, slice_get, option_copied};
ghost use Rattle.std.specs.Option.{option_and_then};
ghost use Rattle.rn_declared.specs.Faults.{first_from, past_limit};
ghost use Rattle.rn_model.specs.Limits.{most_channels};
ghost use Rattle.rn_declared.specs.Patterns.{pattern_of};
ghost use Rattle.rn_declared.specs.Names.{same_name};
ghost use Rattle.rn_declared.specs.Channels.{same_channel, channel_from, channels_faults};
ghost use Rattle.rn_declared.specs.link.Tables.{or_number};
ghost use Rattle.rn_declared.specs.link.Tables.{channel_in, number_in_tables, channel_told};

use crate::fault::Rule;
use crate::first::First;
use crate::kinds::see_kinds;
use crate::located::tell_past;
use crate::pattern::{Pattern, Patterns, patterns_of};
use crate::table::NameTable;
use rn_items::Items;
use rn_model::limits::{LONGEST_NAME, MOST_CHANNELS};
use rn_net::PChannel;
use rn_value::{NoMemory, Str};
use std::alloc::Global;
use std::collections::BTreeMap;

/// The channels, by their number of arguments and their name, with the patterns of the arguments.
#[derive(Drop)]
pub struct DeclaredChannels {
    pub tables: BTreeMap<usize, NameTable>,
    pub patterns: Items<Patterns>,
}

impl DeclaredChannels {
    /// The patterns of the arguments of a channel.
    pub fn patterns(&self, name: &Str, count: usize) -> Option<&[Pattern]>
        ensures { option_copied result ≡ channel_in self.now name.now count }
    {
        match self.tables.get(&count) {
            Some(table) => match table.number(name) {
                Some(number) => match self.patterns.get(number) {
                    Some(patterns) => Some(patterns.as_slice()),
                    None => None,
                },
                None => None,
            },
            None => None,
        }
    }
}

/// Declares a name with so many arguments under a number, and says whether it is new.
fn declare_in(
    alloc: Global,
    name: &Str,
    count: usize,
    number: usize,
    tables: &mut BTreeMap<usize, NameTable>,
) -> Result<bool, NoMemory>
    ensures new { IfOk result (λ new. new ≡ is_none (number_in_tables tables.old name.now count)) }
    ensures found { OnOk result ((other : List ℕ) (args : ℕ) →
        number_in_tables tables.new other args ≡ or_number (number_in_tables tables.old other args)
        (same_name name.now other && nat_eq count args) number) }
{
    let mut table = match tables.remove(&count) {
        Some(table) => table,
        None => NameTable::new(alloc),
    };
    let new = table.declare(alloc, name, number)?;
    tables.insert(count, table)?;
    Ok(new)
}

/// Declares a channel under a number: its name is short and new, and its kinds are good.
fn declare(
    alloc: Global,
    channel: &PChannel,
    number: usize,
    tables: &mut BTreeMap<usize, NameTable>,
    first: &mut First,
) -> Result<(), NoMemory>
    ensures told { OnOk result (first.new.fault ≡ first_from first.old.fault
        (channel_told (is_some (number_in_tables tables.old channel.now.name.text
        (length channel.now.kinds))) channel.now)) }
    ensures found { OnOk result ((other : List ℕ) (args : ℕ) →
        number_in_tables tables.new other args ≡ or_number (number_in_tables tables.old other args)
        (same_channel channel.now other args) number) }
{
    let length = channel.name.text.as_str().len();
    first.tell_if(length > LONGEST_NAME, Rule::Limit, channel.name.spot);
    let count = channel.kinds.len();
    let new = declare_in(alloc, &channel.name.text, count, number, tables)?;
    first.tell_if(!new, Rule::Once, channel.name.spot);
    see_kinds(channel.kinds.as_slice(), first);
    Ok(())
}

/// The channels that are declared here, each with the number of its first declaration. What is
/// broken in the declarations is reported.
pub fn declare_channels(
    alloc: Global,
    channels: &[PChannel],
    first: &mut First,
) -> Result<DeclaredChannels, NoMemory>
    ensures told { OnOk result (first.new.fault ≡ first_from first.old.fault
        (channels_faults [] channels.now
        ++ past_limit most_channels (map (λ c. c.name.spot) channels.now))) }
    ensures found { IfOk result (λ made. (name : List ℕ) (count : ℕ) → channel_in made name count
        ≡ option_and_then (slice_get (map (λ c. map pattern_of c.kinds) channels.now))
        (channel_from 0 channels.now name count)) }
{
    let mut tables = BTreeMap::new(alloc);
    let mut patterns = Items::new(alloc);
    for i in 0..channels.len() {
        let channel = &channels[i];
        declare(alloc, channel, i, &mut tables, first)?;
        patterns.push(patterns_of(alloc, channel.kinds.as_slice())?)?;
    }
    tell_past(channels, MOST_CHANNELS, first);
    Ok(DeclaredChannels { tables, patterns })
}
