//! What is known by name in a net, and where an inscription stands in its transition.
ghost use Rattle.std.specs.Prelude.{◌≡◌, IfOk, option_copied};
ghost use Rattle.rn_declared.specs.link.Tables.{pattern_in, capped_in, channel_in};
ghost use Rattle.rn_rules.specs.link.Numbers.{declared_of, places_of, channels_of};

use rn_declared::{
    Declared, DeclaredChannels, DeclaredPlaces, KindTable, NameTable, Numbered, Numbers, Patterns,
    number_all,
};
use rn_items::Items;
use rn_value::{NoMemory, Str};
use std::alloc::Global;
use std::collections::BTreeMap;

/// What was declared with a kind by name, with numbers at the patterns.
#[derive(Drop)]
pub(crate) struct KindedNames<N: Numbers> {
    pub(crate) table: NameTable,
    pub(crate) patterns: Items<Numbered<N>>,
}

impl<N: Numbers> KindedNames<N> {
    /// The pattern of the kind with which a name was declared first.
    pub(crate) fn pattern(&self, name: &Str) -> Option<&Numbered<N>>
        ensures { option_copied result ≡ pattern_in (declared_of self.now) name.now }
    {
        match self.table.number(name) {
            Some(number) => self.patterns.get(number),
            None => None,
        }
    }
}

/// The same names, with numbers at their patterns.
pub(crate) fn names_of<N: Numbers>(
    alloc: Global,
    declared: Declared,
    kinds: &KindTable,
) -> Result<KindedNames<N>, NoMemory>
    requires { kinds.now.patterns ≡ N.patterns }
    ensures { IfOk result (λ names. declared_of names ≡ declared) }
{
    let Declared { table, patterns } = declared;
    let patterns = number_all(alloc, patterns.as_slice(), kinds)?;
    Ok(KindedNames { table, patterns })
}

/// What was declared as a place by name, and whether each has a capacity.
#[derive(Drop)]
pub(crate) struct PlaceNames<N: Numbers> {
    pub(crate) names: KindedNames<N>,
    pub(crate) capped: Items<bool>,
}

impl<N: Numbers> PlaceNames<N> {
    /// The pattern of the kind with which a place was declared first.
    pub(crate) fn pattern(&self, name: &Str) -> Option<&Numbered<N>>
        ensures { option_copied result ≡ pattern_in (places_of self.now).declared name.now }
    {
        self.names.pattern(name)
    }

    /// Whether a place was declared first with a capacity.
    pub(crate) fn is_capped(&self, name: &Str) -> bool
        ensures { result ≡ capped_in (places_of self.now) name.now }
    {
        match self.names.table.number(name) {
            Some(number) => self.capped.get(number).copied().unwrap_or(false),
            None => false,
        }
    }
}

/// The same places, with numbers at their patterns.
pub(crate) fn place_names_of<N: Numbers>(
    alloc: Global,
    places: DeclaredPlaces,
    kinds: &KindTable,
) -> Result<PlaceNames<N>, NoMemory>
    requires { kinds.now.patterns ≡ N.patterns }
    ensures { IfOk result (λ names. places_of names ≡ places) }
{
    let DeclaredPlaces { declared, capped } = places;
    let names = names_of(alloc, declared, kinds)?;
    Ok(PlaceNames { names, capped })
}

/// The channels, by their number of arguments and their name, with numbers at the patterns.
#[derive(Drop)]
pub(crate) struct ChannelNames<N: Numbers> {
    pub(crate) tables: BTreeMap<usize, NameTable>,
    pub(crate) patterns: Items<Items<Numbered<N>>>,
}

impl<N: Numbers> ChannelNames<N> {
    /// The patterns of the arguments of a channel.
    pub(crate) fn patterns(&self, name: &Str, count: usize) -> Option<&[Numbered<N>]>
        ensures { option_copied result ≡ channel_in (channels_of self.now) name.now count }
    {
        match self.tables.get(&count) {
            Some(table) => match table.number(name) {
                Some(number) => match self.patterns.get(number) {
                    Some(patterns) => Some(patterns.as_slice()),
                    None => None,
                },
                None => None,
            },
            None => None,
        }
    }
}

fn number_lists<N: Numbers>(
    alloc: Global,
    lists: &[Patterns],
    kinds: &KindTable,
) -> Result<Items<Items<Numbered<N>>>, NoMemory>
    requires { kinds.now.patterns ≡ N.patterns }
    ensures { IfOk result (λ all. all ≡ lists.now) }
{
    let mut all = Vec::with_capacity(alloc, lists.len())?;
    for list in lists {
        all.push(number_all(alloc, list.as_slice(), kinds)?)?;
    }
    Ok(Items::from_vec(all))
}

/// The same channels, with numbers at their patterns.
pub(crate) fn channel_names_of<N: Numbers>(
    alloc: Global,
    channels: DeclaredChannels,
    kinds: &KindTable,
) -> Result<ChannelNames<N>, NoMemory>
    requires { kinds.now.patterns ≡ N.patterns }
    ensures { IfOk result (λ names. channels_of names ≡ channels) }
{
    let DeclaredChannels { tables, patterns } = channels;
    let patterns = number_lists(alloc, patterns.as_slice(), kinds)?;
    Ok(ChannelNames { tables, patterns })
}

/// What is known by name in a net.
#[derive(Drop)]
pub(crate) struct KnownNames<'a, N: Numbers> {
    pub(crate) vars: &'a KindedNames<N>,
    pub(crate) places: &'a PlaceNames<N>,
    pub(crate) nets: &'a NameTable,
    pub(crate) channels: &'a ChannelNames<N>,
}

/// Where an inscription stands: the numbers of the actions that set variables, how many set one
/// before, how many in the transition, and whether an uplink stands before.
#[derive(Drop)]
pub(crate) struct Stand<'a> {
    pub(crate) setters: &'a NameTable,
    pub(crate) past: usize,
    pub(crate) sets: usize,
    pub(crate) called: bool,
}
