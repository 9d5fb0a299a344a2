//! Patterns that are known by number.
ghost use Rattle.std.specs.Prelude.{◌≡◌, IfOk, IfSome};

use crate::kinds::same;
use crate::numbered::{Numbered, Numbers, copy as copy_numbered, is_pattern, with_number};
use crate::pattern::{Pattern, Patterns, copy, pattern_of};
use rn_items::Items;
use rn_net::{PChannel, PKind, PNet, PPlace, PVar, Plain};
use rn_shared::Shared;
use rn_value::NoMemory;
use std::alloc::Global;
use std::collections::BTreeMap;

/// What a pattern is made of, with the numbers of its parts.
#[derive(Debug, PartialEq, Eq, PartialOrd, Ord, Drop)]
enum PatternNode {
    Any,
    Int,
    Text,
    Tuple(Items<usize>),
    List(usize),
    Net,
}

/// Patterns and their parts, each once, with their indices as numbers.
#[derive(Drop)]
pub struct KindTable {
    pub patterns: Patterns,
    numbers: BTreeMap<PatternNode, usize>,
}

impl KindTable {
    /// No pattern.
    pub fn new(alloc: Global) -> KindTable {
        KindTable {
            patterns: Items::new(alloc),
            numbers: BTreeMap::new(alloc),
        }
    }
}

/// The number of a pattern that is made of this, which is put in where it is new.
fn number_of(
    kinds: &mut KindTable,
    node: PatternNode,
    pattern: &Pattern,
) -> Result<usize, NoMemory> {
    if let Some(number) = kinds.numbers.get(&node) {
        return Ok(*number);
    }
    let number = kinds.patterns.len();
    kinds.patterns.push(copy(pattern)?)?;
    kinds.numbers.insert(node, number)?;
    Ok(number)
}

/// Puts a pattern and its parts in, and gives its number.
#[cycle(add)]
fn add(alloc: Global, pattern: &Pattern, kinds: &mut KindTable) -> Result<usize, NoMemory> {
    let node = match pattern {
        Pattern::Any => PatternNode::Any,
        Pattern::Int => PatternNode::Int,
        Pattern::Text => PatternNode::Text,
        Pattern::Tuple(parts) => PatternNode::Tuple(add_all(alloc, parts.as_slice(), kinds)?),
        Pattern::List(part) => PatternNode::List(add(alloc, part.get(), kinds)?),
        Pattern::Net => PatternNode::Net,
    };
    Ok(number_of(kinds, node, pattern)?)
}

#[cycle(add)]
fn add_all(
    alloc: Global,
    patterns: &[Pattern],
    kinds: &mut KindTable,
) -> Result<Items<usize>, NoMemory> {
    let mut numbers = Vec::with_capacity(alloc, patterns.len())?;
    for pattern in patterns {
        numbers.push(add(alloc, pattern, kinds)?)?;
    }
    Ok(Items::from_vec(numbers))
}

/// A pattern with the number of what it is made of, where it is known.
fn with_number_of<N: Numbers>(
    pattern: Numbered<N>,
    node: PatternNode,
    kinds: &KindTable,
) -> Numbered<N>
    requires { kinds.now.patterns ≡ N.patterns }
    ensures { result ≡ pattern }
{
    match kinds.numbers.get(&node) {
        Some(number) => with_number(pattern, *number, kinds.patterns.as_slice()),
        None => pattern,
    }
}

/// The numbers of these patterns, if each has one.
fn numbers_of<N: Numbers>(
    alloc: Global,
    patterns: &[Numbered<N>],
) -> Result<Option<Items<usize>>, NoMemory> {
    let mut numbers = Vec::with_capacity(alloc, patterns.len())?;
    for pattern in patterns {
        match pattern.number() {
            Some(number) => numbers.push(number)?,
            None => return Ok(None),
        }
    }
    Ok(Some(Items::from_vec(numbers)))
}

/// The last of these again, if it is this pattern.
fn last_again<N: Numbers>(
    before: &[Numbered<N>],
    pattern: &Pattern,
) -> Result<Option<Numbered<N>>, NoMemory>
    ensures { IfOk result (λ again. IfSome again (λ p. p ≡ pattern.now)) }
{
    match before.last() {
        Some(last) => {
            if is_pattern(last, pattern) {
                Ok(Some(copy_numbered(last)?))
            } else {
                Ok(None)
            }
        }
        None => Ok(None),
    }
}

/// A pattern with its number and those of its parts, where they are known.
#[cycle(number)]
pub fn number_pattern<N: Numbers>(
    alloc: Global,
    pattern: &Pattern,
    kinds: &KindTable,
) -> Result<Numbered<N>, NoMemory>
    requires { kinds.now.patterns ≡ N.patterns }
    ensures { IfOk result (λ p. p ≡ pattern.now) }
{
    match pattern {
        Pattern::Any => Ok(Numbered::any()),
        Pattern::Int => Ok(with_number_of(Numbered::int(), PatternNode::Int, kinds)),
        Pattern::Text => Ok(with_number_of(Numbered::text(), PatternNode::Text, kinds)),
        Pattern::Net => Ok(with_number_of(Numbered::net(), PatternNode::Net, kinds)),
        Pattern::Tuple(parts) => {
            let numbered = number_all(alloc, parts.as_slice(), kinds)?;
            let numbers = numbers_of(alloc, numbered.as_slice())?;
            let tuple = Numbered::tuple(Shared::new(alloc, numbered)?);
            match numbers {
                Some(numbers) => Ok(with_number_of(tuple, PatternNode::Tuple(numbers), kinds)),
                None => Ok(tuple),
            }
        }
        Pattern::List(part) => {
            let numbered = number_pattern(alloc, part.get(), kinds)?;
            let number = numbered.number();
            let list = Numbered::list(Shared::new(alloc, numbered)?);
            match number {
                Some(number) => Ok(with_number_of(list, PatternNode::List(number), kinds)),
                None => Ok(list),
            }
        }
    }
}

/// The same of each of these.
#[cycle(number)]
pub fn number_all<N: Numbers>(
    alloc: Global,
    patterns: &[Pattern],
    kinds: &KindTable,
) -> Result<Items<Numbered<N>>, NoMemory>
    requires { kinds.now.patterns ≡ N.patterns }
    ensures { IfOk result (λ ps. ps ≡ patterns.now) }
{
    let mut all = Vec::with_capacity(alloc, patterns.len())?;
    for pattern in patterns {
        let numbered = match last_again(all.as_slice(), pattern)? {
            Some(last) => last,
            None => number_pattern(alloc, pattern, kinds)?,
        };
        all.push(numbered)?;
    }
    Ok(Items::from_vec(all))
}

/// Puts the pattern of a kind in.
fn add_kind(alloc: Global, kind: &PKind, kinds: &mut KindTable) -> Result<(), NoMemory> {
    let pattern = pattern_of(alloc, kind)?;
    add(alloc, &pattern, kinds)?;
    Ok(())
}

/// Puts the kinds of variables in.
fn add_vars(alloc: Global, vars: &[PVar], kinds: &mut KindTable) -> Result<(), NoMemory> {
    let mut before: Option<&PVar> = None;
    for var in vars {
        let again = match before {
            Some(before) => same(before.kind.get(), var.kind.get()),
            None => false,
        };
        if !again {
            add_kind(alloc, var.kind.get(), kinds)?;
        }
        before = Some(var);
    }
    Ok(())
}

/// Puts the kinds of places in.
fn add_places(alloc: Global, places: &[PPlace], kinds: &mut KindTable) -> Result<(), NoMemory> {
    for place in places {
        add_kind(alloc, &place.kind, kinds)?;
    }
    Ok(())
}

/// Puts the kinds of the variables and places of nets in.
fn add_nets(alloc: Global, nets: &[PNet], kinds: &mut KindTable) -> Result<(), NoMemory> {
    for net in nets {
        add_vars(alloc, net.vars.as_slice(), kinds)?;
        add_places(alloc, net.places.as_slice(), kinds)?;
    }
    Ok(())
}

/// Puts the kinds of the arguments of a channel in.
fn add_channel(alloc: Global, channel: &PChannel, kinds: &mut KindTable) -> Result<(), NoMemory> {
    for kind in channel.kinds.as_slice() {
        add_kind(alloc, kind, kinds)?;
    }
    Ok(())
}

/// The patterns of all kinds that are declared in a net text.
pub fn kinds_of(alloc: Global, plain: &Plain) -> Result<KindTable, NoMemory> {
    let mut kinds = KindTable::new(alloc);
    for channel in plain.channels.as_slice() {
        add_channel(alloc, channel, &mut kinds)?;
    }
    add_nets(alloc, plain.nets.as_slice(), &mut kinds)?;
    Ok(kinds)
}
