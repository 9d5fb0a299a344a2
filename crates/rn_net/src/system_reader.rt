//! Reading the notation and the items of a text.
ghost use Rattle.std.specs.Prelude.{◌≡◌, ◌+◌, ◌≤◌, length, pos, IfOk, MatchResult};
ghost use Rattle.rn_inscript.specs.link.NextNames.{IsNotNextKind};
ghost use Rattle.rn_net.specs.link.Answers.{HeaderAnswer, SystemAnswer};
ghost use Rattle.rn_net.specs.link.Parts.{with_item};
ghost use Rattle.rn_net.specs.link.Progress.{HasNext, HaveNaturals};
ghost use Rattle.rn_notation.specs.declared.token.TokenKind.TheVariants as Kind;

use crate::cursor::{expect_sign, past_name, past_number};
use crate::net_reader::item;
use crate::part::Item;
use crate::plain::{PChannel, PNet, Plain};
use rn_items::Items;
use rn_notation::{Spot, Tokens, sign};
use rn_reading::ReadFault;
use rn_value::NoMemory;
use std::alloc::Global;

/// The system with one more item.
fn with_item(plain: Plain, item: Item) -> Result<Plain, NoMemory>
    ensures { IfOk result (λ more. more ≡ with_item plain item) }
{
    match item {
        Item::Channel(channel) => with_channel(plain, channel),
        Item::Net(net) => with_net(plain, net),
    }
}

fn with_channel(plain: Plain, channel: PChannel) -> Result<Plain, NoMemory>
    ensures { IfOk result (λ more. more ≡ with_item plain (Item.Channel channel)) }
{
    let mut channels = plain.channels;
    channels.push(channel)?;
    Ok(Plain {
        notation: plain.notation,
        channels,
        nets: plain.nets,
    })
}

fn with_net(plain: Plain, net: PNet) -> Result<Plain, NoMemory>
    ensures { IfOk result (λ more. more ≡ with_item plain (Item.Net net)) }
{
    let mut nets = plain.nets;
    nets.push(net)?;
    Ok(Plain {
        notation: plain.notation,
        channels: plain.channels,
        nets,
    })
}

fn expect_two(tokens: &Tokens, at: usize) -> Result<(Spot, usize), ReadFault>
    ensures { MatchResult result
        (λ found. HasNext tokens.now at (Kind.Number (pos 2)) found.0 × (found.1 ≡ at + 1))
        (λ fault. IsNotNextKind tokens.now at (Kind.Number (pos 2))
        × (fault ≡ ReadFault.Stopped at)) }
{
    match past_number(tokens, at) {
        Some((spot, number, end)) => {
            if number == 2 {
                Ok((spot, end))
            } else {
                Err(ReadFault::Stopped(at))
            }
        }
        None => Err(ReadFault::Stopped(at)),
    }
}

/// The notation of a text, and the index of its first item. Notation 1 has no header.
fn notation(tokens: &Tokens) -> Result<(u32, usize), ReadFault>
    ensures moved { IfOk result (λ found. found.1 ≤ length tokens.now) }
    ensures reads { HeaderAnswer tokens.now result }
{
    if let Some((_, after_name)) = past_name(tokens, 0, "notation") {
        let (_, after_number) = expect_two(tokens, after_name)?;
        let (_, end) = expect_sign(tokens, after_number, sign::SEMICOLON)?;
        return Ok((2, end));
    }
    Ok((1, 0))
}

/// The system that the tokens are, and their number.
pub(crate) fn system(alloc: Global, tokens: &Tokens) -> Result<(Plain, usize), ReadFault>
    requires { HaveNaturals tokens.now }
    ensures { SystemAnswer tokens.now result }
{
    let (notation, start) = notation(tokens)?;
    let mut plain = Plain {
        notation,
        channels: Items::new(alloc),
        nets: Items::new(alloc),
    };
    let count = tokens.len();
    let mut now = start;
    'items: loop {
        let (more, after) = item(alloc, tokens, now, notation)?;
        plain = with_item(plain, more)?;
        if after == count {
            return Ok((plain, count));
        }
        now = after;
    }
}
