//! The text of channels, nets and whole systems.
ghost use Rattle.std.specs.Prelude.{◌≡◌, ◌++◌, IfOk, OnOk};
ghost use Rattle.std.specs.List.{flat_map};
ghost use Rattle.rn_print.specs.Nets.{channel_text, var_text, capacity_text, initial_text};
ghost use Rattle.rn_print.specs.Nets.{place_text, goes_on, following_text, later_text};
ghost use Rattle.rn_print.specs.Nets.{inscriptions_text, transition_text, net_text, notation_text};
ghost use Rattle.rn_print.specs.Nets.{canonical_text, in_notation};
ghost use Rattle.rn_print.specs.ReadingBack.{IsReadBack};

use crate::constants::put_constants;
use crate::inscriptions::{go_together, put_added, put_inscribed};
use crate::kinds::{put_kind, put_kinds};
use crate::pieces::{put, put_text};
use rn_inscript::PInscription;
use rn_items::NoMemory;
use rn_net::{PChannel, PConst, PMax, PNet, PPlace, PTransition, PVar, Plain};
use rn_value::write_int;
use std::alloc::Global;

fn put_channel(channel: &PChannel, out: &mut Vec<u8>) -> Result<(), NoMemory>
    ensures { OnOk result (out.new.items ≡ out.old.items ++ channel_text channel.now) }
{
    put(b"channel ", out)?;
    put_text(&channel.name.text, out)?;
    put(b"(", out)?;
    put_kinds(channel.kinds.as_slice(), out)?;
    put(b");\n", out)
}

fn put_var(var: &PVar, out: &mut Vec<u8>) -> Result<(), NoMemory>
    ensures { OnOk result (out.new.items ≡ out.old.items ++ var_text var.now) }
{
    put(b"  var ", out)?;
    put_text(&var.name.text, out)?;
    put(b": ", out)?;
    put_kind(&var.kind, out)?;
    put(b";\n", out)
}

fn put_capacity(alloc: Global, max: Option<PMax>, out: &mut Vec<u8>) -> Result<(), NoMemory>
    ensures { OnOk result (out.new.items ≡ out.old.items ++ capacity_text max) }
{
    match max {
        Some(max) => {
            put(b" max ", out)?;
            write_int(alloc, max.number, out)
        }
        None => Ok(()),
    }
}

fn put_initial(alloc: Global, initial: &[PConst], out: &mut Vec<u8>) -> Result<(), NoMemory>
    ensures { OnOk result (out.new.items ≡ out.old.items ++ initial_text initial.now) }
{
    if initial.is_empty() {
        return Ok(());
    }
    put(b" = ", out)?;
    put_constants(alloc, initial, b", ", out)
}

fn put_place(alloc: Global, place: &PPlace, out: &mut Vec<u8>) -> Result<(), NoMemory>
    ensures { OnOk result (out.new.items ≡ out.old.items ++ place_text place.now) }
{
    put(b"  place ", out)?;
    put_text(&place.name.text, out)?;
    put(b": ", out)?;
    put_kind(&place.kind, out)?;
    put_capacity(alloc, place.max, out)?;
    put_initial(alloc, place.initial.as_slice(), out)?;
    put(b";\n", out)
}

fn goes_on(notation: u32, before: &PInscription, item: &PInscription) -> bool
    ensures { result ≡ goes_on notation before.now item.now }
{
    notation == 2 && go_together(&before.form, &item.form)
}

fn put_following(
    alloc: Global,
    notation: u32,
    before: &PInscription,
    item: &PInscription,
    out: &mut Vec<u8>,
) -> Result<(), NoMemory>
    ensures { OnOk result (out.new.items
        ≡ out.old.items ++ following_text notation before.now item.now) }
{
    if goes_on(notation, before, item) {
        return put_added(alloc, &item.form, out);
    }
    put(b";\n    ", out)?;
    put_inscribed(alloc, &item.form, out)
}

fn put_later(
    alloc: Global,
    notation: u32,
    first: &PInscription,
    others: &[PInscription],
    out: &mut Vec<u8>,
) -> Result<(), NoMemory>
    ensures { OnOk result (out.new.items
        ≡ out.old.items ++ later_text notation first.now others.now) }
{
    let mut before = first;
    for item in others {
        put_following(alloc, notation, before, item, out)?;
        before = item;
    }
    put(b";\n", out)
}

fn put_inscriptions(
    alloc: Global,
    notation: u32,
    inscriptions: &[PInscription],
    out: &mut Vec<u8>,
) -> Result<(), NoMemory>
    ensures { OnOk result (out.new.items
        ≡ out.old.items ++ inscriptions_text notation inscriptions.now) }
{
    match inscriptions {
        [] => Ok(()),
        [first, others @ ..] => {
            put(b"    ", out)?;
            put_inscribed(alloc, &first.form, out)?;
            put_later(alloc, notation, first, others, out)
        }
    }
}

fn put_transition(
    alloc: Global,
    notation: u32,
    transition: &PTransition,
    out: &mut Vec<u8>,
) -> Result<(), NoMemory>
    ensures { OnOk result (out.new.items
        ≡ out.old.items ++ transition_text notation transition.now) }
{
    put(b"  trans ", out)?;
    put_text(&transition.name.text, out)?;
    put(b" {\n", out)?;
    put_inscriptions(alloc, notation, transition.inscriptions.as_slice(), out)?;
    put(b"  }\n", out)
}

fn put_vars(vars: &[PVar], out: &mut Vec<u8>) -> Result<(), NoMemory>
    ensures { OnOk result (out.new.items ≡ out.old.items ++ flat_map var_text vars.now) }
{
    for var in vars {
        put_var(var, out)?;
    }
    Ok(())
}

fn put_places(alloc: Global, places: &[PPlace], out: &mut Vec<u8>) -> Result<(), NoMemory>
    ensures { OnOk result (out.new.items ≡ out.old.items ++ flat_map place_text places.now) }
{
    for place in places {
        put_place(alloc, place, out)?;
    }
    Ok(())
}

fn put_transitions(
    alloc: Global,
    notation: u32,
    transitions: &[PTransition],
    out: &mut Vec<u8>,
) -> Result<(), NoMemory>
    ensures { OnOk result (out.new.items
        ≡ out.old.items ++ flat_map (transition_text notation) transitions.now) }
{
    for transition in transitions {
        put_transition(alloc, notation, transition, out)?;
    }
    Ok(())
}

fn put_net(alloc: Global, notation: u32, net: &PNet, out: &mut Vec<u8>) -> Result<(), NoMemory>
    ensures { OnOk result (out.new.items ≡ out.old.items ++ net_text notation net.now) }
{
    put(b"net ", out)?;
    put_text(&net.name.text, out)?;
    put(b" {\n", out)?;
    put_vars(net.vars.as_slice(), out)?;
    put_places(alloc, net.places.as_slice(), out)?;
    put_transitions(alloc, notation, net.transitions.as_slice(), out)?;
    put(b"}\n", out)
}

fn put_channels(channels: &[PChannel], out: &mut Vec<u8>) -> Result<(), NoMemory>
    ensures { OnOk result (out.new.items ≡ out.old.items ++ flat_map channel_text channels.now) }
{
    for channel in channels {
        put_channel(channel, out)?;
    }
    Ok(())
}

fn put_nets(alloc: Global, notation: u32, nets: &[PNet], out: &mut Vec<u8>) -> Result<(), NoMemory>
    ensures { OnOk result (out.new.items
        ≡ out.old.items ++ flat_map (net_text notation) nets.now) }
{
    for net in nets {
        put_net(alloc, notation, net, out)?;
    }
    Ok(())
}

fn put_notation(notation: u32, out: &mut Vec<u8>) -> Result<(), NoMemory>
    ensures { OnOk result (out.new.items ≡ out.old.items ++ notation_text notation) }
{
    if notation == 2 {
        return put(b"notation 2;\n", out);
    }
    Ok(())
}

/// The canonical text of a system, in UTF-8.
///
/// A text of notation 2 begins with `notation 2;`. Channels come first and then nets, each in their
/// order, and in a net its variables, places and transitions. In notation 2, arcs of one kind and
/// place that follow one another, each with an expression, stand on one line. It recurses as deep as
/// expressions, conditions, kinds and constants nest.
pub fn print_system(alloc: Global, plain: &Plain) -> Result<Vec<u8>, NoMemory>
    ensures text { IfOk result (λ bytes. bytes.items ≡ canonical_text plain.now) }

    // Where some text spells the plain form, but for its spots, what is returned spells it too, so
    // that reading it gives the same plain form but for its spots.
    ensures read_back { IfOk result (λ bytes. IsReadBack bytes.items plain.now) }
{
    Ok(print_in(alloc, plain.notation, plain)?)
}

/// The canonical text of a system in this notation, whatever its own is, in UTF-8.
///
/// It recurses as `print_system` does.
pub fn print_in(alloc: Global, notation: u32, plain: &Plain) -> Result<Vec<u8>, NoMemory>
    ensures { IfOk result (λ bytes.
        bytes.items ≡ canonical_text (in_notation notation plain.now)) }
{
    let mut out = Vec::new(alloc);
    put_notation(notation, &mut out)?;
    put_channels(plain.channels.as_slice(), &mut out)?;
    put_nets(alloc, notation, plain.nets.as_slice(), &mut out)?;
    Ok(out)
}
