//! The text of inscriptions.
ghost use Rattle.std.specs.Prelude.{◌≡◌, ◌++◌, OnOk};
ghost use Rattle.rn_print.specs.Inscriptions.{arc_word, after_place, call_text, inscribed_text};
ghost use Rattle.rn_print.specs.Nets.{go_together, added_text};

use crate::conditions::put_cond;
use crate::expressions::{put_expr, put_exprs};
use crate::pieces::{put, put_text};
use rn_inscript::{PExpr, PInscribed, PName};
use rn_items::NoMemory;
use rn_model::ArcKind;
use std::alloc::Global;

fn arc_word(kind: ArcKind) -> &'static [u8]
    ensures { result.now ≡ arc_word kind }
{
    match kind {
        ArcKind::Input => b"in ",
        ArcKind::Output => b"out ",
        ArcKind::Test => b"test ",
        ArcKind::Reserve => b"reserve ",
        ArcKind::FlexInput => b"flexin ",
        ArcKind::FlexOutput => b"flexout ",
        ArcKind::Inhibit => b"inhibit ",
        ArcKind::Clear => b"clear ",
    }
}

fn put_after_place(
    alloc: Global,
    inscription: &Option<PExpr>,
    out: &mut Vec<u8>,
) -> Result<(), NoMemory>
    ensures { OnOk result (out.new.items ≡ out.old.items ++ after_place inscription.now) }
{
    match inscription {
        None => Ok(()),
        Some(expr) => {
            put(b": ", out)?;
            put_expr(alloc, expr, out)
        }
    }
}

fn put_call(
    alloc: Global,
    channel: &PName,
    args: &[PExpr],
    out: &mut Vec<u8>,
) -> Result<(), NoMemory>
    ensures { OnOk result (out.new.items ≡ out.old.items ++ call_text channel.now args.now) }
{
    put_text(&channel.text, out)?;
    put(b"(", out)?;
    put_exprs(alloc, args, out)?;
    put(b")", out)
}

pub(crate) fn put_inscribed(
    alloc: Global,
    form: &PInscribed,
    out: &mut Vec<u8>,
) -> Result<(), NoMemory>
    ensures { OnOk result (out.new.items ≡ out.old.items ++ inscribed_text form.now) }
{
    match form {
        PInscribed::Arc {
            kind,
            place,
            inscription,
        } => {
            put(arc_word(*kind), out)?;
            put_text(&place.text, out)?;
            put_after_place(alloc, inscription, out)
        }
        PInscribed::Guard(cond) => {
            put(b"guard ", out)?;
            put_cond(alloc, cond, out)
        }
        PInscribed::Print(expr) => {
            put(b"action print ", out)?;
            put_expr(alloc, expr, out)
        }
        PInscribed::Set { var, value } => {
            put(b"action ", out)?;
            put_text(&var.text, out)?;
            put(b" = ", out)?;
            put_expr(alloc, value, out)
        }
        PInscribed::Uplink { channel, args } => {
            put(b":", out)?;
            put_call(alloc, channel, args.as_slice(), out)
        }
        PInscribed::New { var, net } => {
            put_text(&var.text, out)?;
            put(b": new ", out)?;
            put_text(&net.text, out)
        }
        PInscribed::Downlink {
            target,
            channel,
            args,
        } => {
            put_expr(alloc, target, out)?;
            put(b":", out)?;
            put_call(alloc, channel, args.as_slice(), out)
        }
        PInscribed::Equality(a, b) => {
            put_expr(alloc, a, out)?;
            put(b" = ", out)?;
            put_expr(alloc, b, out)
        }
    }
}

/// Whether two inscriptions are arcs with one word and one place, each with an expression.
pub(crate) fn go_together(before: &PInscribed, item: &PInscribed) -> bool
    ensures { result ≡ go_together before.now item.now }
{
    match before {
        PInscribed::Arc {
            kind,
            place,
            inscription: Some(_),
        } => match item {
            PInscribed::Arc {
                kind: other,
                place: name,
                inscription: Some(_),
            } => arc_word(*kind) == arc_word(*other) && place.text == name.text,
            _ => false,
        },
        _ => false,
    }
}

/// Appends what an inscription adds to the line of the one before it.
pub(crate) fn put_added(alloc: Global, form: &PInscribed, out: &mut Vec<u8>) -> Result<(), NoMemory>
    ensures { OnOk result (out.new.items ≡ out.old.items ++ added_text form.now) }
{
    match form {
        PInscribed::Arc {
            inscription: Some(expr),
            ..
        } => {
            put(b", ", out)?;
            put_expr(alloc, expr, out)
        }
        _ => Ok(()),
    }
}
