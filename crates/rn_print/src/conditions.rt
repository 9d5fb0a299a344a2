//! The text of conditions.
ghost use Rattle.std.specs.Prelude.{◌≡◌, ◌++◌, map, OnOk};
ghost use Rattle.rn_print.specs.Conditions.{comparison, simple_text, all_step, cond_text};

use crate::expressions::put_expr;
use crate::pieces::put;
use rn_inscript::{PCond, PSimple};
use rn_items::NoMemory;
use rn_model::CompareKind;
use std::alloc::Global;

fn put_comparison(kind: CompareKind, out: &mut Vec<u8>) -> Result<(), NoMemory>
    ensures { OnOk result (out.new.items ≡ out.old.items ++ comparison kind) }
{
    match kind {
        CompareKind::Same => put(b" == ", out),
        CompareKind::Differs => put(b" != ", out),
        CompareKind::Less => put(b" < ", out),
        CompareKind::AtMost => put(b" <= ", out),
        CompareKind::Greater => put(b" > ", out),
        CompareKind::AtLeast => put(b" >= ", out),
    }
}

/// The alternatives with `||` between them.
#[cycle(condition)]
pub(crate) fn put_cond(alloc: Global, cond: &PCond, out: &mut Vec<u8>) -> Result<(), NoMemory>
    ensures { OnOk result (out.new.items ≡ out.old.items ++ cond_text cond.now) }
{
    match cond.any.as_slice() {
        [] => Ok(()),
        [first, others @ ..] => {
            put_simples(alloc, first.as_slice(), out)?;
            for simples in others {
                put(b" || ", out)?;
                put_simples(alloc, simples.as_slice(), out)?;
            }
            Ok(())
        }
    }
}

// What `&&` joins.
#[cycle(condition)]
fn put_simples(alloc: Global, simples: &[PSimple], out: &mut Vec<u8>) -> Result<(), NoMemory>
    ensures { OnOk result (out.new.items
        ≡ out.old.items ++ all_step (map simple_text simples.now)) }
{
    match simples {
        [] => Ok(()),
        [first, others @ ..] => {
            put_simple(alloc, first, out)?;
            for simple in others {
                put(b" && ", out)?;
                put_simple(alloc, simple, out)?;
            }
            Ok(())
        }
    }
}

#[cycle(condition)]
fn put_simple(alloc: Global, simple: &PSimple, out: &mut Vec<u8>) -> Result<(), NoMemory>
    ensures { OnOk result (out.new.items ≡ out.old.items ++ simple_text simple.now) }
{
    match simple {
        PSimple::Compare(kind, a, b) => {
            put_expr(alloc, a, out)?;
            put_comparison(*kind, out)?;
            put_expr(alloc, b, out)
        }
        PSimple::Bare(a) => put_expr(alloc, a, out),
        PSimple::Not(cond) => {
            put(b"!(", out)?;
            put_cond(alloc, cond, out)?;
            put(b")", out)
        }
    }
}
