//! The text of expressions.
ghost use Rattle.std.specs.Prelude.{◌≡◌, ◌≤◌, ◌++◌, suc, OnOk};
ghost use Rattle.rn_print.specs.Expressions.{operand_text, expr_text, exprs_text};
ghost use Rattle.rn_print.specs.Expressions.{operator, strength};

use crate::pieces::{put, put_quoted, put_text};
use rn_inscript::{PExpr, PForm};
use rn_items::NoMemory;
use rn_model::OpKind;
use rn_value::write_int;
use std::alloc::Global;

// How tightly unary `-` binds: more than every operator.
const STRENGTH_OF_MINUS: u8 = 3;

// How tightly an operator binds.
fn strength_of(op: OpKind) -> u8
    ensures exact { result ≡ strength op }
    ensures least { result ≤ 2 }
{
    match op {
        OpKind::Add | OpKind::Sub => 1,
        OpKind::Mul | OpKind::Div | OpKind::Rem => 2,
    }
}

fn put_operator(op: OpKind, out: &mut Vec<u8>) -> Result<(), NoMemory>
    ensures { OnOk result (out.new.items ≡ out.old.items ++ operator op) }
{
    match op {
        OpKind::Add => put(b" + ", out),
        OpKind::Sub => put(b" - ", out),
        OpKind::Mul => put(b" * ", out),
        OpKind::Div => put(b" / ", out),
        OpKind::Rem => put(b" % ", out),
    }
}

pub(crate) fn put_expr(alloc: Global, expr: &PExpr, out: &mut Vec<u8>) -> Result<(), NoMemory>
    ensures { OnOk result (out.new.items ≡ out.old.items ++ expr_text expr.now) }
{
    put_operand(alloc, expr, 0, out)
}

// An expression, in parentheses where it binds less tightly than this.
#[cycle(expr)]
fn put_operand(alloc: Global, expr: &PExpr, least: u8, out: &mut Vec<u8>) -> Result<(), NoMemory>
    ensures { OnOk result (out.new.items ≡ out.old.items ++ operand_text expr.now least) }
{
    match &expr.form {
        PForm::Int(n) => write_int(alloc, *n, out),
        PForm::Text(text) => put_quoted(text, out),
        PForm::Name(name) => put_text(name, out),
        PForm::This => put(b"this", out),
        PForm::Step => put(b"step()", out),
        PForm::Tuple(parts) => put_between(alloc, b"[", parts.as_slice(), b"]", out),
        PForm::List(parts) => put_between(alloc, b"{", parts.as_slice(), b"}", out),
        PForm::Cons(parts, tail) => {
            put_between(alloc, b"{", parts.as_slice(), b":", out)?;
            put_operand(alloc, tail.get(), 0, out)?;
            put(b"}", out)
        }
        PForm::Neg(part) => {
            put(b"-", out)?;
            put_operand(alloc, part.get(), STRENGTH_OF_MINUS, out)
        }
        PForm::Op(op, a, b) => {
            let strength = strength_of(*op);
            if strength < least {
                put(b"(", out)?;
                put_operand(alloc, a.get(), strength, out)?;
                put_right(alloc, b.get(), *op, out)?;
                put(b")", out)
            } else {
                put_operand(alloc, a.get(), strength, out)?;
                put_right(alloc, b.get(), *op, out)
            }
        }
    }
}

// What stands on the right of an operator, after it: it has to bind more.
#[cycle(expr)]
fn put_right(alloc: Global, b: &PExpr, op: OpKind, out: &mut Vec<u8>) -> Result<(), NoMemory>
    ensures { OnOk result (out.new.items
        ≡ out.old.items ++ (operator op ++ operand_text b.now (suc (strength op)))) }
{
    put_operator(op, out)?;
    put_operand(alloc, b, strength_of(op) + 1, out)
}

#[cycle(expr)]
fn put_between(
    alloc: Global,
    before: &[u8],
    parts: &[PExpr],
    after: &[u8],
    out: &mut Vec<u8>,
) -> Result<(), NoMemory>
    ensures { OnOk result (out.new.items
        ≡ out.old.items ++ (before.now ++ exprs_text parts.now ++ after.now)) }
{
    put(before, out)?;
    put_exprs(alloc, parts, out)?;
    put(after, out)
}

/// The expressions with commas between them.
#[cycle(expr)]
pub(crate) fn put_exprs(alloc: Global, exprs: &[PExpr], out: &mut Vec<u8>) -> Result<(), NoMemory>
    ensures { OnOk result (out.new.items ≡ out.old.items ++ exprs_text exprs.now) }
{
    match exprs {
        [] => Ok(()),
        [first, others @ ..] => {
            put_operand(alloc, first, 0, out)?;
            for expr in others {
                put(b",", out)?;
                put_operand(alloc, expr, 0, out)?;
            }
            Ok(())
        }
    }
}
