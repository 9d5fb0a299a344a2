//! The text of constants.
ghost use Rattle.std.specs.Prelude.{◌≡◌, ◌++◌, map, OnOk};
ghost use Rattle.rn_print.specs.Pieces.{separated};
ghost use Rattle.rn_print.specs.Constants.{constant_text};

use crate::pieces::{put, put_quoted};
use rn_items::NoMemory;
use rn_net::{PConst, PConstForm};
use rn_value::write_int;
use std::alloc::Global;

#[cycle(constant)]
pub(crate) fn put_constant(
    alloc: Global,
    constant: &PConst,
    out: &mut Vec<u8>,
) -> Result<(), NoMemory>
    ensures { OnOk result (out.new.items ≡ out.old.items ++ constant_text constant.now) }
{
    match &constant.form {
        PConstForm::Int(n) => write_int(alloc, *n, out),
        PConstForm::Text(text) => put_quoted(text, out),
        PConstForm::Tuple(items) => {
            put(b"[", out)?;
            put_constants(alloc, items.as_slice(), b",", out)?;
            put(b"]", out)
        }
        PConstForm::List(items) => {
            put(b"{", out)?;
            put_constants(alloc, items.as_slice(), b",", out)?;
            put(b"}", out)
        }
    }
}

/// The constants with a separator between them.
#[cycle(constant)]
pub(crate) fn put_constants(
    alloc: Global,
    constants: &[PConst],
    separator: &[u8],
    out: &mut Vec<u8>,
) -> Result<(), NoMemory>
    ensures { OnOk result (out.new.items
        ≡ out.old.items ++ separated separator.now (map constant_text constants.now)) }
{
    match constants {
        [] => Ok(()),
        [first, others @ ..] => {
            put_constant(alloc, first, out)?;
            for constant in others {
                put(separator, out)?;
                put_constant(alloc, constant, out)?;
            }
            Ok(())
        }
    }
}
