//! The text of kinds.
ghost use Rattle.std.specs.Prelude.{◌≡◌, ◌++◌, map, OnOk};
ghost use Rattle.rn_print.specs.Pieces.{listed};
ghost use Rattle.rn_print.specs.Kinds.{kind_text};

use crate::pieces::put;
use rn_items::NoMemory;
use rn_net::{PKind, PKindForm};

#[cycle(kind)]
pub(crate) fn put_kind(kind: &PKind, out: &mut Vec<u8>) -> Result<(), NoMemory>
    ensures { OnOk result (out.new.items ≡ out.old.items ++ kind_text kind.now) }
{
    match &kind.form {
        PKindForm::Int => put(b"int", out),
        PKindForm::Text => put(b"text", out),
        PKindForm::Tuple(kinds) => {
            put(b"[", out)?;
            put_kinds(kinds.as_slice(), out)?;
            put(b"]", out)
        }
        PKindForm::List(kind) => {
            put(b"{", out)?;
            put_kind(kind.get(), out)?;
            put(b"}", out)
        }
        PKindForm::Net => put(b"net", out),
    }
}

/// The kinds with commas between them.
#[cycle(kind)]
pub(crate) fn put_kinds(kinds: &[PKind], out: &mut Vec<u8>) -> Result<(), NoMemory>
    ensures { OnOk result (out.new.items ≡ out.old.items ++ listed (map kind_text kinds.now)) }
{
    match kinds {
        [] => Ok(()),
        [first, others @ ..] => {
            put_kind(first, out)?;
            for kind in others {
                put(b",", out)?;
                put_kind(kind, out)?;
            }
            Ok(())
        }
    }
}
