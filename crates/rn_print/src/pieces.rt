//! What canonical texts are put together from: bytes and texts in quotes.
//!
//! Each function appends its text, or a part of it where memory runs out.
ghost use Rattle.std.specs.Prelude.{◌≡◌, ◌++◌, OnOk};
ghost use Rattle.rn_value.specs.Text.{escaped, quoted};

use rn_items::NoMemory;
use rn_value::Str;

pub(crate) fn put(bytes: &[u8], out: &mut Vec<u8>) -> Result<(), NoMemory>
    ensures { OnOk result (out.new.items ≡ out.old.items ++ bytes.now) }
{
    out.extend_from_slice(bytes)?;
    Ok(())
}

pub(crate) fn put_text(text: &Str, out: &mut Vec<u8>) -> Result<(), NoMemory>
    ensures { OnOk result (out.new.items ≡ out.old.items ++ text.now) }
{
    put(text.as_str().as_bytes(), out)
}

pub(crate) fn put_quoted(text: &Str, out: &mut Vec<u8>) -> Result<(), NoMemory>
    ensures { OnOk result (out.new.items ≡ out.old.items ++ quoted text.now) }
{
    out.push(b'"')?;
    for byte in text.as_str().as_bytes() {
        put_escaped(*byte, out)?;
    }
    out.push(b'"')?;
    Ok(())
}

fn put_escaped(byte: u8, out: &mut Vec<u8>) -> Result<(), NoMemory>
    ensures { OnOk result (out.new.items ≡ out.old.items ++ escaped byte) }
{
    match byte {
        b'"' => put(b"\\\"", out),
        b'\\' => put(b"\\\\", out),
        b'\n' => put(b"\\n", out),
        b'\t' => put(b"\\t", out),
        _ => {
            out.push(byte)?;
            Ok(())
        }
    }
}
