//! The text of a value.
ghost use Rattle.std.specs.Prelude.{◌≡◌, ◌<◌, ◌≤◌, [], ◌∷◌, ◌++◌, map, drop, take, flat_map};
ghost use Rattle.std.specs.Prelude.{false, length};
ghost use Rattle.rn_value.specs.Text.{escaped, quoted, inst_text};
ghost use Rattle.rn_window.specs.Windows.{after};
ghost use Rattle.rn_spell.specs.Spelling.{spelled, spelled_row};

use crate::digits::{put_int, put_numeral};
use crate::naming::Naming;
use rn_value::{InstRef, Str, Value};
use rn_window::Window;

/// Writes the text of a value, the only one that it has, as in `[-5,"a",{},worker[2]]`, with its
/// instances named so.
///
/// A whole number is decimal. A text stands in quotes, with `\"`, `\\`, `\n` and `\t` for the
/// quote, the backslash, the newline and the tab. A tuple stands in brackets and a list in braces,
/// with commas and without spaces. An instance is the name of its net and its number in brackets.
#[cycle(text)]
pub fn put_value<N: Naming>(value: &Value, naming: &N, window: &mut Window)
    ensures { window.new ≡ after window.old (spelled value.now
        (λ i. inst_text (N.names naming.now) (N.renamed naming.now i))) }
{
    match value {
        Value::Int(n) => put_int(*n, window),
        Value::Text(text) => put_quoted(text.get(), window),
        Value::Tuple(values) => put_row(b'[', values.as_slice(), b']', naming, window),
        Value::List(values) => put_row(b'{', values.as_slice(), b'}', naming, window),
        Value::Inst(inst) => put_inst(inst, naming, window),
    }
}

#[cycle(text)]
#[tactic(auto, using(rn_window::proofs::Windows::written))]
fn put_row<N: Naming>(before: u8, values: &[Value], end: u8, naming: &N, window: &mut Window)
    ensures { window.new ≡ after window.old (before ∷ spelled_row (map spelled values.now)
        (λ i. inst_text (N.names naming.now) (N.renamed naming.now i)) ++ end ∷ []) }
{
    window.put_byte(before);
    put_all(values, naming, window);
    window.put_byte(end);
}

#[cycle(text)]
fn put_all<N: Naming>(values: &[Value], naming: &N, window: &mut Window)
    ensures { window.new ≡ after window.old (spelled_row (map spelled values.now)
        (λ i. inst_text (N.names naming.now) (N.renamed naming.now i))) }
{
    match values {
        [] => {}
        [first, others @ ..] => {
            put_value(first, naming, window);
            for value in others {
                window.put_byte(b',');
                put_value(value, naming, window);
            }
        }
    }
}

#[tactic(auto, using(rn_window::proofs::Windows::written))]
fn put_quoted(text: &Str, window: &mut Window)
    ensures { window.new ≡ after window.old (quoted text.now) }
{
    window.put_byte(b'"');
    put_text(text.as_str().as_bytes(), window);
    window.put_byte(b'"');
}

// The bytes of a text, those that stand for themselves run by run.
fn put_text(bytes: &[u8], window: &mut Window)
    ensures { window.new ≡ after window.old (flat_map escaped bytes.now) }
{
    let mut rest = bytes;
    while 0 < rest.len() {
        let count = put_run(rest, window);
        rest = &rest[count..];
    }
}

// The first bytes that stand for themselves, and the next one. Returns how many that are.
fn put_run(bytes: &[u8], window: &mut Window) -> usize
    requires { 0 < length bytes.now }
    ensures some { 0 < result }
    ensures within { result ≤ length bytes.now }
    ensures text { after window.new (flat_map escaped (drop result bytes.now))
        ≡ after window.old (flat_map escaped bytes.now) }
{
    let count = plain_count(bytes);
    window.put(&bytes[..count]);
    if count == bytes.len() {
        return count;
    }
    put_escaped(bytes[count], window);
    count + 1
}

// How many of the first bytes stand for themselves.
fn plain_count(bytes: &[u8]) -> usize
    ensures within { result ≤ length bytes.now }
    ensures plain { flat_map escaped (take result bytes.now) ≡ take result bytes.now }
{
    for i in 0..bytes.len() {
        if is_escaped(bytes[i]) {
            return i;
        }
    }
    bytes.len()
}

// Whether a byte doesn't stand for itself.
fn is_escaped(byte: u8) -> bool
    ensures { result ≡ false → escaped byte ≡ byte ∷ [] }
{
    byte == b'"' || byte == b'\\' || byte == b'\n' || byte == b'\t'
}

fn put_escaped(byte: u8, window: &mut Window)
    ensures { window.new ≡ after window.old (escaped byte) }
{
    match byte {
        b'"' => window.put(b"\\\""),
        b'\\' => window.put(b"\\\\"),
        b'\n' => window.put(b"\\n"),
        b'\t' => window.put(b"\\t"),
        _ => window.put_byte(byte),
    }
}

#[tactic(auto, using(rn_window::proofs::Windows::written))]
fn put_inst<N: Naming>(inst: &InstRef, naming: &N, window: &mut Window)
    ensures { window.new ≡ after window.old
        (inst_text (N.names naming.now) (N.renamed naming.now inst.now)) }
{
    if let Some(number) = naming.number(inst) {
        naming.put_name(number, window);
        window.put_byte(b'[');
        put_numeral(number as u64, window);
        window.put_byte(b']');
    }
}
