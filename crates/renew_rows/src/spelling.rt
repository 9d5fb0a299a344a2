//! Texts with escapes.
ghost use Rattle.std.specs.Prelude.{◌≡◌, ◌<◌, ◌∷◌, ◌++◌, ℕ, IfSome, MatchOption, OnOk, Some, None};
ghost use Rattle.renew_rows.specs.Spelling.{digit_value, escaped, of_two, spelled};

use rn_items::NoMemory;

// What a hexadecimal digit counts, where a byte is one.
fn digit_of(byte: u8) -> Option<u8>
    ensures exact { result ≡ digit_value byte }
    ensures below { IfSome result (λ n. n < 16) }
{
    if b'0' <= byte && byte <= b'9' {
        Some(byte - b'0')
    } else if b'a' <= byte && byte <= b'f' {
        Some(byte - b'a' + 10)
    } else {
        None
    }
}

// The byte that two hexadecimal digits spell.
fn byte_of(high: u8, low: u8) -> Option<u8>
    ensures { result ≡ of_two (digit_value high) (digit_value low) }
{
    match (digit_of(high), digit_of(low)) {
        (Some(high), Some(low)) => Some(high * 16 + low),
        _ => None,
    }
}

// The byte of the escape that a byte begins with those after it, and what stands after it.
fn escape_of(first: u8, others: &[u8]) -> Option<(u8, &[u8])>
    ensures { MatchOption result (escaped first others.now ≡ None)
        (λ x. (escaped first others.now ≡ Some x.0)
        × ((high : ℕ) × (low : ℕ) × (others.now ≡ high ∷ low ∷ x.1.now))) }
{
    match others {
        [high, low, rest @ ..] if first == b'\\' => match byte_of(*high, *low) {
            Some(byte) => Some((byte, rest)),
            None => None,
        },
        _ => None,
    }
}

/// Appends what a text spells: an escape is a byte, each sign `@` stands for these bytes, and all
/// else for itself.
pub(crate) fn spell(text: &[u8], sign: &[u8], into: &mut Vec<u8>) -> Result<(), NoMemory>
    ensures { OnOk result (into.new.items ≡ into.old.items ++ spelled sign.now text.now) }
{
    let mut rest = text;
    while let [first, others @ ..] = rest {
        if let Some((byte, after)) = escape_of(*first, others) {
            into.push(byte)?;
            rest = after;
        } else if *first == b'@' {
            into.extend_from_slice(sign)?;
            rest = others;
        } else {
            into.push(*first)?;
            rest = others;
        }
    }
    Ok(())
}
