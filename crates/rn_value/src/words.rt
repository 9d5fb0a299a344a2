//! The words of texts: letters, digits, and the words that are no names.
ghost use Rattle.std.specs.Prelude.{◌≡◌, ◌<◌, ◌^◌, length, map};
ghost use Rattle.rn_value.specs.Characters.{is_letter, is_digit, is_name_byte};
ghost use Rattle.rn_value.specs.Words.{index_of, reserved_words};

const RESERVED_WORDS: [&str; 20] = [
    "net", "place", "trans", "channel", "var", "in", "out", "test", "reserve", "flexin", "flexout",
    "inhibit", "clear", "guard", "action", "print", "new", "this", "int", "text",
];

/// Whether a byte is an ASCII letter.
pub fn is_letter(byte: u8) -> bool
    ensures { result ≡ is_letter byte }
{
    byte.is_ascii_alphabetic()
}

/// Whether a byte is an ASCII digit.
pub fn is_digit(byte: u8) -> bool
    ensures { result ≡ is_digit byte }
{
    byte.is_ascii_digit()
}

/// Whether a byte is an ASCII letter, a digit or `_`.
pub fn is_name_byte(byte: u8) -> bool
    ensures { result ≡ is_name_byte byte }
{
    is_letter(byte) || is_digit(byte) || byte == b'_'
}

/// The first index at which a word stands among words.
pub fn index_of(words: &[&str], word: &[u8]) -> Option<u32>
    requires { length words.now < 2 ^ 32 }
    ensures { result ≡ index_of (map (λ word. word.now) words.now) word.now }
{
    for (i, other) in words.iter().enumerate() {
        if other.as_bytes() == word {
            return Some(i as u32);
        }
    }
    None
}

/// The number of a reserved word, from 0, in this order: `net place trans channel var in out test
/// reserve flexin flexout inhibit clear guard action print new this int text`.
#[tactic(auto, unfolding(crate::specs::Words::reserved_words))]
pub fn reserved_word(word: &[u8]) -> Option<u32>
    ensures { result ≡ index_of reserved_words word.now }
{
    let words: [&str; 20] = RESERVED_WORDS;
    index_of(words.as_slice(), word)
}
