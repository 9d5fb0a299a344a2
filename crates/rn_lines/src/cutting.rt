//! The lines that bytes are made of.
ghost use Rattle.std.specs.Prelude.{◌≡◌, ◌≢◌, ◌∷◌, ◌++◌, All, IfNone, IfSome};

/// The bytes before the first line feed, and those after it.
pub fn first_line(bytes: &[u8]) -> Option<(&[u8], &[u8])>
    ensures whole { IfSome result (λ x. bytes.now ≡ x.0.now ++ 10 ∷ x.1.now) }
    ensures line { IfSome result (λ x. All (λ c. c ≢ 10) x.0.now) }
    ensures none { IfNone result (All (λ c. c ≢ 10) bytes.now) }
{
    for (i, byte) in bytes.iter().enumerate() {
        if *byte == b'\n' {
            let (line, _) = bytes.split_at(i);
            let (_, rest) = bytes.split_at(i + 1);
            return Some((line, rest));
        }
    }
    None
}
