//! The limits of texts, as constants.
ghost use Rattle.std.specs.Prelude.{◌≡◌};
ghost use Rattle.rn_notation.specs.Limits.{longest_net_text, longest_text};

/// How many bytes a net text has at most.
pub const LONGEST_NET_TEXT: usize = 4_194_304;
/// How many bytes are read as tokens at most.
pub const LONGEST_TEXT: usize = 67_108_864;

/// The constants are the limits that the definitions state.
pub fn limits_are_as_stated()
    ensures net_text { LONGEST_NET_TEXT ≡ longest_net_text }
    ensures text { LONGEST_TEXT ≡ longest_text }
{}
