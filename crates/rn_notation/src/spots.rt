//! Spots in a text.
ghost use Rattle.std.specs.Prelude.{◌≡◌, ◌+◌, ◌<◌, ◌^◌, length};
ghost use Rattle.rn_notation.specs.link.Scanning.{spot_on, next_spot};

use crate::token::Spot;

/// The spot after one more byte.
pub(crate) fn next_spot(spot: Spot, byte: u8) -> Spot
    requires lines { spot.line + 1 < 2 ^ 32 }
    requires columns { spot.column + 1 < 2 ^ 32 }
    ensures { result ≡ next_spot spot byte }
{
    if byte == b'\n' {
        Spot {
            line: spot.line + 1,
            column: 1,
        }
    } else {
        Spot {
            line: spot.line,
            column: spot.column + 1,
        }
    }
}

/// The spot after more bytes.
pub(crate) fn spot_on(from: Spot, bytes: &[u8]) -> Spot
    requires lines { from.line + length bytes.now < 2 ^ 32 }
    requires columns { from.column + length bytes.now < 2 ^ 32 }
    ensures { result ≡ spot_on from bytes.now }
{
    let mut spot = from;
    for byte in bytes {
        spot = next_spot(spot, *byte);
    }
    spot
}
