//! The values of a mark, with their counts.
ghost use Rattle.std.specs.Prelude.{◌≡◌, nat_le, if◌then◌else◌, length, map, Some, None};
ghost use Rattle.rn_lines.specs.LineReading.{count_at, item_at, items_at};
ghost use Rattle.rn_lines.specs.LineText.{times_of};
ghost use Rattle.rn_lines.specs.link.LinesSeen.{item};
ghost use Rattle.rn_lines.specs.Reading.{ReturnsRead};

use crate::instances::byte_at;
use crate::lines::ReadToken;
use crate::numerals::{number_up_to, several_at};
use crate::unread::Unread;
use crate::values::front_at;
use std::alloc::Global;

/// A value in a mark, as `5*3`, and the digits of the count behind it, none where no count is
/// written.
#[derive(Debug, Drop)]
pub struct ReadItem<'a> {
    pub token: ReadToken<'a>,
    pub times: &'a [u8],
}

impl ReadItem<'_> {
    /// How often the value stands there, unless that is more than this.
    pub fn times_up_to(&self, most: u64) -> Option<u64>
        ensures { result ≡ (if nat_le (times_of (item self.now)) most
            then Some (times_of (item self.now)) else None) }
    {
        if self.times.is_empty() {
            return number_up_to(most, b"1");
        }
        number_up_to(most, self.times)
    }
}

/// The digits of the count that bytes begin with, and the bytes after them. There are none where no
/// `*` stands first.
fn count_at(bytes: &[u8]) -> Result<(&[u8], &[u8]), Unread>
    ensures { ReturnsRead (λ x. (x.0.now, x.1.now)) result (count_at bytes.now) }
{
    let Some((first, rest)) = bytes.split_first() else {
        return Ok((&[], bytes));
    };
    if *first == b'*' {
        return several_at(rest);
    }
    Ok((&[], bytes))
}

/// An item behind a space, and the bytes after it.
fn item_at(alloc: Global, bytes: &[u8]) -> Result<(ReadItem<'_>, &[u8]), Unread>
    ensures { ReturnsRead (λ x. (item x.0, x.1.now)) result (item_at bytes.now) }
{
    let read = front_at(alloc, byte_at(b' ', bytes)?)?;
    let (times, rest) = count_at(read.rest)?;
    let token = ReadToken {
        value: read.value,
        mentions: read.mentions,
    };
    Ok((ReadItem { token, times }, rest))
}

/// Items up to the end of the bytes, each behind a space.
pub(crate) fn items_at(alloc: Global, bytes: &[u8]) -> Result<Vec<ReadItem<'_>>, Unread>
    ensures { ReturnsRead (λ v. map item v.items) result (items_at (length bytes.now) bytes.now) }
{
    let mut items = Vec::new(alloc);
    let mut rest = bytes;
    let most = bytes.len();
    for _ in 0..most {
        if rest.is_empty() {
            return Ok(items);
        }
        let (item, more) = item_at(alloc, rest)?;
        items.push(item)?;
        rest = more;
    }
    if rest.is_empty() {
        Ok(items)
    } else {
        Err(Unread::NotThere)
    }
}
