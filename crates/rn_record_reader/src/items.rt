//! The values of a mark, by the format of the record.
ghost use Rattle.std.specs.Prelude.{◌≡◌, ◌≤◌, ◌<◌, ◌^◌, IfOk, map, nat_le, if◌then◌else◌, Some, None};
ghost use Rattle.rn_lines.specs.link.LinesSeen.{item};
ghost use Rattle.rn_record_reader.specs.Marks.{are_single, parted_from, are_parted, fits_format};
ghost use Rattle.rn_record_reader.specs.Marks.{counted_after, most_told_values, size_of, values_told};

use rn_lines::ReadItem;
use rn_model::Repeats;
use rn_value::{NoMemory, Value, cmp, copy};
use std::alloc::Global;

/// How many values the marks of a record have, at most.
const MOST_TOLD_VALUES: u64 = 67108864;

/// Whether no counts are written.
fn are_single(items: &[ReadItem<'_>]) -> bool
    ensures { result ≡ are_single (map item items.now) }
{
    for item in items {
        if !item.times.is_empty() {
            return false;
        }
    }
    true
}

/// Whether no value is that of its neighbour, where this one stands before them.
fn parted_from(first: &Value, items: &[ReadItem<'_>]) -> bool
    ensures { result ≡ parted_from first.now (map item items.now) }
{
    let mut before = first;
    for item in items {
        if cmp(before, &item.token.value).is_eq() {
            return false;
        }
        before = &item.token.value;
    }
    true
}

/// Whether no value is that of its neighbour.
fn are_parted(items: &[ReadItem<'_>]) -> bool
    ensures { result ≡ are_parted (map item items.now) }
{
    match items {
        [] => true,
        [first, others @ ..] => parted_from(&first.token.value, others),
    }
}

/// Whether items are of a format.
pub(crate) fn fits_format(format: u32, items: &[ReadItem<'_>]) -> bool
    ensures { result ≡ fits_format format (map item items.now) }
{
    if format == 1 {
        are_single(items)
    } else {
        are_parted(items)
    }
}

/// How many values items are, unless these are more than this. No count is looked at beyond it.
fn size_up_to(most: u64, items: &[ReadItem<'_>]) -> Option<u64>
    ensures { result ≡ (if nat_le (size_of (map item items.now)) most
        then Some (size_of (map item items.now)) else None) }
{
    let mut size = 0u64;
    for item in items {
        let Some(times) = item.times_up_to(most - size) else {
            return None;
        };
        size += times;
    }
    Some(size)
}

/// How many values are counted with those of items, unless these are too many.
pub(crate) fn counted_after(format: u32, held: u64, items: &[ReadItem<'_>]) -> Option<u64>
    requires { held ≤ most_told_values }
    ensures { result ≡ (if nat_le (counted_after format held (map item items.now)) most_told_values
        then Some (counted_after format held (map item items.now)) else None) }
{
    if format == 1 {
        return Some(held);
    }
    let size = size_up_to(MOST_TOLD_VALUES - held, items)?;
    Some(held + size)
}

/// The values of items, each as often as it stands there.
pub(crate) fn values_of(alloc: Global, items: &[ReadItem<'_>]) -> Result<Repeats, NoMemory>
    requires { size_of (map item items.now) < 2 ^ 64 }
    ensures { IfOk result (λ vs. vs ≡ values_told (map item items.now)) }
{
    let mut values = Repeats::new(alloc);
    for item in items {
        let Some(times) = item.times_up_to(u64::MAX) else {
            unreachable!()
        };
        if 0 < times {
            values.push(copy(alloc, &item.token.value)?, times)?;
        }
    }
    Ok(values)
}
