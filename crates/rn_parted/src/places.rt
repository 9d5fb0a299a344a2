//! The places of an instance beside the one that parts: what they hold before and after a change.
ghost use Rattle.std.specs.Prelude.{◌≡◌, ◌≢◌, ◌<◌, ◌≤◌, ℕ, [], true, false, length, slice_get};
ghost use Rattle.std.specs.Prelude.{unwrap_or, Contains, Some};
ghost use Rattle.rn_value.specs.declared.value.Value.{Value};
ghost use Rattle.rn_table.specs.Alone.{with_tokens};
ghost use Rattle.rn_parted.specs.link.Walks.{Avoids};

use crate::touching::touches;
use indexmap::IndexSet;
use rn_bag::Bag;
use rn_table::Inst;
use rn_value::same;

/// How many tokens the other places may hold, so that comparing them stays cheap.
const MOST: usize = 64;

// Whether two bags have the same token at an index.
fn is_same_at(a: &Bag, b: &Bag, index: usize) -> bool
    ensures { result ≡ true → slice_get a.now index ≡ slice_get b.now index }
{
    match a.get(index) {
        None => b.get(index).is_none(),
        Some(token) => match b.get(index) {
            None => false,
            Some(other) => same(token, other),
        },
    }
}

// Whether two bags hold the same tokens.
fn are_same(a: &Bag, b: &Bag) -> bool
    ensures { result ≡ true → a.now ≡ b.now }
{
    if a.len() != b.len() {
        return false;
    }
    for index in 0..a.len() {
        if !is_same_at(a, b, index) {
            return false;
        }
    }
    true
}

/// Whether the other places hold few tokens.
pub(crate) fn is_light(inst: &Inst, place: u32) -> bool {
    let mut count: usize = 0;
    for other in 0..u32::MAX {
        let Some(bag) = inst.bag(other) else {
            return true;
        };
        if other != place {
            count = count.saturating_add(bag.len());
        }
        if count > MOST {
            return false;
        }
    }
    false
}

// Whether a place is the one, or holds the same in two instances.
fn is_same_place(before: &Inst, after: &Inst, place: u32, other: u32) -> bool
    ensures { result ≡ true → other ≢ place →
        slice_get before.now.places other ≡ slice_get after.now.places other }
{
    if other == place {
        return true;
    }
    let Some(first) = before.bag(other) else {
        return false;
    };
    let Some(second) = after.bag(other) else {
        return false;
    };
    are_same(first, second)
}

// Whether an instance has no such place.
fn is_past(inst: &Inst, place: u32) -> bool
    ensures yes { result ≡ true → length inst.now.places ≤ place }
    ensures no { result ≡ false → place < length inst.now.places }
{
    inst.bag(place).is_none()
}

// Whether two instances have as many places, and each but one holds the same in both.
fn others_same(before: &Inst, after: &Inst, place: u32) -> bool
    ensures long { result ≡ true → length before.now.places ≡ length after.now.places }
    ensures same { result ≡ true → (p : ℕ) → p ≢ place →
        slice_get before.now.places p ≡ slice_get after.now.places p }
{
    for other in 0..u32::MAX {
        if is_past(before, other) {
            return is_past(after, other);
        }
        if is_past(after, other) {
            return false;
        }
        if !is_same_place(before, after, place, other) {
            return false;
        }
    }
    false
}

/// Whether an instance is the same before and after but for the tokens of one place.
pub(crate) fn is_same_beside(before: &Inst, after: &Inst, place: u32) -> bool
    ensures { result ≡ true →
        with_tokens place [] before.now ≡ with_tokens place [] after.now }
{
    if before.number() != after.number() {
        return false;
    }
    if before.net() != after.net() {
        return false;
    }
    others_same(before, after, place)
}

// Whether the token of an index mentions none of these instances, but the one that doesn't count.
fn avoids_at(bag: &Bag, index: usize, found: &IndexSet<u32>, but: u32) -> bool
    ensures { result ≡ true → (v : Value) → slice_get bag.now index ≡ Some v →
        Avoids found.now.keys but v }
{
    let Some(token) = bag.get(index) else {
        return true;
    };
    !touches(token, found, but)
}

// Whether no token of a bag does.
fn bag_avoids(bag: &Bag, found: &IndexSet<u32>, but: u32) -> bool
    ensures { result ≡ true → (v : Value) → Contains bag.now v → Avoids found.now.keys but v }
{
    for index in 0..bag.len() {
        if !avoids_at(bag, index, found, but) {
            return false;
        }
    }
    true
}

// Whether no token of a place does, unless it is the one that doesn't count.
fn place_avoids(bag: &Bag, is_own: bool, found: &IndexSet<u32>, but: u32) -> bool
    ensures { result ≡ true → is_own ≡ false → (v : Value) → Contains bag.now v →
        Avoids found.now.keys but v }
{
    is_own || bag_avoids(bag, found, but)
}

/// Whether no other place of an instance holds a token that mentions one of these, but the instance
/// that doesn't count.
pub(crate) fn others_avoid(inst: &Inst, place: u32, found: &IndexSet<u32>, but: u32) -> bool
    ensures { result ≡ true → (p : ℕ) (v : Value) → p ≢ place →
        Contains (unwrap_or (slice_get inst.now.places p) []) v → Avoids found.now.keys but v }
{
    for other in 0..u32::MAX {
        let Some(bag) = inst.bag(other) else {
            return true;
        };
        if !place_avoids(bag, other == place, found, but) {
            return false;
        }
    }
    false
}
