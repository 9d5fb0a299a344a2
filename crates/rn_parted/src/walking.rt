//! The shares of a place at another table: one walk over its tokens, which ascend, beside the
//! shares, which do too. Nothing rests on that order but that few shares are made anew.
ghost use Rattle.std.specs.Prelude.{◌≡◌, ◌≤◌, ◌+◌, ◌++◌, ◌∷◌, [], ℕ, List, true, false, length};
ghost use Rattle.std.specs.Prelude.{take, drop, slice_get, IfOk, OnOk, IfSome, MatchOption};
ghost use Rattle.std.specs.Prelude.{Contains};
ghost use Rattle.rn_value.specs.declared.value.Value.{Value as Token};
ghost use Rattle.rn_parted.specs.declared.share.Share.{Share};
ghost use Rattle.rn_model.specs.Markings.{Marking, tokens_at};
ghost use Rattle.rn_finder.specs.Starting.{IsSearchable};
ghost use Rattle.rn_parted.specs.Parted.{AreShares, IsShare};
ghost use Rattle.rn_parted.specs.link.Walks.{Avoids, HasComeTo, SharesStay};

use crate::alone::share_of;
use crate::marked::Site;
use crate::share::Share;
use crate::touching::touches;
use indexmap::IndexSet;
use rn_bag::Bag;
use rn_finder::Room;
use rn_items::NoMemory;
use rn_value::{Value, cmp, same};
use std::alloc::Global;

/// A walk over the tokens of a place after a change, and what may reach a changed instance.
#[derive(Clone, Copy)]
pub(crate) struct Walk<'a> {
    pub alloc: Global,
    pub site: Site<'a>,
    pub found: &'a IndexSet<u32>,
}

// Whether a share is to go: its token comes before another, or is the same and mentions what was
// found.
fn is_stale(walk: Walk<'_>, share: &Share, token: &Value) -> bool
    ensures { result ≡ false → share.now.token ≡ token.now →
        Avoids walk.entry.found.now.keys walk.entry.site.instance share.now.token }
{
    if same(&share.token, token) {
        return touches(&share.token, walk.found, walk.site.instance);
    }
    cmp(&share.token, token).is_lt()
}

// The same of the share at an index, where there is one.
fn is_stale_at(walk: Walk<'_>, shares: &[Share], index: usize, token: &Value) -> bool
    ensures { result ≡ false → IfSome (slice_get shares.now index) (λ s. s.token ≡ token.now →
        Avoids walk.entry.found.now.keys walk.entry.site.instance s.token) }
{
    match shares.get(index) {
        Some(share) => is_stale(walk, share, token),
        None => false,
    }
}

// Shares from the cursor on go, up to one that isn't stale.
fn drop_stale(walk: Walk<'_>, token: &Value, shares: &mut Vec<Share>, cursor: usize)
    ensures before { take cursor shares.new.items ≡ take cursor shares.old.items }
    ensures ahead { (s : Share) → Contains (drop cursor shares.new.items) s →
        Contains (drop cursor shares.old.items) s }
    ensures long { cursor ≤ length shares.old.items → cursor ≤ length shares.new.items }
    ensures fresh { IfSome (slice_get shares.new.items cursor) (λ s. s.token ≡ token.now →
        Avoids walk.entry.found.now.keys walk.entry.site.instance s.token) }
{
    'stale: while cursor < shares.len() {
        if !is_stale_at(walk, shares.as_slice(), cursor, token) {
            return;
        }
        let _gone = shares.remove(cursor);
    }
}

// Whether the share at an index is that of a token.
fn is_at(shares: &[Share], index: usize, token: &Value) -> bool
    ensures { result ≡ true →
        MatchOption (slice_get shares.now index) ⊥ (λ s. s.token ≡ token.now) }
{
    match shares.get(index) {
        Some(share) => same(&share.token, token),
        None => false,
    }
}

// The share of one token more: the kept one, or one that is made anew.
fn settle(
    walk: Walk<'_>,
    token: &Value,
    shares: &mut Vec<Share>,
    cursor: usize,
    room: &mut Room,
) -> Result<(), NoMemory>
    requires searched { IsSearchable walk.site.marked.system.now walk.site.marked.uplinks.now
        walk.site.marked.table.now }
    requires there { Contains (tokens_at walk.site.marked.table.now.marking walk.site.instance
        walk.site.place) token.now }
    requires within { cursor ≤ length shares.old.items }
    ensures within { OnOk result (cursor + 1 ≤ length shares.new.items) }
    ensures come { OnOk result ((other : Marking) (before : List Token) →
        SharesStay walk.entry.site.marked.system.now other
        walk.entry.site.marked.table.now.marking walk.entry.site.marked.depth
        walk.entry.site.instance walk.entry.site.place walk.entry.found.now.keys →
        HasComeTo walk.entry.site.marked.system.now other
        walk.entry.site.marked.table.now.marking walk.entry.site.marked.depth
        walk.entry.site.instance walk.entry.site.place cursor before shares.old.items →
        HasComeTo walk.entry.site.marked.system.now other
        walk.entry.site.marked.table.now.marking walk.entry.site.marked.depth
        walk.entry.site.instance walk.entry.site.place (cursor + 1) (before ++ token.now ∷ [])
        shares.new.items) }
{
    drop_stale(walk, token, shares, cursor);
    if is_at(shares.as_slice(), cursor, token) {
        return Ok(());
    }
    let share = share_of(walk.alloc, walk.site, token, room)?;
    shares.insert(cursor, share)?;
    Ok(())
}

// The share of one token more, unless it is that of the token before. It returns where the cursor
// is then.
fn settle_next(
    walk: Walk<'_>,
    token: &Value,
    shares: &mut Vec<Share>,
    cursor: usize,
    room: &mut Room,
) -> Result<usize, NoMemory>
    requires searched { IsSearchable walk.site.marked.system.now walk.site.marked.uplinks.now
        walk.site.marked.table.now }
    requires there { Contains (tokens_at walk.site.marked.table.now.marking walk.site.instance
        walk.site.place) token.now }
    requires within { cursor ≤ length shares.old.items }
    ensures within { IfOk result (λ end. end ≤ length shares.new.items) }
    ensures come { IfOk result (λ end. (other : Marking) (before : List Token) →
        SharesStay walk.entry.site.marked.system.now other
        walk.entry.site.marked.table.now.marking walk.entry.site.marked.depth
        walk.entry.site.instance walk.entry.site.place walk.entry.found.now.keys →
        HasComeTo walk.entry.site.marked.system.now other
        walk.entry.site.marked.table.now.marking walk.entry.site.marked.depth
        walk.entry.site.instance walk.entry.site.place cursor before shares.old.items →
        HasComeTo walk.entry.site.marked.system.now other
        walk.entry.site.marked.table.now.marking walk.entry.site.marked.depth
        walk.entry.site.instance walk.entry.site.place end (before ++ token.now ∷ [])
        shares.new.items) }
{
    if cursor > 0 && is_at(shares.as_slice(), cursor - 1, token) {
        return Ok(cursor);
    }
    settle(walk, token, shares, cursor, room)?;
    Ok(cursor + 1)
}

// The shares of some tokens more. It returns where the cursor is then.
fn settle_all(
    walk: Walk<'_>,
    tokens: &[Value],
    shares: &mut Vec<Share>,
    cursor: usize,
    room: &mut Room,
) -> Result<usize, NoMemory>
    requires searched { IsSearchable walk.site.marked.system.now walk.site.marked.uplinks.now
        walk.site.marked.table.now }
    requires there { (v : Token) → Contains tokens.now v →
        Contains (tokens_at walk.site.marked.table.now.marking walk.site.instance
        walk.site.place) v }
    requires within { cursor ≤ length shares.old.items }
    ensures within { IfOk result (λ end. end ≤ length shares.new.items) }
    ensures come { IfOk result (λ end. (other : Marking) (before : List Token) →
        SharesStay walk.entry.site.marked.system.now other
        walk.entry.site.marked.table.now.marking walk.entry.site.marked.depth
        walk.entry.site.instance walk.entry.site.place walk.entry.found.now.keys →
        HasComeTo walk.entry.site.marked.system.now other
        walk.entry.site.marked.table.now.marking walk.entry.site.marked.depth
        walk.entry.site.instance walk.entry.site.place cursor before shares.old.items →
        HasComeTo walk.entry.site.marked.system.now other
        walk.entry.site.marked.table.now.marking walk.entry.site.marked.depth
        walk.entry.site.instance walk.entry.site.place end (before ++ tokens.now)
        shares.new.items) }
{
    let mut end = cursor;
    for token in tokens {
        end = settle_next(walk, token, shares, end, room)?;
    }
    Ok(end)
}

/// The shares of the tokens of a bag, from those at another marking.
pub(crate) fn settle_bag(
    walk: Walk<'_>,
    bag: &Bag,
    shares: &mut Vec<Share>,
    room: &mut Room,
) -> Result<(), NoMemory>
    requires searched { IsSearchable walk.site.marked.system.now walk.site.marked.uplinks.now
        walk.site.marked.table.now }
    requires bag { bag.now ≡ tokens_at walk.site.marked.table.now.marking walk.site.instance
        walk.site.place }
    ensures { OnOk result ((other : Marking) →
        SharesStay walk.entry.site.marked.system.now other
        walk.entry.site.marked.table.now.marking walk.entry.site.marked.depth
        walk.entry.site.instance walk.entry.site.place walk.entry.found.now.keys →
        ((s : Share) → Contains shares.old.items s → IsShare walk.entry.site.marked.system.now
        other walk.entry.site.marked.depth walk.entry.site.instance walk.entry.site.place s) →
        AreShares walk.entry.site.marked.system.now
        walk.entry.site.marked.table.now.marking walk.entry.site.marked.depth
        walk.entry.site.instance walk.entry.site.place bag.now shares.new.items) }
{
    let mut cursor = 0;
    let mut index = 0;
    'runs: while index < bag.len() {
        let tokens = bag.run_from(index);
        cursor = settle_all(walk, tokens, shares, cursor, room)?;
        index += tokens.len();
    }
    shares.truncate(cursor);
    Ok(())
}
