//! The first of the bindings that start in an instance, where a place of it is empty or holds one
//! of its tokens alone.
ghost use Rattle.std.specs.Prelude.{◌≡◌, IfOk, IfSome, Contains};
ghost use Rattle.std.specs.Option.{option_copied, option_to_list};
ghost use Rattle.rn_model.specs.Markings.{tokens_at};
ghost use Rattle.rn_finder.specs.Starting.{IsSearchable};
ghost use Rattle.rn_parted.specs.Parted.{IsFirstWith, IsShare};

use crate::marked::Site;
use crate::share::Share;
use rn_binding::Candidate;
use rn_finder::{Room, least_of};
use rn_items::NoMemory;
use rn_value::{Value, copy};
use std::alloc::Global;

/// The first where the place holds this token alone, or none.
pub(crate) fn first_alone(
    alloc: Global,
    site: Site<'_>,
    token: Option<&Value>,
    room: &mut Room,
) -> Result<Option<Candidate>, NoMemory>
    requires searched { IsSearchable site.marked.system.now site.marked.uplinks.now
        site.marked.table.now }
    requires there { IfSome (option_copied token)
        (Contains (tokens_at site.marked.table.now.marking site.instance site.place)) }
    ensures { IfOk result (IsFirstWith site.entry.marked.system.now
        site.entry.marked.table.now.marking site.entry.marked.depth site.entry.instance
        site.entry.place (option_to_list (option_copied token.entry))) }
{
    let marked = site.marked;
    let table = marked.table.with_alone(site.instance, site.place, token)?;
    least_of(
        alloc,
        marked.system,
        marked.uplinks,
        &table,
        marked.depth,
        site.instance,
        room,
    )
}

/// The share of a token of the place.
pub(crate) fn share_of(
    alloc: Global,
    site: Site<'_>,
    token: &Value,
    room: &mut Room,
) -> Result<Share, NoMemory>
    requires searched { IsSearchable site.marked.system.now site.marked.uplinks.now
        site.marked.table.now }
    requires there { Contains (tokens_at site.marked.table.now.marking site.instance site.place)
        token.now }
    ensures share { IfOk result (IsShare site.entry.marked.system.now
        site.entry.marked.table.now.marking site.entry.marked.depth site.entry.instance
        site.entry.place) }
    ensures token { IfOk result (λ s. s.token ≡ token.now) }
{
    let token = copy(alloc, token)?;
    let first = first_alone(alloc, site, Some(&token), room)?;
    Ok(Share { token, first })
}
