//! Terms of expressions, built in a store. A variable or an outermost operator application of a
//! node is an unknown with one id, so all expressions share what is known of it. A list before a
//! tail makes the tail a list at once, so nothing is built before its equation comes in.
ghost use Rattle.std.specs.Prelude.{◌≡◌, IfOk, Some};
ghost use Rattle.rn_value.specs.declared.value.Value.TheVariants as Worth;
ghost use Rattle.rn_growing.specs.link.Building.{BuildsAllOr, BuildsOr, part_at, parts_at};
ghost use Rattle.rn_growing.specs.Decisions.{site_of};
ghost use Rattle.rn_growing.specs.link.Laid.{Builds, Grows};

use crate::decision::{Head, Site};
use crate::laid::Laid;
use crate::slot::Unknown;
use rn_items::Items;
use rn_model::Expr;
use rn_term::Ids;
use rn_value::{NoMemory, Value, copy_inst};
use std::alloc::Global;

/// Builds an expression that stands at a site of a node, or says that it has no value under any
/// assignment given. `way` leads to it, and is as it was afterwards.
///
/// A list before a tail makes the tail a list, for whoever uses it. So an expression is built no
/// sooner than its equation comes in. It recurses as deep as the expression nests.
#[cycle(building)]
pub(crate) fn build(
    expr: &Expr,
    alloc: Global,
    laid: &mut Laid,
    head: &Head,
    site: Site,
    way: &mut Vec<usize>,
) -> Result<Option<usize>, NoMemory>
    ensures built { IfOk result (λ told. BuildsOr laid.old
        (λ a. part_at a head.now (site_of site) way.old.items expr.now) laid.new told) }
    ensures grows { Grows laid.old laid.new }
    ensures way { IfOk result (λ told. way.new.items ≡ way.old.items) }
{
    match expr {
        Expr::Int(n) => {
            let number = int_value(n);
            let id = laid.atom(number)?;
            Ok(Some(id))
        }
        Expr::Text(text) => {
            let text = text.share()?;
            let id = laid.atom(Value::Text(text))?;
            Ok(Some(id))
        }
        Expr::Var(x) => {
            let id = laid.unknown(alloc, &head.path, Unknown::Var(*x))?;
            Ok(Some(id))
        }
        Expr::This => {
            let inst = copy_inst(alloc, &head.inst)?;
            let id = laid.atom(Value::Inst(inst))?;
            Ok(Some(id))
        }
        Expr::Step => Ok(None),
        Expr::Tuple(parts) => match build_parts(parts.as_slice(), alloc, laid, head, site, way)? {
            Some(ids) => {
                let id = laid.tuple(ids)?;
                Ok(Some(id))
            }
            None => Ok(None),
        },
        Expr::List(parts) => match build_parts(parts.as_slice(), alloc, laid, head, site, way)? {
            Some(ids) => {
                let id = laid.list(ids)?;
                Ok(Some(id))
            }
            None => Ok(None),
        },
        Expr::Cons(parts, tail) => {
            let ids = match build_parts(parts.as_slice(), alloc, laid, head, site, way)? {
                Some(ids) => ids,
                None => return Ok(None),
            };
            way.push(parts.len())?;
            let built = build(tail.get(), alloc, laid, head, site, way)?;
            way.pop();
            match built {
                Some(rest) => laid.cons(alloc, ids, rest),
                None => Ok(None),
            }
        }
        Expr::Neg(_) => {
            let id = build_hole(alloc, laid, head, site, way.as_slice())?;
            Ok(Some(id))
        }
        Expr::Op(_, _, _) => {
            let id = build_hole(alloc, laid, head, site, way.as_slice())?;
            Ok(Some(id))
        }
    }
}

#[cycle(building)]
fn build_parts(
    exprs: &[Expr],
    alloc: Global,
    laid: &mut Laid,
    head: &Head,
    site: Site,
    way: &mut Vec<usize>,
) -> Result<Option<Ids>, NoMemory>
    ensures built { IfOk result (λ told. BuildsAllOr laid.old
        (λ a. parts_at a head.now (site_of site) way.old.items 0 exprs.now) laid.new told) }
    ensures grows { Grows laid.old laid.new }
    ensures way { IfOk result (λ told. way.new.items ≡ way.old.items) }
{
    // For its clause: the ids of the slots are ids of the store.
    let _laid = laid.frame();
    let mut ids = Vec::new(alloc);
    for i in 0..exprs.len() {
        way.push(i)?;
        match build(&exprs[i], alloc, laid, head, site, way)? {
            Some(id) => ids.push(id)?,
            None => {
                way.pop();
                return Ok(None);
            }
        }
        way.pop();
    }
    Ok(Some(Items::from_vec(ids)))
}

/// The id of the operator application at the end of a way.
pub(crate) fn build_hole(
    alloc: Global,
    laid: &mut Laid,
    head: &Head,
    site: Site,
    way: &[usize],
) -> Result<usize, NoMemory>
    ensures built { IfOk result (λ id. Builds laid.old
        (λ a. Some (a.hole head.now.path (site_of site) way.now)) laid.new id) }
    ensures grows { Grows laid.old laid.new }
{
    let way = Items::from_vec(Vec::from_slice(alloc, way)?);
    laid.unknown(alloc, &head.path, Unknown::Hole(site, way))
}

fn int_value(n: &i64) -> Value
    ensures { result ≡ Worth.Int n.now }
{
    Value::Int(*n)
}
