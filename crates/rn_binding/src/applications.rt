//! The outermost operator applications of a transition, site by site.
ghost use Rattle.std.specs.Prelude.{◌≡◌, ◌++◌, ◌∷◌, [], OnOk, IfOk, map, flat_map};
ghost use Rattle.std.specs.List.{enumerate_from};
ghost use Rattle.rn_model.specs.Systems.{uplink_args};
ghost use Rattle.rn_model.specs.Derivation.{sites_of, sides_of, args_of, uplink_arg, downlink_arg};
ghost use Rattle.rn_model.specs.Derivation.{holes_in, holes_of_parts};
ghost use Rattle.rn_growing.specs.Decisions.{site_of};
ghost use Rattle.rn_binding.specs.link.Applications.{application_of, with_holes, hole_within};
ghost use Rattle.rn_binding.specs.link.Applications.{holes_at, arc_site};

use rn_growing::{Site, Way};
use rn_model::{Downlink, Expr, NetArc, Transition, finds_token};
use rn_value::NoMemory;
use std::alloc::Global;

/// An outermost operator application of a transition: its site, the way to it, and itself.
#[derive(Drop)]
pub struct Application<'a> {
    pub site: Site,
    pub way: Way,
    pub form: &'a Expr,
}

// Puts the outermost operator applications of an expression, to which this way leads.
#[cycle(holes)]
#[tactic(auto, using(crate::proofs::HoleForms::hole_rules))]
fn put_holes<'a>(
    alloc: Global,
    site: Site,
    expr: &'a Expr,
    way: &mut Vec<usize>,
    found: &mut Vec<Application<'a>>,
) -> Result<(), NoMemory>
    ensures way { OnOk result (way.new.items ≡ way.old.items) }
    ensures put { OnOk result (map application_of found.new.items ≡ map application_of found.old.items
        ++ map (hole_within (site_of site) way.old.items) (holes_in expr.now)) }
{
    match expr {
        Expr::Tuple(exprs) => put_holes_of(alloc, site, exprs.as_slice(), way, found),
        Expr::List(exprs) => put_holes_of(alloc, site, exprs.as_slice(), way, found),
        Expr::Cons(exprs, tail) => {
            put_holes_of(alloc, site, exprs.as_slice(), way, found)?;
            way.push(exprs.len())?;
            put_holes(alloc, site, tail.get(), way, found)?;
            way.pop();
            Ok(())
        }
        Expr::Neg(_) => put_hole(alloc, site, expr, way.as_slice(), found),
        Expr::Op(_, _, _) => put_hole(alloc, site, expr, way.as_slice(), found),
        Expr::Int(_) => Ok(()),
        Expr::Text(_) => Ok(()),
        Expr::Var(_) => Ok(()),
        Expr::This => Ok(()),
        Expr::Step => Ok(()),
    }
}

#[cycle(holes)]
fn put_holes_of<'a>(
    alloc: Global,
    site: Site,
    exprs: &'a [Expr],
    way: &mut Vec<usize>,
    found: &mut Vec<Application<'a>>,
) -> Result<(), NoMemory>
    ensures way { OnOk result (way.new.items ≡ way.old.items) }
    ensures put { OnOk result (map application_of found.new.items ≡ map application_of found.old.items
        ++ map (hole_within (site_of site) way.old.items)
        (holes_of_parts 0 (map with_holes exprs.now))) }
{
    for i in 0..exprs.len() {
        way.push(i)?;
        put_holes(alloc, site, &exprs[i], way, found)?;
        way.pop();
    }
    Ok(())
}

// Puts one operator application, to which this way leads.
fn put_hole<'a>(
    alloc: Global,
    site: Site,
    form: &'a Expr,
    way: &[usize],
    found: &mut Vec<Application<'a>>,
) -> Result<(), NoMemory>
    ensures { OnOk result (map application_of found.new.items ≡ map application_of found.old.items
        ++ hole_within (site_of site) way.now (record { way = []; form = form.now }) ∷ []) }
{
    let way = Way::from_vec(Vec::from_slice(alloc, way)?);
    found.push(Application { site, way, form })?;
    Ok(())
}

// Puts the outermost operator applications of an expression at a site.
fn put_site<'a>(
    alloc: Global,
    site: Site,
    expr: &'a Expr,
    found: &mut Vec<Application<'a>>,
) -> Result<(), NoMemory>
    ensures { OnOk result (map application_of found.new.items ≡ map application_of found.old.items
        ++ holes_at (site_of site, expr.now)) }
{
    let mut way = Vec::new(alloc);
    put_holes(alloc, site, expr, &mut way, found)
}

// Puts those of both sides of equalities.
fn put_equalities<'a>(
    alloc: Global,
    equalities: &'a [(Expr, Expr)],
    found: &mut Vec<Application<'a>>,
) -> Result<(), NoMemory>
    ensures { OnOk result (map application_of found.new.items ≡ map application_of found.old.items
        ++ flat_map holes_at (flat_map sides_of (enumerate_from 0 equalities.now))) }
{
    for i in 0..equalities.len() {
        let (left, right) = &equalities[i];
        put_site(alloc, Site::Left(i), left, found)?;
        put_site(alloc, Site::Right(i), right, found)?;
    }
    Ok(())
}

// Puts those of the arguments of an uplink.
fn put_uplink_args<'a>(
    alloc: Global,
    args: &'a [Expr],
    found: &mut Vec<Application<'a>>,
) -> Result<(), NoMemory>
    ensures { OnOk result (map application_of found.new.items ≡ map application_of found.old.items
        ++ flat_map holes_at (map (λ e. (uplink_arg e.0, e.1)) (enumerate_from 0 args.now))) }
{
    for k in 0..args.len() {
        put_site(alloc, Site::UplinkArg(k), &args[k], found)?;
    }
    Ok(())
}

// Puts those of the arguments of a downlink.
fn put_downlink_args<'a>(
    alloc: Global,
    i: usize,
    args: &'a [Expr],
    found: &mut Vec<Application<'a>>,
) -> Result<(), NoMemory>
    ensures { OnOk result (map application_of found.new.items ≡ map application_of found.old.items
        ++ flat_map holes_at (map (λ e. (downlink_arg i e.0, e.1)) (enumerate_from 0 args.now))) }
{
    for k in 0..args.len() {
        put_site(alloc, Site::DownlinkArg(i, k), &args[k], found)?;
    }
    Ok(())
}

fn put_downlinks<'a>(
    alloc: Global,
    downlinks: &'a [Downlink],
    found: &mut Vec<Application<'a>>,
) -> Result<(), NoMemory>
    ensures { OnOk result (map application_of found.new.items ≡ map application_of found.old.items
        ++ flat_map holes_at (flat_map args_of (enumerate_from 0 downlinks.now))) }
{
    for i in 0..downlinks.len() {
        put_downlink_args(alloc, i, downlinks[i].args.as_slice(), found)?;
    }
    Ok(())
}

// Puts those of the inscriptions of arcs that find a token.
fn put_inscriptions<'a>(
    alloc: Global,
    arcs: &'a [NetArc],
    found: &mut Vec<Application<'a>>,
) -> Result<(), NoMemory>
    ensures { OnOk result (map application_of found.new.items ≡ map application_of found.old.items
        ++ flat_map holes_at (flat_map arc_site (enumerate_from 0 arcs.now))) }
{
    for k in 0..arcs.len() {
        if finds_token(arcs[k].kind) {
            put_site(alloc, Site::Inscription(k), &arcs[k].inscription, found)?;
        }
    }
    Ok(())
}

/// The arguments of the uplink of a transition, where it has one.
pub(crate) fn uplink_args(transition: &Transition) -> &[Expr]
    ensures { result.now ≡ uplink_args transition.now }
{
    match &transition.uplink {
        Some(uplink) => uplink.args.as_slice(),
        None => &[],
    }
}

// Puts the operator applications of a node.
fn put_sites<'a>(
    alloc: Global,
    transition: &'a Transition,
    found: &mut Vec<Application<'a>>,
) -> Result<(), NoMemory>
    ensures { OnOk result (map application_of found.new.items ≡ map application_of found.old.items
        ++ flat_map holes_at (sites_of transition.now)) }
{
    put_equalities(alloc, transition.equalities.as_slice(), found)?;
    put_uplink_args(alloc, uplink_args(transition), found)?;
    put_downlinks(alloc, transition.downlinks.as_slice(), found)?;
    put_inscriptions(alloc, transition.arcs.as_slice(), found)
}

/// The outermost operator applications of a transition: of the sides of its equalities, of the
/// arguments of its uplink and its downlinks, and of the inscriptions of arcs that find a token, in
/// the order of the text.
pub fn applications_of<'a>(
    alloc: Global,
    transition: &'a Transition,
) -> Result<Vec<Application<'a>>, NoMemory>
    ensures { IfOk result (λ found. map application_of found.items
        ≡ flat_map holes_at (sites_of transition.now)) }
{
    let mut found = Vec::new(alloc);
    put_sites(alloc, transition, &mut found)?;
    Ok(found)
}
