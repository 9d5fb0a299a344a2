//! The parts of a transition with numbers in place of names, each in the order of the text.
ghost use Rattle.std.specs.Prelude.{◌≡◌, IfOk, map, flat_map, length, slice_get};
ghost use Rattle.rn_numbered.specs.Numbered.{expr_of, number_in, equality_of, guard_of, action_of};
ghost use Rattle.rn_numbered.specs.Numbered.{creation_of, uplink_of, downlink_of, arc_of};
ghost use Rattle.rn_numbered.specs.link.NumbersFound.{numbers_by, channel_by, expr_of_arc, AreFew, AllFew};

use crate::guards::cond_of;
use crate::numbered::{expr_of, exprs_of};
use crate::numbers::{ChannelNumbers, NameNumbers};
use rn_inscript::{PExpr, PExprs, PInscribed, PInscription, PName};
use rn_items::Items;
use rn_model::{
    Action, Actions, Conds, Creation, Creations, Downlink, Downlinks, Expr, Exprs, NetArc, NetArcs,
    Pairs, Uplink,
};
use rn_value::NoMemory;
use std::alloc::Global;

/// The names of a net and its system, by which numbers are found.
#[derive(Drop)]
pub struct Tables<'a> {
    pub vars: &'a NameNumbers,
    pub places: &'a NameNumbers,
    pub nets: &'a NameNumbers,
    pub channels: &'a ChannelNumbers,
}

/// The arguments of a call.
fn args_of(alloc: Global, args: &PExprs, vars: &NameNumbers) -> Result<Exprs, NoMemory>
    requires { AreFew vars.now }
    ensures { IfOk result (λ made. made ≡ map (λ e. expr_of e (number_in vars.now)) args.now) }
{
    Ok(exprs_of(alloc, args.as_slice(), vars)?)
}

/// The equalities.
pub fn equalities_of(
    alloc: Global,
    inscriptions: &[PInscription],
    tables: &Tables,
) -> Result<Pairs, NoMemory>
    requires { AllFew tables.now }
    ensures { IfOk result (λ made. made
        ≡ flat_map (λ i. equality_of (numbers_by tables.now) i.form) inscriptions.now) }
{
    let mut made = Vec::new(alloc);
    for inscription in inscriptions {
        if let PInscribed::Equality(a, b) = &inscription.form {
            let a = expr_of(alloc, a, tables.vars)?;
            made.push((a, expr_of(alloc, b, tables.vars)?))?;
        }
    }
    Ok(Items::from_vec(made))
}

/// The guards.
pub fn guards_of(
    alloc: Global,
    inscriptions: &[PInscription],
    tables: &Tables,
) -> Result<Conds, NoMemory>
    requires { AllFew tables.now }
    ensures { IfOk result (λ made. made
        ≡ flat_map (λ i. guard_of (numbers_by tables.now) i.form) inscriptions.now) }
{
    let mut made = Vec::new(alloc);
    for inscription in inscriptions {
        if let PInscribed::Guard(cond) = &inscription.form {
            made.push(cond_of(alloc, cond, tables.vars)?)?;
        }
    }
    Ok(Items::from_vec(made))
}

/// The actions.
pub fn actions_of(
    alloc: Global,
    inscriptions: &[PInscription],
    tables: &Tables,
) -> Result<Actions, NoMemory>
    requires { AllFew tables.now }
    ensures { IfOk result (λ made. made
        ≡ flat_map (λ i. action_of (numbers_by tables.now) i.form) inscriptions.now) }
{
    let mut made = Vec::new(alloc);
    for inscription in inscriptions {
        match &inscription.form {
            PInscribed::Print(e) => made.push(Action::Print(expr_of(alloc, e, tables.vars)?))?,
            PInscribed::Set { var, value } => {
                let var = tables.vars.number(&var.text);
                let value = expr_of(alloc, value, tables.vars)?;
                made.push(Action::Set { var, value })?;
            }
            _ => {}
        }
    }
    Ok(Items::from_vec(made))
}

/// The creations.
pub fn creations_of(
    alloc: Global,
    inscriptions: &[PInscription],
    tables: &Tables,
) -> Result<Creations, NoMemory>
    requires { AllFew tables.now }
    ensures { IfOk result (λ made. made
        ≡ flat_map (λ i. creation_of (numbers_by tables.now) i.form) inscriptions.now) }
{
    let mut made = Vec::new(alloc);
    for inscription in inscriptions {
        if let PInscribed::New { var, net } = &inscription.form {
            let var = tables.vars.number(&var.text);
            let net = tables.nets.number(&net.text);
            made.push(Creation { var, net })?;
        }
    }
    Ok(Items::from_vec(made))
}

/// The first uplink.
pub fn uplink_of(
    alloc: Global,
    inscriptions: &[PInscription],
    tables: &Tables,
) -> Result<Option<Uplink>, NoMemory>
    requires { AllFew tables.now }
    ensures { IfOk result (λ made. made
        ≡ slice_get (flat_map (λ i. uplink_of (numbers_by tables.now) i.form) inscriptions.now) 0) }
{
    for inscription in inscriptions {
        if let PInscribed::Uplink { channel, args } = &inscription.form {
            let channel = tables.channels.number(alloc, &channel.text, args.len())?;
            let args = args_of(alloc, args, tables.vars)?;
            return Ok(Some(Uplink { channel, args }));
        }
    }
    Ok(None)
}

/// A downlink.
fn downlink(
    alloc: Global,
    target: &PExpr,
    channel: &PName,
    args: &PExprs,
    tables: &Tables,
) -> Result<Downlink, NoMemory>
    requires { AllFew tables.now }
    ensures { IfOk result (λ made. made ≡ record {
      target = expr_of target.now (number_in tables.now.vars.now);
      channel = channel_by tables.now.channels.now channel.now.text (length args.now);
      args = map (λ e. expr_of e (number_in tables.now.vars.now)) args.now;
    }) }
{
    let channel = tables.channels.number(alloc, &channel.text, args.len())?;
    let target = expr_of(alloc, target, tables.vars)?;
    Ok(Downlink {
        target,
        channel,
        args: args_of(alloc, args, tables.vars)?,
    })
}

/// The downlinks.
pub fn downlinks_of(
    alloc: Global,
    inscriptions: &[PInscription],
    tables: &Tables,
) -> Result<Downlinks, NoMemory>
    requires { AllFew tables.now }
    ensures { IfOk result (λ made. made
        ≡ flat_map (λ i. downlink_of (numbers_by tables.now) i.form) inscriptions.now) }
{
    let mut made = Vec::new(alloc);
    for inscription in inscriptions {
        if let PInscribed::Downlink {
            target,
            channel,
            args,
        } = &inscription.form
        {
            made.push(downlink(alloc, target, channel, args, tables)?)?;
        }
    }
    Ok(Items::from_vec(made))
}

/// The inscription of an arc, and the empty list where it is absent.
fn arc_expr_of(alloc: Global, e: &Option<PExpr>, vars: &NameNumbers) -> Result<Expr, NoMemory>
    requires { AreFew vars.now }
    ensures { IfOk result (λ made. made ≡ expr_of_arc e.now (number_in vars.now)) }
{
    match e {
        Some(e) => expr_of(alloc, e, vars),
        None => Ok(Expr::List(Items::new(alloc))),
    }
}

/// The arcs.
pub fn arcs_of(
    alloc: Global,
    inscriptions: &[PInscription],
    tables: &Tables,
) -> Result<NetArcs, NoMemory>
    requires { AllFew tables.now }
    ensures { IfOk result (λ made. made
        ≡ flat_map (λ i. arc_of (numbers_by tables.now) i.form) inscriptions.now) }
{
    let mut made = Vec::new(alloc);
    for inscription in inscriptions {
        if let PInscribed::Arc {
            kind,
            place,
            inscription: e,
        } = &inscription.form
        {
            let place = tables.places.number(&place.text);
            let e = arc_expr_of(alloc, e, tables.vars)?;
            made.push(NetArc {
                kind: *kind,
                place,
                inscription: e,
            })?;
        }
    }
    Ok(Items::from_vec(made))
}
