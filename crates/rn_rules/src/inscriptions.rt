//! Inscriptions: what is broken in them is reported.
ghost use Rattle.std.specs.Prelude.{◌≡◌, OnOk, if◌then◌else◌, is_some};
ghost use Rattle.rn_model.specs.Systems.{is_output};
ghost use Rattle.rn_declared.specs.Faults.{first_from};
ghost use Rattle.rn_declared.specs.link.Tables.{found_in};
ghost use Rattle.rn_rules.specs.Counted.{counted_faults};
ghost use Rattle.rn_rules.specs.Transitions.{inscription_faults, in_action, in_output, elsewhere};
ghost use Rattle.rn_rules.specs.Transitions.{set_action_faults, channel_faults, uplink_faults, downlink_faults};
ghost use Rattle.rn_rules.specs.link.Scopes.{scope_in, progress_of};
ghost use Rattle.rn_rules.specs.link.Sights.{where_of};

use crate::arcs::see_arc;
use crate::calls::{see_call, see_creation, see_left, see_target, see_value};
use crate::conditions::{see_condition, see_sides};
use crate::counted::{is_flex_output, see_counted};
use crate::scope::{KnownNames, Stand};
use crate::seeing::see;
use crate::sight::Here;
use rn_declared::{First, Numbers, Rule};
use rn_inscript::{PExpr, PExprs, PInscribed, PInscription, PName};
use rn_model::ArcKind;
use rn_notation::Spot;
use rn_value::NoMemory;
use std::alloc::Global;

fn in_action<'a, N: Numbers>(known: &KnownNames<'a, N>, stand: &Stand<'a>) -> Here<'a, N>
    ensures { where_of result ≡ in_action (scope_in known.now) (progress_of stand.now) }
{
    Here {
        vars: known.vars,
        setters: stand.setters,
        past: stand.past,
        step_may: true,
    }
}

fn in_output<'a, N: Numbers>(known: &KnownNames<'a, N>, stand: &Stand<'a>) -> Here<'a, N>
    ensures { where_of result ≡ in_output (scope_in known.now) (progress_of stand.now) }
{
    Here {
        vars: known.vars,
        setters: stand.setters,
        past: stand.sets,
        step_may: false,
    }
}

fn elsewhere<'a, N: Numbers>(known: &KnownNames<'a, N>, stand: &Stand<'a>) -> Here<'a, N>
    ensures { where_of result ≡ elsewhere (scope_in known.now) (progress_of stand.now) }
{
    Here {
        vars: known.vars,
        setters: stand.setters,
        past: 0,
        step_may: false,
    }
}

fn of_arc<'a, N: Numbers>(
    kind: ArcKind,
    known: &KnownNames<'a, N>,
    stand: &Stand<'a>,
) -> Here<'a, N>
    ensures { where_of result ≡ (if is_output kind
        then in_output (scope_in known.now) (progress_of stand.now)
        else elsewhere (scope_in known.now) (progress_of stand.now)) }
{
    match kind {
        ArcKind::Output => in_output(known, stand),
        ArcKind::FlexOutput => in_output(known, stand),
        _ => elsewhere(known, stand),
    }
}

/// Reports what is broken in an action that sets a variable.
fn see_set<N: Numbers>(
    alloc: Global,
    var: &PName,
    value: &PExpr,
    known: &KnownNames<N>,
    stand: &Stand,
    first: &mut First,
) -> Result<(), NoMemory>
    ensures { OnOk result (first.new.fault ≡ first_from first.old.fault
        (set_action_faults (scope_in known.now) (progress_of stand.now) var.now value.now)) }
{
    let here = Here {
        vars: known.vars,
        setters: stand.setters,
        past: stand.past,
        step_may: true,
    };
    see_left(var, stand.past, &here, first);
    see_value(alloc, known.vars.pattern(&var.text), value, &here, first)?;
    Ok(())
}

/// Reports what is broken in a call of a channel.
fn see_channel<N: Numbers>(
    alloc: Global,
    channel: &PName,
    args: &PExprs,
    known: &KnownNames<N>,
    stand: &Stand,
    first: &mut First,
) -> Result<(), NoMemory>
    ensures { OnOk result (first.new.fault ≡ first_from first.old.fault
        (channel_faults (scope_in known.now) (progress_of stand.now) channel.now args.now)) }
{
    let here = elsewhere(known, stand);
    let patterns = known.channels.patterns(&channel.text, args.len());
    see_call(alloc, patterns, channel, args.as_slice(), &here, first)?;
    Ok(())
}

/// Reports what is broken in an uplink.
fn see_uplink<N: Numbers>(
    alloc: Global,
    spot: Spot,
    channel: &PName,
    args: &PExprs,
    known: &KnownNames<N>,
    stand: &Stand,
    first: &mut First,
) -> Result<(), NoMemory>
    ensures { OnOk result (first.new.fault ≡ first_from first.old.fault
        (uplink_faults (scope_in known.now) (progress_of stand.now) spot channel.now args.now)) }
{
    first.tell_if(stand.called, Rule::Uplink, spot);
    see_channel(alloc, channel, args, known, stand, first)?;
    Ok(())
}

/// Reports what is broken in a downlink.
fn see_downlink<N: Numbers>(
    alloc: Global,
    target: &PExpr,
    channel: &PName,
    args: &PExprs,
    known: &KnownNames<N>,
    stand: &Stand,
    first: &mut First,
) -> Result<(), NoMemory>
    ensures { OnOk result (first.new.fault ≡ first_from first.old.fault
        (downlink_faults (scope_in known.now) (progress_of stand.now) target.now channel.now args.now)) }
{
    let here = elsewhere(known, stand);
    see_target(alloc, target, &here, first)?;
    see_channel(alloc, channel, args, known, stand, first)?;
    Ok(())
}

/// Reports an arc that puts the elements of a list that an action gives, where its place has a
/// capacity. Of other arcs the place isn't looked up.
#[tactic(auto, using(crate::proofs::CountedLemmas::none_uncounted))]
fn see_count<N: Numbers>(
    kind: ArcKind,
    place: &PName,
    inscription: &Option<PExpr>,
    known: &KnownNames<N>,
    stand: &Stand,
    first: &mut First,
)
    ensures { first.new.fault ≡ first_from first.old.fault (counted_faults kind
        ((scope_in known.now).has_capacity place.now.text) inscription.now
        (λ name. is_some (found_in stand.now.setters.now name))) }
{
    if is_flex_output(kind) {
        let capped = known.places.is_capped(&place.text);
        see_counted(kind, capped, inscription, stand.setters, first);
    }
}

/// Reports what is broken in an inscription.
pub(crate) fn see_inscription<N: Numbers>(
    alloc: Global,
    i: &PInscription,
    known: &KnownNames<N>,
    stand: &Stand,
    first: &mut First,
) -> Result<(), NoMemory>
    ensures { OnOk result (first.new.fault ≡ first_from first.old.fault
        (inscription_faults (scope_in known.now) (progress_of stand.now) i.now i.now.form)) }
{
    match &i.form {
        PInscribed::Arc {
            kind,
            place,
            inscription,
        } => {
            let here = of_arc(*kind, known, stand);
            let pattern = known.places.pattern(&place.text);
            see_arc(alloc, *kind, pattern, place, inscription, &here, first)?;
            see_count(*kind, place, inscription, known, stand, first);
            Ok(())
        }
        PInscribed::Guard(cond) => {
            let here = elsewhere(known, stand);
            Ok(see_condition(alloc, cond, &here, first)?)
        }
        PInscribed::Print(e) => {
            let here = in_action(known, stand);
            see(alloc, e, &here, first)?;
            Ok(())
        }
        PInscribed::Set { var, value } => Ok(see_set(alloc, var, value, known, stand, first)?),
        PInscribed::Uplink { channel, args } => {
            Ok(see_uplink(alloc, i.spot, channel, args, known, stand, first)?)
        }
        PInscribed::New { var, net } => {
            let here = elsewhere(known, stand);
            let declared = known.nets.number(&net.text).is_some();
            Ok(see_creation(var, net, declared, &here, first)?)
        }
        PInscribed::Downlink {
            target,
            channel,
            args,
        } => Ok(see_downlink(alloc, target, channel, args, known, stand, first)?),
        PInscribed::Equality(a, b) => {
            let here = elsewhere(known, stand);
            Ok(see_sides(alloc, a, b, &here, first)?)
        }
    }
}
