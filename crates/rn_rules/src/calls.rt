//! Calls, creations and actions: what is broken in them is reported.
ghost use Rattle.std.specs.Prelude.{◌≡◌, OnOk, map, option_copied};
ghost use Rattle.rn_declared.specs.Faults.{first_from};
ghost use Rattle.rn_rules.specs.Expressions.{seen_of};
ghost use Rattle.rn_rules.specs.Calls.{call_faults, target_faults, creation_faults, is_no_net};
ghost use Rattle.rn_rules.specs.Actions.{set_faults, value_faults};
ghost use Rattle.rn_declared.specs.link.Tables.{found_in};
ghost use Rattle.rn_rules.specs.link.Sights.{where_of, misfit_of, misfits_of, misfit_if, call_of};
ghost use Rattle.rn_declared.specs.link.Tables.{pattern_in};
ghost use Rattle.rn_rules.specs.link.Numbers.{declared_of};
ghost use Rattle.rn_declared.specs.declared.pattern.Pattern.TheVariants as Form;

use crate::seeing::{fits, see, see_all, see_variable};
use crate::sight::{Here, SeenExpr};
use rn_declared::numbered::share;
use rn_declared::{First, Numbered, Numbers, Rule};
use rn_inscript::{PExpr, PName};
use rn_notation::Spot;
use rn_value::NoMemory;
use std::alloc::Global;

/// Reports each argument that hasn't the kind of the pattern at its index.
fn tell_misfits<N: Numbers>(sights: &[SeenExpr<N>], patterns: &[Numbered<N>], first: &mut First)
    ensures { first.new.fault ≡ first_from first.old.fault (misfits_of sights.now patterns.now) }
{
    for i in 0..sights.len().min(patterns.len()) {
        fits(&sights[i], &patterns[i], first);
    }
}

/// Reports a channel that isn't there, or arguments that it doesn't take.
fn tell_call<N: Numbers>(
    patterns: Option<&[Numbered<N>]>,
    spot: Spot,
    sights: &[SeenExpr<N>],
    first: &mut First,
)
    ensures { first.new.fault ≡ first_from first.old.fault
        (call_of (option_copied patterns.entry) spot sights.now) }
{
    match patterns {
        Some(patterns) => tell_misfits(sights, patterns, first),
        None => first.tell(Rule::Channel, spot),
    }
}

/// Reports what is broken in a call of a channel, whose arguments have these patterns if it is
/// there.
pub(crate) fn see_call<N: Numbers>(
    alloc: Global,
    patterns: Option<&[Numbered<N>]>,
    name: &PName,
    args: &[PExpr],
    here: &Here<N>,
    first: &mut First,
) -> Result<(), NoMemory>
    ensures { OnOk result (first.new.fault ≡ first_from first.old.fault
        (call_faults (option_copied patterns.entry) name.now
        (map (λ seen. seen (where_of here.now)) (map seen_of args.now)))) }
{
    let sights = see_all(alloc, args, here, first)?;
    tell_call(patterns, name.spot, sights.as_slice(), first);
    Ok(())
}

/// Reports an expression that is no net.
fn tell_no_net<N: Numbers>(sight: &SeenExpr<N>, first: &mut First)
    ensures { first.new.fault ≡ first_from first.old.fault (misfit_of sight.now Form.Net) }
{
    let asked = Numbered::net();
    fits(sight, &asked, first);
}

/// Reports what is broken in the target of a downlink.
pub(crate) fn see_target<N: Numbers>(
    alloc: Global,
    target: &PExpr,
    here: &Here<N>,
    first: &mut First,
) -> Result<(), NoMemory>
    ensures { OnOk result (first.new.fault ≡ first_from first.old.fault
        (target_faults (seen_of target.now (where_of here.now)))) }
{
    let sight = see(alloc, target, here, first)?;
    tell_no_net(&sight, first);
    Ok(())
}

/// Whether a pattern is there and isn't that of nets.
fn is_no_net<N: Numbers>(pattern: Option<&Numbered<N>>) -> bool
    ensures { result ≡ is_no_net (option_copied pattern.entry) }
{
    match pattern {
        Some(pattern) => !share(pattern, &Numbered::net()),
        None => false,
    }
}

/// Reports what is broken in a creation, where its net is declared or not.
pub(crate) fn see_creation<N: Numbers>(
    var: &PName,
    net: &PName,
    declared: bool,
    here: &Here<N>,
    first: &mut First,
) -> Result<(), NoMemory>
    ensures { OnOk result (first.new.fault ≡ first_from first.old.fault
        (creation_faults (where_of here.now) var.now net.now declared)) }
{
    see_variable(&var.text, var.spot, here, first)?;
    first.tell_if(
        is_no_net(here.vars.pattern(&var.text)),
        Rule::Creation,
        var.spot,
    );
    first.tell_if(!declared, Rule::Known, net.spot);
    Ok(())
}

/// Reports what is broken on the left of an action, which is that of this number.
pub(crate) fn see_left<N: Numbers>(var: &PName, past: usize, here: &Here<N>, first: &mut First)
    ensures { first.new.fault ≡ first_from first.old.fault
        (set_faults (pattern_in (declared_of here.now.vars.now) var.now.text)
        (found_in here.now.setters.now var.now.text) past var.now) }
{
    first.tell_if(
        here.vars.pattern(&var.text).is_none(),
        Rule::Known,
        var.spot,
    );
    let again = match here.setters.number(&var.text) {
        Some(number) => number < past,
        None => false,
    };
    first.tell_if(again, Rule::Actions, var.spot);
}

/// Reports an expression that hasn't the kind of a pattern, where there is one.
fn tell_misfit_if<N: Numbers>(pattern: Option<&Numbered<N>>, sight: &SeenExpr<N>, first: &mut First)
    ensures { first.new.fault ≡ first_from first.old.fault
        (misfit_if sight.now (option_copied pattern.entry)) }
{
    match pattern {
        Some(pattern) => {
            fits(sight, pattern, first);
        }
        None => {}
    }
}

/// Reports what is broken in the value of an action.
pub(crate) fn see_value<N: Numbers>(
    alloc: Global,
    pattern: Option<&Numbered<N>>,
    value: &PExpr,
    here: &Here<N>,
    first: &mut First,
) -> Result<(), NoMemory>
    ensures { OnOk result (first.new.fault ≡ first_from first.old.fault
        (value_faults (option_copied pattern.entry) (seen_of value.now (where_of here.now)))) }
{
    let sight = see(alloc, value, here, first)?;
    tell_misfit_if(pattern, &sight, first);
    Ok(())
}
