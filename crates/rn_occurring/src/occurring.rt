//! The variables that occur in the parts of a transition.
ghost use Rattle.std.specs.Prelude.{◌≡◌, ◌++◌, [], OnOk, map, flat_map};
ghost use Rattle.std.specs.List.{concat};
ghost use Rattle.std.specs.Option.{option_map_or};
ghost use Rattle.rn_model.specs.Systems.{vars_in};
ghost use Rattle.rn_model.specs.Good.{action_expr, set_var, occurring};
ghost use Rattle.rn_occurring.specs.link.OccurringParts.{vars_of_simple, vars_of_cond, is_wanted};
ghost use Rattle.rn_occurring.specs.link.OccurringParts.{vars_of_arc};

use rn_model::{
    Action, ArcKind, Cond, Creation, Downlink, Expr, NetArc, Simple, Transition, Uplink, put_vars,
    put_vars_of,
};
use rn_value::NoMemory;

/// Puts the variables of the sides of equalities.
fn put_pairs(pairs: &[(Expr, Expr)], vars: &mut Vec<u32>) -> Result<(), NoMemory>
    ensures { OnOk result (vars.new.items ≡ vars.old.items
        ++ flat_map (λ e. vars_in e.0 ++ vars_in e.1) pairs.now) }
{
    for pair in pairs {
        put_vars(&pair.0, vars)?;
        put_vars(&pair.1, vars)?;
    }
    Ok(())
}

/// Puts the variables of a comparison or a negation.
#[cycle(guard)]
fn put_simple(simple: &Simple, vars: &mut Vec<u32>) -> Result<(), NoMemory>
    ensures { OnOk result (vars.new.items ≡ vars.old.items ++ vars_of_simple simple.now) }
{
    match simple {
        Simple::Compare(_, a, b) => {
            put_vars(a, vars)?;
            put_vars(b, vars)
        }
        Simple::Not(cond) => put_cond(cond, vars),
    }
}

#[cycle(guard)]
fn put_simples(simples: &[Simple], vars: &mut Vec<u32>) -> Result<(), NoMemory>
    ensures { OnOk result (vars.new.items ≡ vars.old.items ++ flat_map vars_of_simple simples.now) }
{
    for simple in simples {
        put_simple(simple, vars)?;
    }
    Ok(())
}

/// Puts the variables of a condition.
#[cycle(guard)]
fn put_cond(cond: &Cond, vars: &mut Vec<u32>) -> Result<(), NoMemory>
    ensures { OnOk result (vars.new.items ≡ vars.old.items ++ vars_of_cond cond.now) }
{
    for simples in cond.any.as_slice() {
        put_simples(simples.as_slice(), vars)?;
    }
    Ok(())
}

/// Puts the variables of guards.
fn put_guards(guards: &[Cond], vars: &mut Vec<u32>) -> Result<(), NoMemory>
    ensures { OnOk result (vars.new.items ≡ vars.old.items ++ flat_map vars_of_cond guards.now) }
{
    for guard in guards {
        put_cond(guard, vars)?;
    }
    Ok(())
}

/// Puts the variables of downlinks.
fn put_downlinks(downlinks: &[Downlink], vars: &mut Vec<u32>) -> Result<(), NoMemory>
    ensures { OnOk result (vars.new.items ≡ vars.old.items
        ++ flat_map (λ d. vars_in d.target ++ concat (map vars_in d.args)) downlinks.now) }
{
    for downlink in downlinks {
        put_vars(&downlink.target, vars)?;
        put_vars_of(downlink.args.as_slice(), vars)?;
    }
    Ok(())
}

/// Whether an arc is an output, or whether it is none, as is asked.
fn is_wanted(kind: ArcKind, outputs: bool) -> bool
    ensures { result ≡ is_wanted outputs kind }
{
    match kind {
        ArcKind::Output | ArcKind::FlexOutput => outputs,
        _ => !outputs,
    }
}

/// Puts the variables of the arcs that are outputs, or of those that are none.
fn put_arcs(arcs: &[NetArc], outputs: bool, vars: &mut Vec<u32>) -> Result<(), NoMemory>
    ensures { OnOk result (vars.new.items ≡ vars.old.items
        ++ flat_map (vars_of_arc outputs) arcs.now) }
{
    for arc in arcs {
        if is_wanted(arc.kind, outputs) {
            put_vars(&arc.inscription, vars)?;
        }
    }
    Ok(())
}

/// Puts the variables of the expressions of actions.
fn put_actions(actions: &[Action], vars: &mut Vec<u32>) -> Result<(), NoMemory>
    ensures { OnOk result (vars.new.items ≡ vars.old.items
        ++ flat_map (λ action. vars_in (action_expr action)) actions.now) }
{
    for action in actions {
        match action {
            Action::Print(e) => put_vars(e, vars)?,
            Action::Set { value, .. } => put_vars(value, vars)?,
        }
    }
    Ok(())
}

/// Puts the variables that are bound by creations.
fn put_creations(creations: &[Creation], vars: &mut Vec<u32>) -> Result<(), NoMemory>
    ensures { OnOk result (vars.new.items ≡ vars.old.items ++ map (λ c. c.var) creations.now) }
{
    for creation in creations {
        vars.push(creation.var)?;
    }
    Ok(())
}

/// Puts the variables on the left of actions.
pub(crate) fn put_set_vars(actions: &[Action], vars: &mut Vec<u32>) -> Result<(), NoMemory>
    ensures { OnOk result (vars.new.items ≡ vars.old.items ++ flat_map set_var actions.now) }
{
    for action in actions {
        if let Action::Set { var, .. } = action {
            vars.push(*var)?;
        }
    }
    Ok(())
}

/// Puts the variables of the arguments of an uplink, where there is one.
fn put_uplink(uplink: &Option<Uplink>, vars: &mut Vec<u32>) -> Result<(), NoMemory>
    ensures { OnOk result (vars.new.items ≡ vars.old.items
        ++ concat (map vars_in (option_map_or (λ u. u.args) uplink.now []))) }
{
    match uplink {
        Some(uplink) => put_vars_of(uplink.args.as_slice(), vars),
        None => Ok(()),
    }
}

/// Puts the variables that occur in a transition.
pub(crate) fn put_occurring(t: &Transition, vars: &mut Vec<u32>) -> Result<(), NoMemory>
    ensures { OnOk result (vars.new.items ≡ vars.old.items ++ occurring t.now) }
{
    put_pairs(t.equalities.as_slice(), vars)?;
    put_guards(t.guards.as_slice(), vars)?;
    put_uplink(&t.uplink, vars)?;
    put_downlinks(t.downlinks.as_slice(), vars)?;
    put_arcs(t.arcs.as_slice(), false, vars)?;
    put_arcs(t.arcs.as_slice(), true, vars)?;
    put_actions(t.actions.as_slice(), vars)?;
    put_creations(t.creations.as_slice(), vars)?;
    put_set_vars(t.actions.as_slice(), vars)?;
    Ok(())
}
