//! Nets and systems: what is broken in them is reported.
ghost use Rattle.std.specs.Prelude.{◌≡◌, OnOk, flat_map, is_some, codes};
ghost use Rattle.std.specs.List.{list_any};
ghost use Rattle.rn_declared.specs.Faults.{first_from};
ghost use Rattle.rn_declared.specs.Names.{same_name};
ghost use Rattle.rn_declared.specs.link.Tables.{found_in};
ghost use Rattle.rn_rules.specs.Transitions.{transition_faults};
ghost use Rattle.rn_rules.specs.Systems.{system_faults};
ghost use Rattle.rn_rules.specs.link.Scopes.{scope_in, faults_in_net};
ghost use Rattle.rn_declared.specs.link.Tables.{channel_in};
ghost use Rattle.rn_rules.specs.link.Numbers.{channels_of};

use crate::scope::{ChannelNames, KnownNames, channel_names_of, names_of, place_names_of};
use crate::transitions::see_transition;
use rn_declared::{
    DeclaredChannels, First, KindTable, NameTable, Numbers, Rule, declare_all, declare_channels,
    declare_places, declare_vars, kinds_of,
};
use rn_model::limits::{MOST_NETS, MOST_TRANSITIONS};
use rn_net::{PNet, PTransition, Plain};
use rn_notation::Spot;
use rn_value::NoMemory;
use std::alloc::Global;
use std::marker::Brand;

/// Reports what is broken in transitions.
fn see_transitions<N: Numbers>(
    alloc: Global,
    transitions: &[PTransition],
    known: &KnownNames<N>,
    first: &mut First,
) -> Result<(), NoMemory>
    ensures { OnOk result (first.new.fault ≡ first_from first.old.fault
        (flat_map (transition_faults (scope_in known.now)) transitions.now)) }
{
    for transition in transitions {
        see_transition(alloc, transition, known, first)?;
    }
    Ok(())
}

/// Reports what is broken in a net of a system with these nets and channels.
fn see_net<N: Numbers>(
    alloc: Global,
    net: &PNet,
    nets: &NameTable,
    channels: &ChannelNames<N>,
    kinds: &KindTable,
    first: &mut First,
) -> Result<(), NoMemory>
    requires { kinds.now.patterns ≡ N.patterns }
    ensures { OnOk result (first.new.fault ≡ first_from first.old.fault
        (faults_in_net (λ name. is_some (found_in nets.now name)) (channel_in (channels_of channels.now)) net.now)) }
{
    let declared = declare_vars(alloc, net.vars.as_slice(), first)?;
    let vars = names_of(alloc, declared, kinds)?;
    let declared = declare_places(alloc, net.places.as_slice(), first)?;
    let places = place_names_of(alloc, declared, kinds)?;
    let transitions = net.transitions.as_slice();
    let _names = declare_all(alloc, transitions, MOST_TRANSITIONS, first)?;
    let known = KnownNames {
        vars: &vars,
        places: &places,
        nets,
        channels,
    };
    see_transitions(alloc, transitions, &known, first)?;
    Ok(())
}

/// Reports what is broken in nets of a system with these nets and channels.
fn see_nets<N: Numbers>(
    alloc: Global,
    nets: &[PNet],
    table: &NameTable,
    channels: &ChannelNames<N>,
    kinds: &KindTable,
    first: &mut First,
) -> Result<(), NoMemory>
    requires { kinds.now.patterns ≡ N.patterns }
    ensures { OnOk result (first.new.fault ≡ first_from first.old.fault
        (flat_map (faults_in_net (λ name. is_some (found_in table.now name)) (channel_in (channels_of channels.now)))
        nets.now)) }
{
    for net in nets {
        see_net(alloc, net, table, channels, kinds, first)?;
    }
    Ok(())
}

/// Whether one of the nets is `main`.
fn has_main(nets: &[PNet]) -> bool
    ensures { result ≡ list_any (λ net. same_name net.name.text (codes "main")) nets.now }
{
    for net in nets {
        if net.name.text.as_str() == "main" {
            return true;
        }
    }
    false
}

/// Reports what is broken in nets of a system with these nets and channels, whose kinds have
/// numbers.
fn see_numbered<N: Numbers>(
    alloc: Global,
    nets: &[PNet],
    table: &NameTable,
    channels: DeclaredChannels,
    kinds: &KindTable,
    first: &mut First,
) -> Result<(), NoMemory>
    requires { kinds.now.patterns ≡ N.patterns }
    ensures { OnOk result (first.new.fault ≡ first_from first.old.fault
        (flat_map (faults_in_net (λ name. is_some (found_in table.now name)) (channel_in channels))
        nets.now)) }
{
    let channels = channel_names_of::<N>(alloc, channels, kinds)?;
    see_nets(alloc, nets, table, &channels, kinds, first)?;
    Ok(())
}

/// Reports what is broken in a system.
pub(crate) fn see_system(alloc: Global, plain: &Plain, first: &mut First) -> Result<(), NoMemory>
    ensures { OnOk result (first.new.fault ≡ first_from first.old.fault (system_faults plain.now)) }
{
    let nets = plain.nets.as_slice();
    first.tell_if(!has_main(nets), Rule::Main, Spot { line: 1, column: 1 });
    let channels = declare_channels(alloc, plain.channels.as_slice(), first)?;
    let table = declare_all(alloc, nets, MOST_NETS, first)?;
    let kinds = kinds_of(alloc, plain)?;
    see_numbered::<Brand>(alloc, nets, &table, channels, &kinds, first)?;
    Ok(())
}
