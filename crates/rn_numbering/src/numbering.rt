//! Transitions, nets and systems with numbers in place of names.
ghost use Rattle.std.specs.Prelude.{◌≡◌, All, IfOk, OnOk, map, flat_map, length, slice_get};
ghost use Rattle.rn_numbered.specs.Numbered.{Numbers, inscribed, number_in};
ghost use Rattle.rn_occurring.specs.TransitionVars.{with_vars};
ghost use Rattle.rn_numbering.specs.Numbering.{system_of};
ghost use Rattle.rn_numbered.specs.Numbered.{equality_of, guard_of, action_of, creation_of};
ghost use Rattle.rn_numbered.specs.Numbered.{uplink_of, downlink_of, arc_of};
ghost use Rattle.rn_numbered.specs.link.NumbersFound.{numbers_by, channel_by, key_of};
ghost use Rattle.rn_numbering.specs.link.Making.{net_by};
ghost use Rattle.rn_numbering.specs.link.Making.{bare_transition, transitions_by, bare_net};
ghost use Rattle.rn_numbered.specs.link.NumbersFound.{AreFew, AllFew};
ghost use Rattle.rn_numbering.specs.link.Making.{HasNetNumbers, HasNumbers};

use crate::declarations::{channels_of, places_of, vars_of};
use rn_inscript::PInscription;
use rn_items::Items;
use rn_model::{Channels, Net, Nets, System, Transition, Transitions};
use rn_net::{PNet, PTransition, Plain};
use rn_numbered::{
    ChannelNumbers, NameNumbers, Tables, actions_of, arcs_of, channel_names_of, creations_of,
    downlinks_of, equalities_of, guards_of, names_of, uplink_of,
};
use rn_occurring::put_vars;
use rn_value::{NoMemory, Str, copy_text};
use std::alloc::Global;

/// Puts the equalities, guards, actions and creations of a transition.
fn put_local(
    alloc: Global,
    inscriptions: &[PInscription],
    tables: &Tables,
    made: &mut Transition,
) -> Result<(), NoMemory>
    requires { AllFew tables.now }
    ensures { OnOk result (made.new ≡ record made.old {
      equalities = flat_map (λ i. equality_of (numbers_by tables.now) i.form) inscriptions.now;
      guards = flat_map (λ i. guard_of (numbers_by tables.now) i.form) inscriptions.now;
      actions = flat_map (λ i. action_of (numbers_by tables.now) i.form) inscriptions.now;
      creations = flat_map (λ i. creation_of (numbers_by tables.now) i.form) inscriptions.now;
    }) }
{
    made.equalities = equalities_of(alloc, inscriptions, tables)?;
    made.guards = guards_of(alloc, inscriptions, tables)?;
    made.actions = actions_of(alloc, inscriptions, tables)?;
    made.creations = creations_of(alloc, inscriptions, tables)?;
    Ok(())
}

/// Puts the calls and arcs of a transition.
fn put_joined(
    alloc: Global,
    inscriptions: &[PInscription],
    tables: &Tables,
    made: &mut Transition,
) -> Result<(), NoMemory>
    requires { AllFew tables.now }
    ensures { OnOk result (made.new ≡ record made.old {
      uplink = slice_get
          (flat_map (λ i. uplink_of (numbers_by tables.now) i.form) inscriptions.now) 0;
      downlinks = flat_map (λ i. downlink_of (numbers_by tables.now) i.form) inscriptions.now;
      arcs = flat_map (λ i. arc_of (numbers_by tables.now) i.form) inscriptions.now;
    }) }
{
    made.uplink = uplink_of(alloc, inscriptions, tables)?;
    made.downlinks = downlinks_of(alloc, inscriptions, tables)?;
    made.arcs = arcs_of(alloc, inscriptions, tables)?;
    Ok(())
}

/// A transition of a name, in which nothing is inscribed.
fn bare(alloc: Global, name: Str) -> Transition
    ensures { result ≡ bare_transition name }
{
    Transition {
        name,
        vars: Items::new(alloc),
        action_vars: Items::new(alloc),
        equalities: Items::new(alloc),
        guards: Items::new(alloc),
        actions: Items::new(alloc),
        creations: Items::new(alloc),
        uplink: None,
        downlinks: Items::new(alloc),
        arcs: Items::new(alloc),
    }
}

/// Puts what is inscribed in a transition in which nothing is, and its variables.
fn put_all(
    alloc: Global,
    inscriptions: &[PInscription],
    tables: &Tables,
    count: u32,
    made: &mut Transition,
) -> Result<(), NoMemory>
    requires few { AllFew tables.now }
    requires bare { made.old ≡ bare_transition made.old.name }
    ensures { OnOk result (made.new ≡ with_vars count
        (inscribed (numbers_by tables.now) made.old.name (map (λ i. i.form) inscriptions.now))) }
{
    put_local(alloc, inscriptions, tables, made)?;
    put_joined(alloc, inscriptions, tables, made)?;
    put_vars(alloc, made, count)?;
    Ok(())
}

/// A transition of a net with so many variables. Its plain form is given up.
fn transition_of(
    alloc: Global,
    t: PTransition,
    tables: &Tables,
    count: u32,
) -> Result<Transition, NoMemory>
    requires { AllFew tables.now }
    ensures { IfOk result (λ made. made ≡ with_vars count
        (inscribed (numbers_by tables.now) t.name.text (map (λ i. i.form) t.inscriptions))) }
{
    let PTransition { name, inscriptions } = t;
    let mut made = bare(alloc, name.text);
    put_all(alloc, inscriptions.as_slice(), tables, count, &mut made)?;
    Ok(made)
}

/// The transitions of a net with so many variables. The plain form of each is given up as soon as
/// it is made.
fn transitions_of(
    alloc: Global,
    transitions: Vec<PTransition>,
    tables: &Tables,
    count: u32,
) -> Result<Transitions, NoMemory>
    requires { AllFew tables.now }
    ensures { IfOk result (λ made.
        made ≡ transitions_by (numbers_by tables.now) count transitions.items) }
{
    let mut made = Vec::with_capacity(alloc, transitions.len())?;
    for t in transitions {
        made.push(transition_of(alloc, t, tables, count)?)?;
    }
    Ok(Items::from_vec(made))
}

/// A net that has no transitions yet, and the names by which they find its variables and places.
#[derive(Drop)]
struct BegunNet {
    vars: NameNumbers,
    places: NameNumbers,
    net: Net,
}

/// A net without its transitions.
fn bare_net(alloc: Global, net: &PNet) -> Result<Net, NoMemory>
    ensures { IfOk result (λ made. made ≡ bare_net net.now) }
{
    Ok(Net {
        name: copy_text(alloc, &net.name.text)?,
        vars: vars_of(alloc, net.vars.as_slice())?,
        places: places_of(alloc, net.places.as_slice())?,
        transitions: Items::new(alloc),
    })
}

fn begin_net(alloc: Global, net: &PNet) -> Result<BegunNet, NoMemory>
    requires { HasNetNumbers net.now }
    ensures vars { IfOk result (λ begun. begun.vars ≡ map (λ v. v.name.text) net.now.vars) }
    ensures places { IfOk result (λ begun. begun.places ≡ map (λ p. p.name.text) net.now.places) }
    ensures net { IfOk result (λ begun. begun.net ≡ bare_net net.now) }
{
    Ok(BegunNet {
        vars: names_of(alloc, net.vars.as_slice())?,
        places: names_of(alloc, net.places.as_slice())?,
        net: bare_net(alloc, net)?,
    })
}

/// The transitions of a net, all else of which is given up.
fn transitions_in(net: PNet) -> Vec<PTransition>
    ensures { result.items ≡ net.transitions }
{
    let PNet { transitions, .. } = net;
    transitions.into_vec()
}

/// The net that was begun, with its transitions.
fn end_net(
    alloc: Global,
    begun: BegunNet,
    transitions: Vec<PTransition>,
    nets: &NameNumbers,
    channels: &ChannelNumbers,
) -> Result<Net, NoMemory>
    requires vars { AreFew begun.vars }
    requires count { AreFew begun.net.vars }
    requires places { AreFew begun.places }
    requires nets { AreFew nets.now }
    requires channels { AreFew channels.now }
    ensures { IfOk result (λ made.
        let to : Numbers = record {
          var = number_in begun.vars;
          place = number_in begun.places;
          net = number_in nets.now;
          channel = channel_by channels.now;
        } in
        made ≡ record begun.net {
          transitions = transitions_by to (length begun.net.vars) transitions.items;
        }) }
{
    let BegunNet {
        vars,
        places,
        mut net,
    } = begun;
    let tables = Tables {
        vars: &vars,
        places: &places,
        nets,
        channels,
    };
    let count = net.vars.len() as u32;
    net.transitions = transitions_of(alloc, transitions, &tables, count)?;
    Ok(net)
}

/// A net of a system with these nets and channels. Its plain form is given up.
fn net_of(
    alloc: Global,
    net: PNet,
    nets: &NameNumbers,
    channels: &ChannelNumbers,
) -> Result<Net, NoMemory>
    requires declared { HasNetNumbers net }
    requires nets { AreFew nets.now }
    requires channels { AreFew channels.now }
    ensures { IfOk result (λ made. made ≡ net_by nets.now (channel_by channels.now) net) }
{
    let begun = begin_net(alloc, &net)?;
    Ok(end_net(alloc, begun, transitions_in(net), nets, channels)?)
}

/// The nets of a system with these nets and channels. The plain form of each is given up as it is
/// made.
fn nets_of(
    alloc: Global,
    nets: Vec<PNet>,
    names: &NameNumbers,
    channels: &ChannelNumbers,
) -> Result<Nets, NoMemory>
    requires declared { All HasNetNumbers nets.items }
    requires nets { AreFew names.now }
    requires channels { AreFew channels.now }
    ensures { IfOk result (λ made. made
        ≡ map (net_by names.now (channel_by channels.now)) nets.items) }
{
    let mut made = Vec::with_capacity(alloc, nets.len())?;
    for net in nets {
        made.push(net_of(alloc, net, names, channels)?)?;
    }
    Ok(Items::from_vec(made))
}

/// The channels of a system, and the names by which its transitions find its nets and channels.
#[derive(Drop)]
struct BegunSystem {
    nets: NameNumbers,
    channels: ChannelNumbers,
    made: Channels,
}

fn begin_system(alloc: Global, plain: &Plain) -> Result<BegunSystem, NoMemory>
    requires { HasNumbers plain.now }
    ensures nets { IfOk result (λ begun. begun.nets ≡ map (λ n. n.name.text) plain.now.nets) }
    ensures channels { IfOk result (λ begun. begun.channels ≡ map key_of plain.now.channels) }
    ensures made { IfOk result (λ begun. begun.made ≡ (system_of plain.now).channels) }
{
    Ok(BegunSystem {
        nets: names_of(alloc, plain.nets.as_slice())?,
        channels: channel_names_of(alloc, plain.channels.as_slice())?,
        made: channels_of(alloc, plain.channels.as_slice())?,
    })
}

/// The nets of a plain form, all else of which is given up.
fn nets_in(plain: Plain) -> Vec<PNet>
    ensures { result.items ≡ plain.nets }
{
    let Plain { nets, .. } = plain;
    nets.into_vec()
}

/// The system that was begun, with its nets.
fn end_system(alloc: Global, begun: BegunSystem, nets: Vec<PNet>) -> Result<System, NoMemory>
    requires declared { All HasNetNumbers nets.items }
    requires nets { AreFew begun.nets }
    requires channels { AreFew begun.channels }
    ensures { IfOk result (λ made. made ≡ record {
      nets = map (net_by begun.nets (channel_by begun.channels)) nets.items;
      channels = begun.made;
    }) }
{
    let BegunSystem {
        nets: names,
        channels,
        made,
    } = begun;
    Ok(System {
        nets: nets_of(alloc, nets, &names, &channels)?,
        channels: made,
    })
}

/// The system of a plain form in which no rule is broken. The plain form is given up net by net.
pub fn system_of(alloc: Global, plain: Plain) -> Result<System, NoMemory>
    requires { HasNumbers plain }
    ensures { IfOk result (λ made. made ≡ system_of plain) }
{
    let begun = begin_system(alloc, &plain)?;
    Ok(end_system(alloc, begun, nets_in(plain))?)
}
