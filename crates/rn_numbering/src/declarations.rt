//! Declarations with numbers in place of names.
ghost use Rattle.std.specs.Prelude.{◌≡◌, IfOk, map};
ghost use Rattle.rn_numbered.specs.Numbered.{kind_of, value_of, capacity_of};

use rn_items::Items;
use rn_model::{Channel, Channels, Place, Places, Var, Vars};
use rn_net::{PChannel, PPlace, PVar};
use rn_numbered::{capacity_of, kind_of, kinds_of, values_of};
use rn_value::{NoMemory, copy_text};
use std::alloc::Global;

/// The channels, in the order of the text.
pub(crate) fn channels_of(alloc: Global, channels: &[PChannel]) -> Result<Channels, NoMemory>
    ensures { IfOk result (λ made. made
        ≡ map (λ c. record { name = c.name.text; kinds = map kind_of c.kinds }) channels.now) }
{
    let mut made = Vec::with_capacity(alloc, channels.len())?;
    for channel in channels {
        let name = copy_text(alloc, &channel.name.text)?;
        let kinds = kinds_of(alloc, channel.kinds.as_slice())?;
        made.push(Channel { name, kinds })?;
    }
    Ok(Items::from_vec(made))
}

/// The variables of a net, in the order of the text.
pub(crate) fn vars_of(alloc: Global, vars: &[PVar]) -> Result<Vars, NoMemory>
    ensures { IfOk result (λ made. made
        ≡ map (λ v. record { name = v.name.text; kind = kind_of v.kind }) vars.now) }
{
    let mut made = Vec::with_capacity(alloc, vars.len())?;
    for var in vars {
        let name = copy_text(alloc, &var.name.text)?;
        let kind = kind_of(alloc, &var.kind)?;
        made.push(Var { name, kind })?;
    }
    Ok(Items::from_vec(made))
}

/// The places of a net with their initial tokens and capacities, in the order of the text.
pub(crate) fn places_of(alloc: Global, places: &[PPlace]) -> Result<Places, NoMemory>
    ensures { IfOk result (λ made. made ≡ map (λ p. record {
      name = p.name.text;
      kind = kind_of p.kind;
      initial = map value_of p.initial;
      max = capacity_of p.max;
    }) places.now) }
{
    let mut made = Vec::with_capacity(alloc, places.len())?;
    for place in places {
        let name = copy_text(alloc, &place.name.text)?;
        let kind = kind_of(alloc, &place.kind)?;
        let initial = values_of(alloc, place.initial.as_slice())?;
        made.push(Place {
            name,
            kind,
            initial,
            max: capacity_of(place.max),
        })?;
    }
    Ok(Items::from_vec(made))
}
