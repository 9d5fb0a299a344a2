//! An instance: its number, its net, and the tokens of its places.
ghost use Rattle.std.specs.Prelude.{◌≡◌, [], length, map, unwrap_or, IfOk, OnOk, slice_get};
ghost use Rattle.std.specs.Option.{option_copied};
ghost use Rattle.rn_model.specs.Lists.{ordered_values};
ghost use Rattle.rn_table.specs.link.Steps.{after_step};

use crate::edits::Edit;
use crate::places::InstancePlaces;
use rn_bag::Bag;
use rn_items::NoMemory;
use rn_model::Place;
use std::alloc::Global;
use std::marker::Model;

/// A kept instance. Copies share the bags of its places, and where there are more than 32, chunks
/// of these.
#[derive(Drop)]
pub struct Inst {
    number: u32,
    net: u32,
    places: InstancePlaces,
}

impl Model for Inst {
    ghost use Rattle.rn_model.specs.Markings.{Instance};
    ghost use Rattle.rn_model.specs.link.MarkingCodes.{instance_code};

    ghost Value = { Instance };

    ghost coded = { instance_code };

    ghost view = { λ inst. record { number = inst.number; net = inst.net; places = inst.places } };
}

impl Inst {
    /// An instance as it comes, with the initial tokens of its places.
    pub(crate) fn fresh(
        alloc: Global,
        number: u32,
        net: u32,
        places: &[Place],
    ) -> Result<Inst, NoMemory>
        ensures number { IfOk result (λ inst. inst.number ≡ number) }
        ensures net { IfOk result (λ inst. inst.net ≡ net) }
        ensures places { IfOk result (λ inst. inst.places ≡ map (λ p. ordered_values p.initial) places.now) }
    {
        let places = InstancePlaces::fresh(alloc, places)?;
        Ok(Inst {
            number,
            net,
            places,
        })
    }

    /// Its number.
    pub fn number(&self) -> u32
        ensures { result ≡ self.now.number }
    {
        self.number
    }

    /// Its net.
    pub fn net(&self) -> u32
        ensures { result ≡ self.now.net }
    {
        self.net
    }

    /// The bag of a place.
    pub fn bag(&self, place: u32) -> Option<&Bag>
        ensures { option_copied result ≡ slice_get self.now.places place }
    {
        self.places.get(place as usize)
    }

    /// How many tokens a place has, and none where there is no such place. It looks at none of them.
    pub fn count(&self, place: usize) -> usize
        ensures { result ≡ length (unwrap_or (slice_get self.now.places place) []) }
    {
        match self.places.get(place) {
            None => 0,
            Some(bag) => bag.len(),
        }
    }

    /// The same instance, which shares its bags or chunks of them with the first.
    pub(crate) fn copy(&self) -> Result<Inst, NoMemory>
        ensures { IfOk result (λ inst. inst ≡ self.now) }
    {
        let places = self.places.copy()?;
        Ok(Inst {
            number: self.number,
            net: self.net,
            places,
        })
    }

    /// One token is taken from a place or put there.
    pub(crate) fn edit(&mut self, alloc: Global, edit: &Edit<'_>) -> Result<(), NoMemory>
        requires { self.old.number ≡ edit.now.inst }
        ensures { OnOk result (self.new ≡ after_step edit.now self.old) }
    {
        self.places.edit(alloc, edit)?;
        Ok(())
    }
}
