//! The line of a place.
ghost use Rattle.std.specs.Prelude.{◌≡◌};
ghost use Rattle.rn_model.specs.Systems.{net_at};
ghost use Rattle.rn_record.specs.RecordText.{place_name};

use crate::tokens::put_tokens;
use rn_bag::Bag;
use rn_model::{System, places_of};
use rn_spell::{NetNames, put_instance};
use rn_window::{Text, Window};

/// A place of an instance, with its tokens, as `main[1].q 5 7`.
#[derive(Drop)]
pub(crate) struct PlaceLine<'a> {
    pub(crate) names: &'a NetNames<'a>,
    pub(crate) format: u32,
    pub(crate) number: u32,
    pub(crate) net: u32,
    pub(crate) place: u32,
    pub(crate) bag: &'a Bag,
}

impl<'a> Text for PlaceLine<'a> {
    ghost use Rattle.rn_record.specs.RecordText.{mark_text};
    ghost use Rattle.rn_spell.specs.Made.{names_of_nets};

    ghost text = { λ l. mark_text l.format l.names.now.system.now
        (names_of_nets l.names.now.system.now l.names.now.nets.now)
        (record { inst = l.number; net = l.net; place = l.place; values = l.bag.now }) };

    #[tactic(auto, using(rn_window::proofs::Windows::written))]
    fn put(&self, window: &mut Window) {
        put_instance(self.names.system, self.net, self.number, window);
        window.put_byte(b'.');
        window.put(name_of_place(self.names.system, self.net, self.place));
        put_tokens(self.format, self.bag, self.names, window);
        window.put_byte(b'\n');
    }
}

// The name of a place of a net, and nothing where there is no such place.
fn name_of_place(system: &System, net: u32, place: u32) -> &[u8]
    ensures { result.now ≡ place_name (net_at system.now net) place }
{
    match places_of(system, net).get(place as usize) {
        Some(place) => place.name.as_str().as_bytes(),
        None => &[],
    }
}
