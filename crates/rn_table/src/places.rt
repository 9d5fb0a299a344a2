//! The places of an instance.
ghost use Rattle.std.specs.Prelude.{◌≡◌, map, slice_get, IfOk, OnOk};
ghost use Rattle.std.specs.Option.{option_copied};
ghost use Rattle.rn_model.specs.Lists.{ordered_values};
ghost use Rattle.rn_table.specs.link.Chunks.{AreChunks, joined};
ghost use Rattle.rn_table.specs.link.Steps.{with_step};

use crate::chunk::{PlaceChunk, copy_all, edit_chunk};
use crate::edits::Edit;
use rn_bag::Bag;
use rn_items::NoMemory;
use rn_model::Place;
use std::alloc::Global;
use std::marker::Model;
use std::sync::Arc;

/// How many places a chunk has room for.
pub(crate) const PLACES: usize = 32;

/// The places of an instance, which contracts see as the list of their tokens.
#[derive(Drop)]
pub(crate) struct InstancePlaces {
    form: Form,
}

/// Up to 32 places stand in one chunk, which is the instance's own. More stand in chunks of 32, the
/// last of which may have fewer, and copies share these.
#[derive(Drop)]
pub(crate) enum Form {
    Few(PlaceChunk),
    Many(Vec<Arc<PlaceChunk>>),
}

impl Model for InstancePlaces {
    ghost use Rattle.std.specs.Prelude.{List};
    ghost use Rattle.std.specs.Coded.{coded_list};
    ghost use Rattle.rn_value.specs.declared.value.Value.{Value as Token};
    ghost use Rattle.rn_value.specs.contracts.value.Value as token;
    ghost use Rattle.rn_table.specs.link.Forms.{IsChunked, places_in};

    ghost Value = { List (List Token) };

    ghost coded = { coded_list (coded_list token.the_row.coded) };

    ghost view = { λ places. places_in places.form };

    ghost invariant = { λ places. IsChunked places.form };
}

impl InstancePlaces {
    /// These places with their initial tokens.
    pub(crate) fn fresh(alloc: Global, places: &[Place]) -> Result<InstancePlaces, NoMemory>
        ensures { IfOk result (λ made. made ≡ map (λ p. ordered_values p.initial) places.now) }
    {
        if places.len() <= PLACES {
            let chunk = PlaceChunk::fresh(alloc, places)?;
            return Ok(InstancePlaces {
                form: Form::Few(chunk),
            });
        }
        let chunks = chunks_of(alloc, places)?;
        Ok(InstancePlaces {
            form: Form::Many(chunks),
        })
    }

    /// The bag of a place.
    pub(crate) fn get(&self, place: usize) -> Option<&Bag>
        ensures { option_copied result ≡ slice_get self.now place }
    {
        match &self.form {
            Form::Few(chunk) => chunk.get(place),
            Form::Many(chunks) => bag_in(chunks.as_slice(), place),
        }
    }

    /// The same places. Few of them share the bags with the first, and many the chunks.
    pub(crate) fn copy(&self) -> Result<InstancePlaces, NoMemory>
        ensures { IfOk result (λ places. places ≡ self.now) }
    {
        match &self.form {
            Form::Few(chunk) => {
                let form = Form::Few(chunk.copy()?);
                Ok(InstancePlaces { form })
            }
            Form::Many(chunks) => {
                let form = Form::Many(copy_all(chunks)?);
                Ok(InstancePlaces { form })
            }
        }
    }

    /// One token is taken from a place or put there.
    pub(crate) fn edit(&mut self, alloc: Global, edit: &Edit<'_>) -> Result<(), NoMemory>
        ensures { OnOk result (self.new ≡ with_step edit.now edit.now.place self.old) }
    {
        let place = edit.place as usize;
        match &mut self.form {
            Form::Few(chunk) => chunk.edit(alloc, place, edit),
            Form::Many(chunks) => edit_in(alloc, chunks, place, edit),
        }
    }
}

/// Places with their initial tokens, in chunks of 32.
fn chunks_of(alloc: Global, places: &[Place]) -> Result<Vec<Arc<PlaceChunk>>, NoMemory>
    ensures places { IfOk result (λ chunks. joined (map (λ c. c.value) chunks.items)
        ≡ map (λ p. ordered_values p.initial) places.now) }
    ensures chunks { IfOk result (λ chunks. AreChunks (map (λ c. c.value) chunks.items)) }
{
    let mut chunks = Vec::with_capacity(alloc, places.len() / PLACES + 1)?;
    for piece in places.chunks(PLACES) {
        let chunk = PlaceChunk::fresh(alloc, piece)?;
        chunks.push(Arc::new(alloc, chunk)?)?;
    }
    Ok(chunks)
}

/// The bag of a place in chunks.
fn bag_in(chunks: &[Arc<PlaceChunk>], place: usize) -> Option<&Bag>
    requires { AreChunks (map (λ c. c.value) chunks.now) }
    ensures { option_copied result ≡ slice_get (joined (map (λ c. c.value) chunks.now)) place }
{
    let at = place / PLACES;
    if at >= chunks.len() {
        return None;
    }
    chunks[at].get(place % PLACES)
}

/// One token is taken from a place in chunks or put there.
fn edit_in(
    alloc: Global,
    chunks: &mut Vec<Arc<PlaceChunk>>,
    place: usize,
    edit: &Edit<'_>,
) -> Result<(), NoMemory>
    requires { AreChunks (map (λ c. c.value) chunks.old.items) }
    ensures places { OnOk result (joined (map (λ c. c.value) chunks.new.items)
        ≡ with_step edit.now place (joined (map (λ c. c.value) chunks.old.items))) }
    ensures chunks { AreChunks (map (λ c. c.value) chunks.new.items) }
{
    let at = place / PLACES;
    if at >= chunks.len() {
        return Ok(());
    }
    edit_chunk(alloc, &mut chunks[at], place % PLACES, edit)?;
    Ok(())
}
