//! Locations and instances.
ghost use Rattle.std.specs.Prelude.{◌≡◌, [], IfOk};
ghost use Rattle.serde_json.specs.View.{view};
ghost use Rattle.document_entries.specs.Answers.{Answers, AnswersAs};
ghost use Rattle.document_entries.specs.Entries.{location_form, locations, instance_form, instance_of, whole_instance};
ghost use Rattle.asset_wire.specs.Reading.{instance_at};

use crate::entries::texts_of;
use crate::names::behind_0x;
use crate::{Entry, NetworkFault, Place, Stop, read_entries, text_of};
use asset_lists::Instance;
use asset_wire::read_instance;
use hex::FromHexError;
use location_wire::{TextFault, fill_location_from_text, law_of_one_location};
use locations::Location;
use plain_lists::Listed;
use scale_codec::Cursor;
use serde_json::Value;
use std::alloc::{AllocError, Global};

/// Reads a location, as its text, into one with no junctions. After an `Err` nothing is said of what it is.
#[tactic(auto, unfolding(crate::specs::Entries::location_form))]
pub(crate) fn fill_location(
    alloc: Global,
    place: Place,
    value: &Value,
    location: &mut Location,
) -> Result<(), Stop>
    requires { location.old.interior ≡ [] }
    ensures { AnswersAs (λ _. location.new) result (location_form place (view value.now)) }
{
    // For the prover alone: a text is that of one location at most.
    law_of_one_location();
    let text = text_of(place, value)?;
    match fill_location_from_text(alloc, text, location) {
        Ok(()) => Ok(()),
        Err(TextFault::BadText) => Err(Stop::Fault(NetworkFault::BadValue(place))),
        Err(TextFault::Memory) => Err(Stop::Memory),
    }
}

/// A location, as its text.
pub(crate) fn location_of(alloc: Global, place: Place, value: &Value) -> Result<Location, Stop>
    ensures { Answers result (location_form place (view value.now)) }
{
    let mut location = Location::here();
    fill_location(alloc, place, value, &mut location)?;
    Ok(location)
}

/// A reader of locations at one position.
#[derive(Clone, Copy)]
struct LocationsAt {
    /// The position.
    place: Place,
}

impl Entry<Location> for LocationsAt {
    ghost use Rattle.document_entries.specs.Entries.{location_form};

    ghost form = { λ at _ value. location_form at.place value };

    fn read(&self, alloc: Global, _index: u32, value: &Value) -> Result<Location, Stop> {
        location_of(alloc, self.place, value)
    }
}

/// A list of locations.
#[tactic(auto, unfolding(crate::specs::Entries::locations))]
pub(crate) fn locations_of(
    alloc: Global,
    place: Place,
    value: &Value,
) -> Result<Listed<Location>, Stop>
    ensures { Answers result (locations place (view value.now)) }
{
    let items = texts_of(place, value)?;
    read_entries(alloc, &LocationsAt { place }, items)
}

/// The instance that the bytes spell, all of them.
fn whole_instance(bytes: &[u8]) -> Option<Instance>
    ensures { result ≡ whole_instance (instance_at bytes.now) }
{
    let mut cursor = Cursor::new(bytes);
    let instance = read_instance(&mut cursor).ok()?;
    if !cursor.rest().is_empty() {
        return None;
    }
    Some(instance)
}

/// The instance that `0x` and hex digits spell. `Err` is out of memory.
fn spelled_instance(alloc: Global, text: &[u8]) -> Result<Option<Instance>, AllocError>
    ensures { IfOk result (λ o. o ≡ instance_of text.now) }
{
    let Some(digits) = behind_0x(text) else {
        return Ok(None);
    };
    match hex::decode(alloc, digits) {
        Ok(bytes) => Ok(whole_instance(bytes.as_slice())),
        Err(FromHexError::OutOfMemory) => Err(AllocError),
        Err(_) => Ok(None),
    }
}

/// An instance, as `0x` and the hex digits, of either case, of its spelling.
#[tactic(auto, unfolding(crate::specs::Entries::instance_form))]
pub(crate) fn instance_of(alloc: Global, place: Place, value: &Value) -> Result<Instance, Stop>
    ensures { Answers result (instance_form place (view value.now)) }
{
    let text = text_of(place, value)?;
    match spelled_instance(alloc, text.as_bytes())? {
        Some(instance) => Ok(instance),
        None => Err(Stop::Fault(NetworkFault::BadValue(place))),
    }
}
