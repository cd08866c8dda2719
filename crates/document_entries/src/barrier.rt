//! Barriers.
ghost use Rattle.serde_json.specs.View.{view};
ghost use Rattle.document_entries.specs.Answers.{Answers};
ghost use Rattle.document_entries.specs.Entries.{barrier, barrier_of_object, named_barrier};

use crate::alternatives::both_there;
use crate::places::locations_of;
use crate::{NetworkFault, Place, Stop, check_fields};
use barriers::Barrier;
use serde_json::Value;
use std::alloc::Global;

/// A barrier by its name.
fn named_barrier(place: Place, name: &str) -> Result<Barrier, Stop>
    ensures { Answers result (named_barrier place name.now) }
{
    match name {
        "credit" => Ok(Barrier::Credit),
        "paid" => Ok(Barrier::Paid),
        "responses" => Ok(Barrier::Responses),
        _ => Err(Stop::Fault(NetworkFault::BadValue(place))),
    }
}

/// A barrier that lists origins.
fn barrier_of_object(alloc: Global, place: Place, value: &Value) -> Result<Barrier, Stop>
    ensures { Answers result (barrier_of_object place (view value.now)) }
{
    check_fields(place, &["explicit", "unpaid"], value)?;
    match value.get("explicit") {
        Some(explicit) => match value.get("unpaid") {
            Some(unpaid) => Err(both_there(
                place,
                locations_of(alloc, place, explicit),
                locations_of(alloc, place, unpaid),
            )),
            None => Ok(Barrier::Explicit(locations_of(alloc, place, explicit)?)),
        },
        None => match value.get("unpaid") {
            Some(unpaid) => Ok(Barrier::Unpaid(locations_of(alloc, place, unpaid)?)),
            None => Err(Stop::Fault(NetworkFault::MissingField(place))),
        },
    }
}

/// A barrier: its name, or an object with the origins of which it speaks.
#[tactic(auto, unfolding(crate::specs::Entries::barrier))]
pub fn barrier_of(alloc: Global, place: Place, value: &Value) -> Result<Barrier, Stop>
    ensures { Answers result (barrier place (view value.now)) }
{
    match value.as_str() {
        Some(name) => named_barrier(place, name),
        None => barrier_of_object(alloc, place, value),
    }
}
