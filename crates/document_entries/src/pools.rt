//! Pools of two assets.
ghost use Rattle.serde_json.specs.View.{view};
ghost use Rattle.document_entries.specs.Answers.{Answers};
ghost use Rattle.document_entries.specs.Entries.{pool};

use crate::fields::needed;
use crate::places::location_of;
use crate::{Place, Stop, check_fields, number_of};
use asset_pools::Pool;
use serde_json::Value;
use std::alloc::Global;

/// A pool: its two assets, and its fee in thousandths of what is given, from 0 to 999.
#[tactic(auto, unfolding(crate::specs::Entries::pool, crate::specs::Forms::fields, crate::specs::Forms::required_field))]
pub fn pool_of(alloc: Global, place: Place, value: &Value) -> Result<Pool, Stop>
    ensures { Answers result (pool place (view value.now)) }
{
    check_fields(place, &["first", "second", "fee"], value)?;
    let first = location_of(alloc, place, needed(place, "first", value)?)?;
    let second = location_of(alloc, place, needed(place, "second", value)?)?;
    let fee = number_of(place, 0, 999, needed(place, "fee", value)?)?;
    Ok(Pool { first, second, fee })
}
