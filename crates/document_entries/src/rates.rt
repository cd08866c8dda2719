//! What weight costs, and amounts.
ghost use Rattle.std.specs.Prelude.{◌<◌, ◌^◌};
ghost use Rattle.serde_json.specs.View.{view};
ghost use Rattle.document_entries.specs.Answers.{Answers};
ghost use Rattle.document_entries.specs.Forms.{decimal_below};
ghost use Rattle.document_entries.specs.Entries.{rate, rate_limit, positive_amount_form, amount_limit};

use crate::fields::needed;
use crate::numbers::decimal_of;
use crate::places::location_of;
use crate::{NetworkFault, Place, Stop, check_fields};
use serde_json::Value;
use std::alloc::Global;
use weight_trader::Rate;

/// A number of a rate, which is below 2^60.
#[tactic(auto, unfolding(crate::specs::Entries::rate_limit))]
fn price_of(place: Place, value: &Value) -> Result<u64, Stop>
    ensures { Answers result (decimal_below rate_limit place (view value.now)) }
{
    let number = decimal_of(place, 1_152_921_504_606_846_976, value)?;
    Ok(number as u64)
}

/// An amount or 0, which is below 2^127.
#[tactic(auto, unfolding(crate::specs::Entries::amount_limit))]
pub(crate) fn balance_of(place: Place, value: &Value) -> Result<u128, Stop>
    ensures { Answers result (decimal_below amount_limit place (view value.now)) }
{
    decimal_of(
        place,
        170_141_183_460_469_231_731_687_303_715_884_105_728,
        value,
    )
}

/// An amount above 0 and below 2^127.
#[tactic(auto, unfolding(crate::specs::Entries::positive_amount_form))]
pub(crate) fn amount_of(place: Place, value: &Value) -> Result<u128, Stop>
    ensures { Answers result (positive_amount_form place (view value.now)) }
{
    let number = balance_of(place, value)?;
    if number == 0 {
        return Err(Stop::Fault(NetworkFault::BadValue(place)));
    }
    Ok(number)
}

/// What weight costs in an asset.
#[tactic(auto, unfolding(crate::specs::Entries::rate, crate::specs::Forms::fields, crate::specs::Forms::required_field))]
pub fn rate_of(alloc: Global, place: Place, value: &Value) -> Result<Rate, Stop>
    ensures { Answers result (rate place (view value.now)) }
{
    check_fields(place, &["asset", "per_second", "per_mb"], value)?;
    let asset = location_of(alloc, place, needed(place, "asset", value)?)?;
    let per_second = price_of(place, needed(place, "per_second", value)?)?;
    let per_mb = price_of(place, needed(place, "per_mb", value)?)?;
    Ok(Rate {
        asset,
        per_second,
        per_mb,
    })
}
