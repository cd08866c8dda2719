//! Channels.
ghost use Rattle.std.specs.Prelude.{codes, Option, ◌≤◌};
ghost use Rattle.std.specs.Option.{option_map};
ghost use Rattle.serde_json.specs.Find.{get};
ghost use Rattle.serde_json.specs.View.{view};
ghost use Rattle.document_entries.specs.Answers.{Answers};
ghost use Rattle.document_entries.specs.Forms.{defaulted, number_within, fields};
ghost use Rattle.document_entries.specs.Entries.{channel_entry, channel_fields, version, fee};
ghost use Rattle.operands.specs.declared.version.Version.TheVariants.{V4};

use crate::fields::needed;
use crate::names::chain_of;
use crate::places::location_of;
use crate::rates::amount_of;
use crate::{NetworkFault, Place, Stop, check_fields, number_of};
use asset_lists::{Asset, AssetId, Fun};
use asset_wire::Version;
use channel_parts::Channel;
use network_spec::ChannelSpec;
use serde_json::Value;
use std::alloc::Global;

/// A version of the XCM format.
#[tactic(auto, unfolding(crate::specs::Entries::version))]
fn version_of(place: Place, value: &Value) -> Result<Version, Stop>
    ensures { Answers result (version place (view value.now)) }
{
    if number_of(place, 3, 4, value)? == 3 {
        return Ok(Version::V3);
    }
    Ok(Version::V4)
}

/// The version, which may be absent.
fn version_field(place: Place, value: &Value) -> Result<Version, Stop>
    ensures { Answers result (defaulted (codes "version") V4 version place (view value.now)) }
{
    match value.get("version") {
        Some(version) => version_of(place, version),
        None => Ok(Version::V4),
    }
}

/// A number from 1 on, which may be absent and is then the most that it may be.
fn number_field(place: Place, name: &str, most: u32, value: &Value) -> Result<u32, Stop>
    ensures { Answers result (defaulted name.now most (number_within 1 most) place
        (view value.now)) }
{
    match value.get(name) {
        Some(number) => number_of(place, 1, most, number),
        None => Ok(most),
    }
}

/// What a message costs, if it costs something.
fn fee_of(
    alloc: Global,
    place: Place,
    asset: Option<&Value>,
    amount: Option<&Value>,
) -> Result<Option<Asset>, Stop>
    ensures { Answers result (fee place (option_map (λ v. view v.now) asset.entry)
        (option_map (λ v. view v.now) amount.entry)) }
{
    let Some(asset) = asset else {
        return match amount {
            None => Ok(None),
            Some(_) => Err(Stop::Fault(NetworkFault::MissingField(place))),
        };
    };
    let id = location_of(alloc, place, asset)?;
    let Some(amount) = amount else {
        return Err(Stop::Fault(NetworkFault::MissingField(place)));
    };
    let amount = amount_of(place, amount)?;
    Ok(Some(Asset {
        id: AssetId::Concrete(id),
        fun: Fun::Fungible(amount),
    }))
}

/// Refuses a channel with a field that the format doesn't have.
fn check_channel(place: Place, fees: bool, value: &Value) -> Result<(), Stop>
    ensures { Answers result (fields (channel_fields fees) place (view value.now)) }
{
    if fees {
        return check_fields(
            place,
            &[
                "from",
                "to",
                "version",
                "capacity",
                "max_size",
                "fee_asset",
                "fee",
            ],
            value,
        );
    }
    check_fields(
        place,
        &["from", "to", "version", "capacity", "max_size"],
        value,
    )
}

/// A channel; `fees` says whether the format has fees.
#[tactic(auto, unfolding(crate::specs::Entries::channel_entry, crate::specs::Forms::fields, crate::specs::Forms::required_field))]
pub fn channel_of(
    alloc: Global,
    place: Place,
    fees: bool,
    value: &Value,
) -> Result<ChannelSpec, Stop>
    ensures { Answers result (channel_entry fees place (view value.now)) }
{
    check_channel(place, fees, value)?;
    let from = chain_of(place, needed(place, "from", value)?)?;
    let to = chain_of(place, needed(place, "to", value)?)?;
    let version = version_field(place, value)?;
    let capacity = number_field(place, "capacity", 32, value)?;
    let max_size = number_field(place, "max_size", 65536, value)?;
    let fee = fee_of(alloc, place, value.get("fee_asset"), value.get("fee"))?;
    Ok(ChannelSpec {
        from,
        channel: Channel {
            to,
            version,
            capacity,
            max_size,
            fee,
        },
    })
}
