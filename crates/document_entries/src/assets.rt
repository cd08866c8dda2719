//! The assets that a chain lists.
ghost use Rattle.std.specs.Prelude.{Option};
ghost use Rattle.serde_json.specs.View.{view};
ghost use Rattle.document_entries.specs.Answers.{Answers};
ghost use Rattle.document_entries.specs.Forms.{defaulted, optional_field, decimal_below, chain, each, is_chain_kind};
ghost use Rattle.document_entries.specs.Entries as entries;
ghost use Rattle.document_entries.specs.Entries.{asset_row, kind, native, either, made, with_checking, amount_limit};
ghost use Rattle.std.specs.Prelude.{codes};
ghost use Rattle.asset_lists.specs.declared.units.Kind.TheVariants as kinds;
ghost use Rattle.trust_tables.specs.declared.rows.AssetRole.TheVariants.{Derivative};

use crate::alternatives::both_there;
use crate::entries::chains_of;
use crate::fields::needed;
use crate::names::chain_of;
use crate::places::fill_location;
use crate::rates::balance_of;
use crate::{NetworkFault, Place, Stop, check_fields, text_of};
use asset_lists::Kind;
use locations::Location;
use serde_json::Value;
use std::alloc::Global;
use trust_tables::{AssetRole, AssetRow};

/// A kind by its name.
#[tactic(auto, unfolding(crate::specs::Entries::kind))]
fn kind_of(place: Place, value: &Value) -> Result<Kind, Stop>
    ensures { Answers result (kind place (view value.now)) }
{
    match text_of(place, value)? {
        "fungible" => Ok(Kind::Fungible),
        "class" => Ok(Kind::Class),
        _ => Err(Stop::Fault(NetworkFault::BadValue(place))),
    }
}

/// The kind, which may be absent.
fn kind_field(place: Place, value: &Value) -> Result<Kind, Stop>
    ensures { Answers result (defaulted (codes "kind") kinds.Fungible kind place (view value.now)) }
{
    match value.get("kind") {
        Some(kind) => kind_of(place, kind),
        None => Ok(Kind::Fungible),
    }
}

/// The part that the chain plays for the asset, without a checking account.
fn role_of(alloc: Global, place: Place, value: &Value) -> Result<AssetRole, Stop>
    ensures { Answers result (either (codes "native") (made native (each is_chain_kind chain))
        (codes "reserve") (made Derivative chain) place (view value.now)) }
{
    match value.get("native") {
        Some(native) => match value.get("reserve") {
            Some(reserve) => Err(both_there(
                place,
                chains_of(alloc, place, native),
                chain_of(place, reserve),
            )),
            None => Ok(AssetRole::Native {
                partners: chains_of(alloc, place, native)?,
                checking: None,
            }),
        },
        None => match value.get("reserve") {
            Some(reserve) => Ok(AssetRole::Derivative {
                reserve: chain_of(place, reserve)?,
            }),
            None => Err(Stop::Fault(NetworkFault::MissingField(place))),
        },
    }
}

/// What the checking account begins with, if there is one.
fn checking_field(place: Place, value: &Value) -> Result<Option<u128>, Stop>
    ensures { Answers result (optional_field (codes "checking") (decimal_below amount_limit) place
        (view value.now)) }
{
    match value.get("checking") {
        Some(checking) => Ok(Some(balance_of(place, checking)?)),
        None => Ok(None),
    }
}

/// The part with a checking account, which only a native asset that has amounts may have.
fn with_checking(
    place: Place,
    kind: Kind,
    checking: Option<u128>,
    role: AssetRole,
) -> Result<AssetRole, Stop>
    ensures { Answers result (with_checking place kind checking role) }
{
    if checking.is_none() {
        return Ok(role);
    }
    match (kind, role) {
        (Kind::Fungible, AssetRole::Native { partners, .. }) => {
            Ok(AssetRole::Native { partners, checking })
        }
        _ => Err(Stop::Fault(NetworkFault::BadValue(place))),
    }
}

/// An asset that a chain lists.
#[tactic(auto, unfolding(crate::specs::Entries::asset_row, crate::specs::Forms::fields, crate::specs::Forms::required_field))]
pub fn asset_row_of(alloc: Global, place: Place, value: &Value) -> Result<AssetRow, Stop>
    ensures { Answers result (asset_row place (view value.now)) }
{
    check_fields(
        place,
        &["id", "kind", "native", "reserve", "checking"],
        value,
    )?;
    let mut id = Location::here();
    fill_location(alloc, place, needed(place, "id", value)?, &mut id)?;
    let kind = kind_field(place, value)?;
    let role = role_of(alloc, place, value)?;
    let checking = checking_field(place, value)?;
    let role = with_checking(place, kind, checking, role)?;
    Ok(AssetRow { id, kind, role })
}
