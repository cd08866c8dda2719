//! Writes of the parts of instructions, for the writers of instructions: each appends the one spelling to a draft, which is dropped where
//! memory is refused.

ghost use Rattle.std.specs.Prelude.{IfSome, ◌≤◌, length, ⊤};
ghost use Rattle.std.specs.List.{AllByRecursion};
ghost use Rattle.scale_codec.specs.Spelling.{optional, counted, compact};
ghost use Rattle.scale_codec.specs.Answers.{Puts};
ghost use Rattle.location_wire.specs.Spelling.{location, FitsLocation};
ghost use Rattle.xcm_format.specs.Parts.{weight, FitsWeight, weight_limit, FitsLimit, origin_kind, xcm_error, FitsError, failure, FitsFailure, bytes, FitsBytes, maybe_error, FitsMaybeError, pallet_info, FitsPallet, query_info, FitsInfo, response, FitsResponse};
ghost use Rattle.xcm_format.specs.Writable.{IsResponseNamed};

use asset_wire::{Version, put_assets};
use location_wire::put_location;
use locations::Location;
use operands::{
    BoundedVec, MaybeError, OriginKind, PalletInfo, PalletInfos, QueryInfo, Response, Weight,
    WeightLimit, XcmError,
};
use scale_codec::Draft;
use std::alloc::AllocError;

/// Appends the weight: two compact numbers, picoseconds and bytes.
#[tactic(auto, unfolding(crate::specs::Parts::weight))]
pub fn put_weight(o: &mut Draft, w: &Weight) -> Result<(), AllocError>
    ensures { Puts weight FitsWeight w.now result o.old o.new }
{
    o.put_compact(u128::from(w.ref_time))?;
    o.put_compact(u128::from(w.proof_size))
}

/// Appends the limit of a weight.
pub fn put_weight_limit(o: &mut Draft, limit: &WeightLimit) -> Result<(), AllocError>
    ensures { Puts weight_limit FitsLimit limit.now result o.old o.new }
{
    match limit {
        WeightLimit::Unlimited => o.put_u8(0),
        WeightLimit::Limited(weight) => {
            o.put_u8(1)?;
            put_weight(o, weight)
        }
    }
}

/// Appends the kind of origin.
pub fn put_origin_kind(o: &mut Draft, kind: &OriginKind) -> Result<(), AllocError>
    ensures { Puts origin_kind (λ _. ⊤) kind.now result o.old o.new }
{
    match kind {
        OriginKind::Native => o.put_u8(0),
        OriginKind::SovereignAccount => o.put_u8(1),
        OriginKind::Superuser => o.put_u8(2),
        OriginKind::Xcm => o.put_u8(3),
    }
}

/// Appends the error.
fn put_error(o: &mut Draft, error: &XcmError) -> Result<(), AllocError>
    ensures { Puts xcm_error FitsError error.now result o.old o.new }
{
    match error {
        XcmError::Overflow => o.put_u8(0),
        XcmError::Unimplemented => o.put_u8(1),
        XcmError::UntrustedReserveLocation => o.put_u8(2),
        XcmError::UntrustedTeleportLocation => o.put_u8(3),
        XcmError::LocationFull => o.put_u8(4),
        XcmError::LocationNotInvertible => o.put_u8(5),
        XcmError::BadOrigin => o.put_u8(6),
        XcmError::InvalidLocation => o.put_u8(7),
        XcmError::AssetNotFound => o.put_u8(8),
        XcmError::FailedToTransactAsset => o.put_u8(9),
        XcmError::NotWithdrawable => o.put_u8(10),
        XcmError::LocationCannotHold => o.put_u8(11),
        XcmError::ExceedsMaxMessageSize => o.put_u8(12),
        XcmError::DestinationUnsupported => o.put_u8(13),
        XcmError::Transport => o.put_u8(14),
        XcmError::Unroutable => o.put_u8(15),
        XcmError::UnknownClaim => o.put_u8(16),
        XcmError::FailedToDecode => o.put_u8(17),
        XcmError::MaxWeightInvalid => o.put_u8(18),
        XcmError::NotHoldingFees => o.put_u8(19),
        XcmError::TooExpensive => o.put_u8(20),
        XcmError::Trap(code) => {
            o.put_u8(21)?;
            o.put_u64(*code)
        }
        XcmError::ExpectationFalse => o.put_u8(22),
        XcmError::PalletNotFound => o.put_u8(23),
        XcmError::NameMismatch => o.put_u8(24),
        XcmError::VersionIncompatible => o.put_u8(25),
        XcmError::HoldingWouldOverflow => o.put_u8(26),
        XcmError::ExportError => o.put_u8(27),
        XcmError::ReanchorFailed => o.put_u8(28),
        XcmError::NoDeal => o.put_u8(29),
        XcmError::FeesNotMet => o.put_u8(30),
        XcmError::LockError => o.put_u8(31),
        XcmError::NoPermission => o.put_u8(32),
        XcmError::Unanchored => o.put_u8(33),
        XcmError::NotDepositable => o.put_u8(34),
    }
}

/// Appends where an execution failed, and why: the index of an instruction and its error.
fn put_failure(o: &mut Draft, failed: &(u32, XcmError)) -> Result<(), AllocError>
    ensures { Puts failure FitsFailure failed.now result o.old o.new }
{
    let (index, error) = failed;
    o.put_u32(*index)?;
    put_error(o, error)
}

/// Appends where an execution failed, and why, or that it didn't.
pub fn put_optional_failure(
    o: &mut Draft,
    failed: &Option<(u32, XcmError)>,
) -> Result<(), AllocError>
    ensures { Puts (optional failure) (λ f. IfSome f FitsFailure) failed.now result o.old o.new }
{
    match failed {
        None => o.put_u8(0),
        Some(failed) => {
            o.put_u8(1)?;
            put_failure(o, failed)
        }
    }
}

/// Appends a location that may be left out.
pub fn put_optional_location(o: &mut Draft, place: &Option<Location>) -> Result<(), AllocError>
    ensures { Puts (optional location) (λ p. IfSome p FitsLocation) place.now result o.old o.new }
{
    match place {
        None => o.put_u8(0),
        Some(place) => {
            o.put_u8(1)?;
            put_location(o, place)
        }
    }
}

/// Appends the bytes: their number, and the bytes as they are.
pub fn put_bytes<const MOST: usize>(
    o: &mut Draft,
    b: &BoundedVec<u8, MOST>,
) -> Result<(), AllocError>
    ensures { Puts bytes (FitsBytes MOST) b.now result o.old o.new }
{
    let items = b.items();
    o.put_compact(items.len() as u128)?;
    o.put_bytes(items)
}

/// Appends how a call ended.
pub fn put_maybe_error(o: &mut Draft, status: &MaybeError) -> Result<(), AllocError>
    ensures { Puts maybe_error FitsMaybeError status.now result o.old o.new }
{
    match status {
        MaybeError::Success => o.put_u8(0),
        MaybeError::Error(bytes) => {
            o.put_u8(1)?;
            put_bytes(o, bytes)
        }
        MaybeError::TruncatedError(bytes) => {
            o.put_u8(2)?;
            put_bytes(o, bytes)
        }
    }
}

/// Appends the pallet.
#[tactic(auto, unfolding(crate::specs::Parts::pallet_info))]
fn put_pallet_info(o: &mut Draft, pallet: &PalletInfo) -> Result<(), AllocError>
    ensures { Puts pallet_info FitsPallet pallet.now result o.old o.new }
{
    o.put_compact(u128::from(pallet.index))?;
    put_bytes(o, &pallet.name)?;
    put_bytes(o, &pallet.module_name)?;
    o.put_compact(u128::from(pallet.major))?;
    o.put_compact(u128::from(pallet.minor))?;
    o.put_compact(u128::from(pallet.patch))
}

/// How many pallets, and these.
fn put_pallet_infos(o: &mut Draft, pallets: &PalletInfos) -> Result<(), AllocError>
    ensures { Puts (counted compact pallet_info) (λ list. (length list ≤ 64)
        × AllByRecursion FitsPallet list) pallets.now result o.old o.new }
{
    let items = pallets.items();
    o.put_compact(items.len() as u128)?;
    for pallet in items {
        put_pallet_info(o, pallet)?;
    }
    Ok(())
}

/// Appends where a response goes and what it answers.
#[tactic(auto, unfolding(crate::specs::Parts::query_info))]
pub fn put_query_info(o: &mut Draft, info: &QueryInfo) -> Result<(), AllocError>
    ensures { Puts query_info FitsInfo info.now result o.old o.new }
{
    put_location(o, &info.destination)?;
    o.put_compact(u128::from(info.query_id))?;
    put_weight(o, &info.max_weight)
}

/// Appends the response in the version, which can say the ids of its assets.
pub fn put_response(o: &mut Draft, answer: &Response, v: Version) -> Result<(), AllocError>
    requires { IsResponseNamed v answer.now }
    ensures { Puts (response v) (FitsResponse v) answer.now result o.old o.new }
{
    match answer {
        Response::Null => o.put_u8(0),
        Response::Assets(list) => {
            o.put_u8(1)?;
            put_assets(o, list, v)
        }
        Response::ExecutionResult(failed) => {
            o.put_u8(2)?;
            put_optional_failure(o, failed)
        }
        Response::Version(version) => {
            o.put_u8(3)?;
            o.put_u32(*version)
        }
        Response::PalletsInfo(pallets) => {
            o.put_u8(4)?;
            put_pallet_infos(o, pallets)
        }
        Response::DispatchResult(status) => {
            o.put_u8(5)?;
            put_maybe_error(o, status)
        }
    }
}
