//! Reads of the parts of instructions, for the readers of instructions. `NoSpelling` comes exactly where no prefix spells the part; where
//! the cursor is then isn't said.

ghost use Rattle.std.specs.Prelude.{◌≡◌, vec_len, IfOk};
ghost use Rattle.scale_codec.specs.Reading.{optional_at, repeated};
ghost use Rattle.scale_codec.specs.Answers.{Got, GotOrFails};
ghost use Rattle.location_wire.specs.Reading.{location_at};
ghost use Rattle.xcm_format.specs.Reading.{weight_at, weight_limit_at, origin_kind_at, error_at, failure_at, bytes_at, maybe_error_at, pallet_info_at, pallet_infos_at, query_info_at, response_at};

use asset_wire::{Version, WireFault, take_assets};
use location_wire::take_location;
use locations::Location;
use operands::{
    BoundedVec, MaybeError, OriginKind, PalletInfo, PalletInfos, QueryInfo, Response, Weight,
    WeightLimit, XcmError,
};
use scale_codec::{Cursor, NoSpelling};
use std::alloc::Global;

/// The weight at the front of what is left: two compact numbers, picoseconds and bytes.
#[tactic(auto, unfolding(crate::specs::Reading::weight_at))]
pub fn take_weight(c: &mut Cursor<'_>) -> Result<Weight, NoSpelling>
    ensures { Got result (weight_at c.old) c.new }
{
    let ref_time = c.compact_u64()?;
    let proof_size = c.compact_u64()?;
    Ok(Weight {
        ref_time,
        proof_size,
    })
}

/// The limit of a weight at the front of what is left.
#[tactic(auto, unfolding(crate::specs::Reading::weight_limit_at))]
pub fn take_weight_limit(c: &mut Cursor<'_>) -> Result<WeightLimit, NoSpelling>
    ensures { Got result (weight_limit_at c.old) c.new }
{
    match c.u8()? {
        0 => Ok(WeightLimit::Unlimited),
        1 => Ok(WeightLimit::Limited(take_weight(c)?)),
        _ => Err(NoSpelling),
    }
}

/// The kind of origin at the front of what is left.
#[tactic(auto, unfolding(crate::specs::Reading::origin_kind_at))]
pub fn take_origin_kind(c: &mut Cursor<'_>) -> Result<OriginKind, NoSpelling>
    ensures { Got result (origin_kind_at c.old) c.new }
{
    match c.u8()? {
        0 => Ok(OriginKind::Native),
        1 => Ok(OriginKind::SovereignAccount),
        2 => Ok(OriginKind::Superuser),
        3 => Ok(OriginKind::Xcm),
        _ => Err(NoSpelling),
    }
}

/// The error at the front of what is left.
#[tactic(auto, unfolding(crate::specs::Reading::error_at))]
fn take_error(c: &mut Cursor<'_>) -> Result<XcmError, NoSpelling>
    ensures { Got result (error_at c.old) c.new }
{
    match c.u8()? {
        0 => Ok(XcmError::Overflow),
        1 => Ok(XcmError::Unimplemented),
        2 => Ok(XcmError::UntrustedReserveLocation),
        3 => Ok(XcmError::UntrustedTeleportLocation),
        4 => Ok(XcmError::LocationFull),
        5 => Ok(XcmError::LocationNotInvertible),
        6 => Ok(XcmError::BadOrigin),
        7 => Ok(XcmError::InvalidLocation),
        8 => Ok(XcmError::AssetNotFound),
        9 => Ok(XcmError::FailedToTransactAsset),
        10 => Ok(XcmError::NotWithdrawable),
        11 => Ok(XcmError::LocationCannotHold),
        12 => Ok(XcmError::ExceedsMaxMessageSize),
        13 => Ok(XcmError::DestinationUnsupported),
        14 => Ok(XcmError::Transport),
        15 => Ok(XcmError::Unroutable),
        16 => Ok(XcmError::UnknownClaim),
        17 => Ok(XcmError::FailedToDecode),
        18 => Ok(XcmError::MaxWeightInvalid),
        19 => Ok(XcmError::NotHoldingFees),
        20 => Ok(XcmError::TooExpensive),
        21 => Ok(XcmError::Trap(c.u64_le()?)),
        22 => Ok(XcmError::ExpectationFalse),
        23 => Ok(XcmError::PalletNotFound),
        24 => Ok(XcmError::NameMismatch),
        25 => Ok(XcmError::VersionIncompatible),
        26 => Ok(XcmError::HoldingWouldOverflow),
        27 => Ok(XcmError::ExportError),
        28 => Ok(XcmError::ReanchorFailed),
        29 => Ok(XcmError::NoDeal),
        30 => Ok(XcmError::FeesNotMet),
        31 => Ok(XcmError::LockError),
        32 => Ok(XcmError::NoPermission),
        33 => Ok(XcmError::Unanchored),
        34 => Ok(XcmError::NotDepositable),
        _ => Err(NoSpelling),
    }
}

/// Where an execution failed, and why: the index of an instruction and its error.
#[tactic(auto, unfolding(crate::specs::Reading::failure_at))]
fn take_failure(c: &mut Cursor<'_>) -> Result<(u32, XcmError), NoSpelling>
    ensures { Got result (failure_at c.old) c.new }
{
    let index = c.u32_le()?;
    let error = take_error(c)?;
    Ok((index, error))
}

/// Where an execution failed, and why, or that it didn't.
pub fn take_optional_failure(c: &mut Cursor<'_>) -> Result<Option<(u32, XcmError)>, NoSpelling>
    ensures { Got result (optional_at failure_at c.old) c.new }
{
    match c.u8()? {
        0 => Ok(None),
        1 => Ok(Some(take_failure(c)?)),
        _ => Err(NoSpelling),
    }
}

/// A location that may be left out.
pub fn take_optional_location(c: &mut Cursor<'_>) -> Result<Option<Location>, NoSpelling>
    ensures { Got result (optional_at location_at c.old) c.new }
{
    match c.u8()? {
        0 => Ok(None),
        1 => Ok(Some(take_location(c)?)),
        _ => Err(NoSpelling),
    }
}

/// At most `MOST` bytes after their number. Memory is taken when they are all there, and not by their number.
#[tactic(auto, unfolding(crate::specs::Reading::bytes_at))]
pub fn take_bytes<const MOST: usize>(
    alloc: Global,
    c: &mut Cursor<'_>,
) -> Result<BoundedVec<u8, MOST>, WireFault>
    ensures { GotOrFails (λ b. b) result (bytes_at MOST c.old) c.new }
{
    let count = c.compact_u32()? as usize;
    if count > MOST {
        return Err(WireFault::NoSpelling);
    }
    let bytes = c.take(count)?.to_vec(alloc)?;
    Ok(BoundedVec::from_vec(bytes))
}

/// How a call ended, with at most 128 bytes of an error.
#[tactic(auto, unfolding(crate::specs::Reading::maybe_error_at))]
pub fn take_maybe_error(alloc: Global, c: &mut Cursor<'_>) -> Result<MaybeError, WireFault>
    ensures { GotOrFails (λ status. status) result (maybe_error_at c.old) c.new }
{
    match c.u8()? {
        0 => Ok(MaybeError::Success),
        1 => Ok(MaybeError::Error(take_bytes(alloc, c)?)),
        2 => Ok(MaybeError::TruncatedError(take_bytes(alloc, c)?)),
        _ => Err(WireFault::NoSpelling),
    }
}

/// The pallet at the front of what is left, whose names have at most 48 bytes.
#[tactic(auto, unfolding(crate::specs::Reading::pallet_info_at))]
fn take_pallet_info(alloc: Global, c: &mut Cursor<'_>) -> Result<PalletInfo, WireFault>
    ensures { GotOrFails (λ pallet. pallet) result (pallet_info_at c.old) c.new }
{
    let index = c.compact_u32()?;
    let name = take_bytes(alloc, c)?;
    let module_name = take_bytes(alloc, c)?;
    let major = c.compact_u32()?;
    let minor = c.compact_u32()?;
    let patch = c.compact_u32()?;
    Ok(PalletInfo {
        index,
        name,
        module_name,
        major,
        minor,
        patch,
    })
}

/// So many pallets. Memory is taken as they are read, and not by their number.
fn take_several(alloc: Global, c: &mut Cursor<'_>, count: u32) -> Result<Vec<PalletInfo>, WireFault>
    ensures read { GotOrFails (λ items. items.items) result (repeated pallet_info_at count c.old)
        c.new }
    ensures count { IfOk result (λ items. vec_len items ≡ count) }
{
    let mut items = Vec::new(alloc);
    for _ in 0..count {
        let pallet = take_pallet_info(alloc, c)?;
        items.push(pallet)?;
    }
    Ok(items)
}

#[tactic(auto, unfolding(crate::specs::Reading::pallet_infos_at))]
fn take_pallet_infos(alloc: Global, c: &mut Cursor<'_>) -> Result<PalletInfos, WireFault>
    ensures { GotOrFails (λ pallets. pallets) result (pallet_infos_at c.old) c.new }
{
    let count = c.compact_u32()?;
    if count > 64 {
        return Err(WireFault::NoSpelling);
    }
    let items = take_several(alloc, c, count)?;
    Ok(BoundedVec::from_vec(items))
}

/// Where a response goes and what it answers.
#[tactic(auto, unfolding(crate::specs::Reading::query_info_at))]
pub fn take_query_info(c: &mut Cursor<'_>) -> Result<QueryInfo, NoSpelling>
    ensures { Got result (query_info_at c.old) c.new }
{
    let destination = take_location(c)?;
    let query_id = c.compact_u64()?;
    let max_weight = take_weight(c)?;
    Ok(QueryInfo {
        destination,
        query_id,
        max_weight,
    })
}

/// The response at the front of what is left, as the version spells it.
#[tactic(auto, unfolding(crate::specs::Reading::response_at))]
pub fn take_response(alloc: Global, c: &mut Cursor<'_>, v: Version) -> Result<Response, WireFault>
    ensures { GotOrFails (λ answer. answer) result (response_at v c.old) c.new }
{
    match c.u8()? {
        0 => Ok(Response::Null),
        1 => Ok(Response::Assets(take_assets(alloc, c, v)?)),
        2 => Ok(Response::ExecutionResult(take_optional_failure(c)?)),
        3 => Ok(Response::Version(c.u32_le()?)),
        4 => Ok(Response::PalletsInfo(take_pallet_infos(alloc, c)?)),
        5 => Ok(Response::DispatchResult(take_maybe_error(alloc, c)?)),
        _ => Err(WireFault::NoSpelling),
    }
}
