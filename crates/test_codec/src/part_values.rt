//! Texts, copies and equality of the parts.
ghost use Rattle.std.specs.Prelude.{◌≤◌, length};

use crate::part_builders::place;
use operands::{
    BoundedVec, LongBytes, MaybeError, OpenQuery, PalletInfo, PalletInfos, PalletName, Response,
    Weight, WeightLimit, XcmError,
};
use std::alloc::{AllocError, Global};
use std::test::Fail;

/// The errors in the order of their indices, with their texts.
const ERRORS: &[(XcmError, &str)] = &[
    (XcmError::Overflow, "Overflow"),
    (XcmError::Unimplemented, "Unimplemented"),
    (
        XcmError::UntrustedReserveLocation,
        "UntrustedReserveLocation",
    ),
    (
        XcmError::UntrustedTeleportLocation,
        "UntrustedTeleportLocation",
    ),
    (XcmError::LocationFull, "LocationFull"),
    (XcmError::LocationNotInvertible, "LocationNotInvertible"),
    (XcmError::BadOrigin, "BadOrigin"),
    (XcmError::InvalidLocation, "InvalidLocation"),
    (XcmError::AssetNotFound, "AssetNotFound"),
    (XcmError::FailedToTransactAsset, "FailedToTransactAsset"),
    (XcmError::NotWithdrawable, "NotWithdrawable"),
    (XcmError::LocationCannotHold, "LocationCannotHold"),
    (XcmError::ExceedsMaxMessageSize, "ExceedsMaxMessageSize"),
    (XcmError::DestinationUnsupported, "DestinationUnsupported"),
    (XcmError::Transport, "Transport"),
    (XcmError::Unroutable, "Unroutable"),
    (XcmError::UnknownClaim, "UnknownClaim"),
    (XcmError::FailedToDecode, "FailedToDecode"),
    (XcmError::MaxWeightInvalid, "MaxWeightInvalid"),
    (XcmError::NotHoldingFees, "NotHoldingFees"),
    (XcmError::TooExpensive, "TooExpensive"),
    (XcmError::Trap(1073741824), "Trap(1073741824)"),
    (XcmError::ExpectationFalse, "ExpectationFalse"),
    (XcmError::PalletNotFound, "PalletNotFound"),
    (XcmError::NameMismatch, "NameMismatch"),
    (XcmError::VersionIncompatible, "VersionIncompatible"),
    (XcmError::HoldingWouldOverflow, "HoldingWouldOverflow"),
    (XcmError::ExportError, "ExportError"),
    (XcmError::ReanchorFailed, "ReanchorFailed"),
    (XcmError::NoDeal, "NoDeal"),
    (XcmError::FeesNotMet, "FeesNotMet"),
    (XcmError::LockError, "LockError"),
    (XcmError::NoPermission, "NoPermission"),
    (XcmError::Unanchored, "Unanchored"),
    (XcmError::NotDepositable, "NotDepositable"),
];

/// Whether this is the text of the error.
fn has_text(alloc: Global, error: &XcmError, want: &str) -> Result<bool, Fail> {
    let text = format!(in alloc; "{error}")?;
    Ok(text.as_str() == want)
}

/// Whether a weight shows both dimensions.
fn shows_both(alloc: Global) -> Result<bool, Fail> {
    let weight = Weight {
        ref_time: 1_000_000_000_000,
        proof_size: 5_242_880,
    };
    let text = format!(in alloc; "{weight}")?;
    let is_limit = WeightLimit::Limited(weight) != WeightLimit::Unlimited;
    Ok(is_limit && text.as_str() == "1000000000000 5242880")
}

/// These bytes as a list of at most 48.
fn name(alloc: Global, bytes: &[u8]) -> Result<PalletName, AllocError>
    requires { length bytes.now ≤ 48 }
{
    Ok(BoundedVec::from_vec(bytes.to_vec(alloc)?))
}

/// Whether these bytes make a list that is equal to the other.
fn is_name(alloc: Global, bytes: &[u8], other: &PalletName) -> Result<bool, Fail>
    requires { length bytes.now ≤ 48 }
{
    let made = name(alloc, bytes)?;
    Ok(made == *other && made.items() == bytes)
}

/// Whether lists are equal element by element, and a copy has the items.
fn are_lists(alloc: Global) -> Result<bool, Fail> {
    let one = name(alloc, &[1, 2, 3])?;
    let same = one.copy()?;
    Ok(
        is_name(alloc, &[1, 2, 3], &one)?
            && !is_name(alloc, &[1, 2], &one)?
            && !is_name(alloc, &[1, 2, 4], &one)?
            && same.items() == [1, 2, 3].as_slice(),
    )
}

/// Whether a list of bytes may be long.
fn is_long(alloc: Global) -> Result<bool, AllocError> {
    let long: LongBytes = BoundedVec::from_vec(vec![in alloc; 7; 100]?);
    Ok(long.items().len() == 100)
}

fn balances(alloc: Global) -> Result<PalletInfo, AllocError> {
    Ok(PalletInfo {
        index: 4,
        name: name(alloc, b"Balances")?,
        module_name: name(alloc, b"pallet_balances")?,
        major: 1,
        minor: 2,
        patch: 3,
    })
}

/// Whether a copy of a pallet is the same.
fn is_copied(alloc: Global) -> Result<bool, AllocError> {
    let pallet = balances(alloc)?;
    let same = pallet.copy()?;
    Ok(same == pallet && same.name.items() == b"Balances".as_slice())
}

/// The end of a call with the bytes 1 and 2, some of them cut off.
fn cut_off(alloc: Global) -> Result<MaybeError, AllocError> {
    let items = vec![in alloc; 1, 2]?;
    Ok(MaybeError::TruncatedError(BoundedVec::from_vec(items)))
}

/// Whether copies of ends are the same, and another end isn't.
fn are_ends(alloc: Global) -> Result<bool, AllocError> {
    let error = cut_off(alloc)?;
    let same = error.copy()?;
    let whole = MaybeError::Error(BoundedVec::from_vec(vec![in alloc; 1, 2]?));
    let success = MaybeError::Success.copy()?;
    Ok(same == error && error != whole && success == MaybeError::Success)
}

/// Whether responses of two kinds differ.
fn differ(alloc: Global) -> Result<bool, AllocError> {
    let pallets: PalletInfos = BoundedVec::from_vec(vec![in alloc; balances(alloc)?]?);
    let ended = Response::DispatchResult(cut_off(alloc)?);
    Ok(Response::PalletsInfo(pallets) != ended)
}

/// The query of this number that the relay chain may answer.
fn query(id: u64) -> OpenQuery {
    let from = place(1, &[]);
    OpenQuery { id, from }
}

#[test]
fn parts_have_texts_and_copies(rt: HostRuntime) -> Result<(), Fail> {
    let alloc = rt.alloc();
    for (error, want) in ERRORS {
        assert!(rt; has_text(alloc, error, want)?, "{want}");
    }
    assert!(rt; shows_both(alloc)?);
    assert!(rt; are_lists(alloc)? && is_long(alloc)?);
    assert!(rt; is_copied(alloc)?);
    assert!(rt; are_ends(alloc)? && differ(alloc)?);
    assert!(rt; query(7) == query(7) && query(7) != query(8));
    Ok(())
}
