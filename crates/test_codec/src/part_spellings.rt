//! Weights, limits, errors, queries and responses.

use crate::part_builders::{filled, unhex};
use asset_lists::{AssetId, Fun};
use asset_wire::{Version, WireFault};
use locations::{Junction, Location};
use operands::{
    LongBytes, MaybeError, OriginKind, PalletInfo, PalletName, QueryInfo, Response, Weight,
    WeightLimit, XcmError,
};
use scale_codec::{Cursor, Draft, Out};
use std::alloc::Global;
use std::test::Fail;
use xcm_format::{
    law_of_no_prefix, law_of_one_spelling, law_of_readers, law_of_writable_operands, put_bytes,
    put_maybe_error, put_optional_failure, put_optional_location, put_origin_kind, put_query_info,
    put_response, put_weight, put_weight_limit, take_bytes, take_maybe_error,
    take_optional_failure, take_optional_location, take_origin_kind, take_query_info,
    take_response, take_weight, take_weight_limit,
};

/// Parents and junctions.
type Place = (u8, &'static [Junction]);

/// What is known of the end of a call.
enum End {
    Success,
    Error(&'static [u8]),
    Truncated(&'static [u8]),
}

/// What a response answers.
enum Answer {
    Null,
    Version(u32),
    /// A call that ended well.
    Ended,
    Executed(Option<(u32, XcmError)>),
    /// 1 of the asset of the chain above.
    Asset,
    /// The pallet of balances.
    Pallet,
}

/// A value that has a spelling.
enum Value {
    Weight(Weight),
    Limit(WeightLimit),
    Kind(OriginKind),
    /// A failure of the first instruction.
    Failed(XcmError),
    MaybeFailed(Option<(u32, XcmError)>),
    MaybePlace(Option<Place>),
    /// A query of parachain 1000 above, of number 7, for this weight.
    Query(Weight),
    Name(&'static [u8]),
    /// So many bytes, where there may be many.
    Long(usize),
    End(End),
    Response(Version, Answer),
}

/// Values, and the hex of their spellings.
const SPELLED: &[(Value, &str)] = &[
    (
        Value::Weight(Weight {
            ref_time: 0,
            proof_size: 0,
        }),
        "0000",
    ),
    (
        Value::Weight(Weight {
            ref_time: 64,
            proof_size: 1,
        }),
        "010104",
    ),
    (
        Value::Weight(Weight {
            ref_time: 1_000_000_000_000,
            proof_size: 5_242_880,
        }),
        "070010a5d4e802004001",
    ),
    (
        Value::Weight(Weight {
            ref_time: 18_446_744_073_709_551_615,
            proof_size: 0,
        }),
        "13ffffffffffffffff00",
    ),
    (Value::Limit(WeightLimit::Unlimited), "00"),
    (
        Value::Limit(WeightLimit::Limited(Weight {
            ref_time: 1,
            proof_size: 2,
        })),
        "010408",
    ),
    (Value::Kind(OriginKind::Native), "00"),
    (Value::Kind(OriginKind::SovereignAccount), "01"),
    (Value::Kind(OriginKind::Superuser), "02"),
    (Value::Kind(OriginKind::Xcm), "03"),
    // each error without a code is its index, and a trap has its code after that
    (Value::Failed(XcmError::Overflow), "010000000000"),
    (Value::Failed(XcmError::Unimplemented), "010000000001"),
    (
        Value::Failed(XcmError::UntrustedReserveLocation),
        "010000000002",
    ),
    (
        Value::Failed(XcmError::UntrustedTeleportLocation),
        "010000000003",
    ),
    (Value::Failed(XcmError::LocationFull), "010000000004"),
    (
        Value::Failed(XcmError::LocationNotInvertible),
        "010000000005",
    ),
    (Value::Failed(XcmError::BadOrigin), "010000000006"),
    (Value::Failed(XcmError::InvalidLocation), "010000000007"),
    (Value::Failed(XcmError::AssetNotFound), "010000000008"),
    (
        Value::Failed(XcmError::FailedToTransactAsset),
        "010000000009",
    ),
    (Value::Failed(XcmError::NotWithdrawable), "01000000000a"),
    (Value::Failed(XcmError::LocationCannotHold), "01000000000b"),
    (
        Value::Failed(XcmError::ExceedsMaxMessageSize),
        "01000000000c",
    ),
    (
        Value::Failed(XcmError::DestinationUnsupported),
        "01000000000d",
    ),
    (Value::Failed(XcmError::Transport), "01000000000e"),
    (Value::Failed(XcmError::Unroutable), "01000000000f"),
    (Value::Failed(XcmError::UnknownClaim), "010000000010"),
    (Value::Failed(XcmError::FailedToDecode), "010000000011"),
    (Value::Failed(XcmError::MaxWeightInvalid), "010000000012"),
    (Value::Failed(XcmError::NotHoldingFees), "010000000013"),
    (Value::Failed(XcmError::TooExpensive), "010000000014"),
    (Value::Failed(XcmError::ExpectationFalse), "010000000016"),
    (Value::Failed(XcmError::PalletNotFound), "010000000017"),
    (Value::Failed(XcmError::NameMismatch), "010000000018"),
    (Value::Failed(XcmError::VersionIncompatible), "010000000019"),
    (
        Value::Failed(XcmError::HoldingWouldOverflow),
        "01000000001a",
    ),
    (Value::Failed(XcmError::ExportError), "01000000001b"),
    (Value::Failed(XcmError::ReanchorFailed), "01000000001c"),
    (Value::Failed(XcmError::NoDeal), "01000000001d"),
    (Value::Failed(XcmError::FeesNotMet), "01000000001e"),
    (Value::Failed(XcmError::LockError), "01000000001f"),
    (Value::Failed(XcmError::NoPermission), "010000000020"),
    (Value::Failed(XcmError::Unanchored), "010000000021"),
    (Value::Failed(XcmError::NotDepositable), "010000000022"),
    (
        Value::Failed(XcmError::Trap(0x4000_0000)),
        "0100000000150000004000000000",
    ),
    (
        Value::MaybeFailed(Some((258, XcmError::Trap(5)))),
        "0102010000150500000000000000",
    ),
    (Value::MaybeFailed(None), "00"),
    (
        Value::MaybeFailed(Some((1, XcmError::Overflow))),
        "010100000000",
    ),
    (Value::MaybePlace(None), "00"),
    (Value::MaybePlace(Some((1, &[]))), "010100"),
    (
        Value::MaybePlace(Some((0, &[Junction::Parachain(2000)]))),
        "01000100411f",
    ),
    (
        Value::Query(Weight {
            ref_time: 64,
            proof_size: 1,
        }),
        "010100a10f1c010104",
    ),
    // bytes are their number and themselves
    (Value::Name(&[]), "00"),
    (Value::Name(&[7, 7, 7]), "0c070707"),
    (
        Value::Name(&[7; 48]),
        "c0070707070707070707070707070707070707070707070707070707070707070707070707070707070707070707070707",
    ),
    (
        Value::Long(64),
        "010107070707070707070707070707070707070707070707070707070707070707070707070707070707070707070707070707070707070707070707070707070707",
    ),
    (Value::End(End::Success), "00"),
    (Value::End(End::Error(&[])), "0100"),
    (Value::End(End::Truncated(&[8, 9])), "02080809"),
    (
        Value::End(End::Truncated(&[5; 128])),
        "0201020505050505050505050505050505050505050505050505050505050505050505050505050505050505050505050505050505050505050505050505050505050505050505050505050505050505050505050505050505050505050505050505050505050505050505050505050505050505050505050505050505050505050505",
    ),
    (
        Value::Response(Version::V3, Answer::Asset),
        "01040001000004",
    ),
    (Value::Response(Version::V4, Answer::Asset), "010401000004"),
    (Value::Response(Version::V3, Answer::Null), "00"),
    (Value::Response(Version::V4, Answer::Null), "00"),
    (
        Value::Response(Version::V3, Answer::Version(4)),
        "0304000000",
    ),
    (
        Value::Response(Version::V4, Answer::Version(4)),
        "0304000000",
    ),
    (Value::Response(Version::V3, Answer::Ended), "0500"),
    (Value::Response(Version::V4, Answer::Ended), "0500"),
    (Value::Response(Version::V3, Answer::Executed(None)), "0200"),
    (Value::Response(Version::V4, Answer::Executed(None)), "0200"),
    (
        Value::Response(Version::V3, Answer::Executed(Some((1, XcmError::Trap(5))))),
        "020101000000150500000000000000",
    ),
    (
        Value::Response(Version::V4, Answer::Executed(Some((1, XcmError::Trap(5))))),
        "020101000000150500000000000000",
    ),
    (
        Value::Response(Version::V4, Answer::Pallet),
        "0404102042616c616e6365733c70616c6c65745f62616c616e6365730101080c",
    ),
];

/// Whether a weight, a limit, a kind of origin or a failure is read, and is written as it was spelled.
fn number_goes(out: &mut Draft, cursor: &mut Cursor<'_>, value: &Value) -> Result<bool, Fail> {
    match value {
        Value::Weight(value) => {
            put_weight(out, value)?;
            Ok(take_weight(cursor)? == *value)
        }
        Value::Limit(value) => {
            put_weight_limit(out, value)?;
            Ok(take_weight_limit(cursor)? == *value)
        }
        Value::Kind(value) => {
            put_origin_kind(out, value)?;
            Ok(take_origin_kind(cursor)? == *value)
        }
        Value::Failed(error) => {
            let value = Some((0, *error));
            put_optional_failure(out, &value)?;
            Ok(take_optional_failure(cursor)? == value)
        }
        Value::MaybeFailed(value) => {
            put_optional_failure(out, value)?;
            Ok(take_optional_failure(cursor)? == *value)
        }
        _ => Ok(false),
    }
}

/// Whether the location is that one.
fn is_place(location: &Location, (parents, junctions): Place) -> bool {
    location.parents == parents && location.interior.items() == junctions
}

/// Whether the location that may be left out is read, and is written as it was spelled.
fn place_goes(out: &mut Draft, cursor: &mut Cursor<'_>, want: Option<Place>) -> Result<bool, Fail> {
    let read = take_optional_location(cursor)?;
    put_optional_location(out, &read)?;
    Ok(match (&read, want) {
        (Some(location), Some(place)) => is_place(location, place),
        (None, None) => true,
        _ => false,
    })
}

/// Whether the query is read, and is written as it was spelled.
fn query_goes(out: &mut Draft, cursor: &mut Cursor<'_>, weight: Weight) -> Result<bool, Fail> {
    let read: QueryInfo = take_query_info(cursor)?;
    put_query_info(out, &read)?;
    let is_from = is_place(&read.destination, (1, &[Junction::Parachain(1000)]));
    Ok(is_from && read.query_id == 7 && read.max_weight == weight)
}

/// Whether the name is read, and is written as it was spelled.
fn name_goes(
    alloc: Global,
    out: &mut Draft,
    cursor: &mut Cursor<'_>,
    want: &[u8],
) -> Result<bool, Fail> {
    let read: PalletName = take_bytes(alloc, cursor)?;
    put_bytes(out, &read)?;
    Ok(read.items() == want)
}

/// Whether so many bytes are read, and are written as they were spelled.
fn long_goes(
    alloc: Global,
    out: &mut Draft,
    cursor: &mut Cursor<'_>,
    want: usize,
) -> Result<bool, Fail> {
    let read: LongBytes = take_bytes(alloc, cursor)?;
    put_bytes(out, &read)?;
    Ok(read.items().len() == want)
}

/// Whether the end of a call is that one.
fn is_end(read: &MaybeError, want: &End) -> bool {
    match (read, want) {
        (MaybeError::Success, End::Success) => true,
        (MaybeError::Error(bytes), End::Error(want)) => bytes.items() == *want,
        (MaybeError::TruncatedError(bytes), End::Truncated(want)) => bytes.items() == *want,
        _ => false,
    }
}

/// Whether the end of a call is read, and is written as it was spelled.
fn end_goes(
    alloc: Global,
    out: &mut Draft,
    cursor: &mut Cursor<'_>,
    want: &End,
) -> Result<bool, Fail> {
    let read = take_maybe_error(alloc, cursor)?;
    put_maybe_error(out, &read)?;
    Ok(is_end(&read, want))
}

/// Whether the pallet is that of balances.
fn is_balances(pallet: &PalletInfo) -> bool {
    pallet.index == 4
        && pallet.name.items() == b"Balances".as_slice()
        && pallet.module_name.items() == b"pallet_balances".as_slice()
        && pallet.major == 64
        && pallet.minor == 2
        && pallet.patch == 3
}

/// Whether the response is that one.
fn is_answer(read: &Response, want: &Answer) -> bool {
    match (read, want) {
        (Response::Null, Answer::Null) => true,
        (Response::Version(number), Answer::Version(want)) => *number == *want,
        (Response::DispatchResult(end), Answer::Ended) => is_end(end, &End::Success),
        (Response::ExecutionResult(failed), Answer::Executed(want)) => *failed == *want,
        (Response::Assets(assets), Answer::Asset) => match assets.items() {
            [asset] => asset.fun == Fun::Fungible(1)
                && match &asset.id {
                    AssetId::Concrete(location) => is_place(location, (1, &[])),
                    AssetId::Abstract(_) => false,
                },
            _ => false,
        },
        (Response::PalletsInfo(pallets), Answer::Pallet) => match pallets.items() {
            [pallet] => is_balances(pallet),
            _ => false,
        },
        _ => false,
    }
}

/// Whether the response is read, and is written as it was spelled.
fn response_goes(
    alloc: Global,
    out: &mut Draft,
    cursor: &mut Cursor<'_>,
    v: Version,
    want: &Answer,
) -> Result<bool, Fail> {
    let read = take_response(alloc, cursor, v)?;
    put_response(out, &read, v)?;
    Ok(is_answer(&read, want))
}

/// Whether the value is read, and is written as it was spelled.
fn goes(
    alloc: Global,
    out: &mut Draft,
    cursor: &mut Cursor<'_>,
    value: &Value,
) -> Result<bool, Fail> {
    match value {
        Value::MaybePlace(want) => place_goes(out, cursor, *want),
        Value::Query(weight) => query_goes(out, cursor, *weight),
        Value::Name(want) => name_goes(alloc, out, cursor, want),
        Value::Long(want) => long_goes(alloc, out, cursor, *want),
        Value::End(want) => end_goes(alloc, out, cursor, want),
        Value::Response(v, want) => response_goes(alloc, out, cursor, *v, want),
        _ => number_goes(out, cursor, value),
    }
}

/// Whether the bytes of the hex are what is written for the value, and are read as it.
fn spells(alloc: Global, value: &Value, hex: &str) -> Result<bool, Fail> {
    let bytes = unhex(alloc, hex)?;
    let mut out = Out::new(alloc);
    let mut cursor = Cursor::new(bytes.as_slice());
    let mut draft = out.draft();
    let goes = goes(alloc, &mut draft, &mut cursor, value)?;
    out.settle(draft, Ok(()))?;
    Ok(goes && out.bytes() == bytes.as_slice() && cursor.rest().is_empty())
}

/// What has a spelling.
enum Form {
    Weight,
    Limit,
    Kind,
    MaybeFailed,
    MaybePlace,
    Query,
    Name,
    End,
    /// A response of version 4.
    Response,
}

/// What isn't at the front of the bytes, and their hex.
const NOT_SPELLED: &[(Form, &str)] = &[
    (Form::Weight, ""),
    (Form::Weight, "00"),
    (Form::Weight, "010000"),
    (Form::Weight, "1700000000000000000100"),
    (Form::Limit, "02"),
    (Form::Limit, "0104"),
    (Form::Limit, ""),
    (Form::Kind, "04"),
    (Form::MaybeFailed, "02"),
    (Form::MaybeFailed, "01000000"),
    (Form::MaybeFailed, "0100000000"),
    (Form::MaybeFailed, "010000000023"),
    (Form::MaybeFailed, "01000000001500000040000000"),
    (Form::MaybePlace, "02"),
    (Form::MaybePlace, "010009"),
    (Form::Query, "01000404"),
    // more bytes of a name than there may be
    (
        Form::Name,
        "c407070707070707070707070707070707070707070707070707070707070707070707070707070707070707070707070707",
    ),
    // fewer than the number says
    (Form::Name, "0c0707"),
    (Form::Name, "03ffffffff0707"),
    // the number in a longer form
    (Form::Name, "0d00070707"),
    (Form::Name, ""),
    (
        Form::End,
        "020502050505050505050505050505050505050505050505050505050505050505050505050505050505050505050505050505050505050505050505050505050505050505050505050505050505050505050505050505050505050505050505050505050505050505050505050505050505050505050505050505050505050505050505",
    ),
    (Form::End, "03"),
    (Form::End, "010801"),
    // a pallet's name of 49 bytes, and then enough for the rest
    (
        Form::Response,
        "040400c4000000000000000000000000000000000000000000000000000000000000000000000000000000000000000000000000000000000000000000000000",
    ),
    (Form::Response, ""),
    (Form::Response, "06"),
    (Form::Response, "0202"),
    (Form::Response, "02010000000023"),
    (Form::Response, "030400"),
    (Form::Response, "0503"),
    // assets of version 3, and an amount of 0
    (Form::Response, "01040001000004"),
    (Form::Response, "010401000000"),
];

/// Whether no prefix of the bytes is spelled so.
fn refuses(alloc: Global, cursor: &mut Cursor<'_>, form: &Form) -> bool {
    match form {
        Form::Weight => take_weight(cursor).is_err(),
        Form::Limit => take_weight_limit(cursor).is_err(),
        Form::Kind => take_origin_kind(cursor).is_err(),
        Form::MaybeFailed => take_optional_failure(cursor).is_err(),
        Form::MaybePlace => take_optional_location(cursor).is_err(),
        Form::Query => take_query_info(cursor).is_err(),
        Form::Name => {
            let read: Result<PalletName, WireFault> = take_bytes(alloc, cursor);
            matches!(read, Err(WireFault::NoSpelling))
        }
        Form::End => matches!(take_maybe_error(alloc, cursor), Err(WireFault::NoSpelling)),
        Form::Response => matches!(
            take_response(alloc, cursor, Version::V4),
            Err(WireFault::NoSpelling)
        ),
    }
}

/// Whether no prefix of the bytes is spelled so.
fn are_none(alloc: Global, form: &Form, bytes: &[u8]) -> bool {
    let mut cursor = Cursor::new(bytes);
    refuses(alloc, &mut cursor, form)
}

/// Whether no prefix of what the hex says is spelled so.
fn is_none(alloc: Global, form: &Form, hex: &str) -> Result<bool, Fail> {
    let bytes = unhex(alloc, hex)?;
    Ok(are_none(alloc, form, bytes.as_slice()))
}

/// How many pallets the response of version 4 at the front of the bytes has, if it has pallets and is all of the bytes.
fn pallets_of(alloc: Global, bytes: &[u8]) -> Result<Option<usize>, WireFault> {
    let mut cursor = Cursor::new(bytes);
    let read = take_response(alloc, &mut cursor, Version::V4)?;
    match read {
        Response::PalletsInfo(pallets) if cursor.rest().is_empty() => Ok(Some(
            pallets.items().len(),
        )),
        _ => Ok(None),
    }
}

/// Whether a response has at most 64 pallets. Six bytes of 0 are one of index 0 without names, of version 0.0.0.
fn has_few_pallets(alloc: Global) -> Result<bool, Fail> {
    let most = filled(alloc, &[4, 1, 1], 6 * 64, 0)?;
    let past = filled(alloc, &[4, 5, 1], 6 * 65, 0)?;
    let count = pallets_of(alloc, most.as_slice());
    Ok(count == Ok(Some(64)) && are_none(alloc, &Form::Response, past.as_slice()))
}

#[test]
fn parts_are_read_and_written(rt: HostRuntime) -> Result<(), Fail> {
    let alloc = rt.alloc();
    for (value, hex) in SPELLED {
        assert!(rt; spells(alloc, value, hex)?, "{hex}");
    }
    for (form, hex) in NOT_SPELLED {
        assert!(rt; is_none(alloc, form, hex)?, "{hex}");
    }
    assert!(rt; has_few_pallets(alloc)?);
    Ok(())
}

#[test]
fn the_laws_of_parts_can_be_called() {
    law_of_one_spelling();
    law_of_no_prefix();
    law_of_readers();
    law_of_writable_operands();
}
