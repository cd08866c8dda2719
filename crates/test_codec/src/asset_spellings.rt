//! Asset ids, instances, assets, lists and filters.
ghost use Rattle.std.specs.Prelude.{◌≤◌};

use crate::part_builders::unhex;
use asset_lists::{Asset, AssetId, Filter, Fun, Instance, Wild, WildFun};
use asset_wire::{
    Version, WireFault, law_of_no_prefix, law_of_one_spelling, law_of_readers, law_of_versions,
    law_of_writable, put_asset, put_assets, put_filter, read_instance, take_assets,
    take_boxed_asset, take_filter, write_instance,
};
use locations::Junction;
use scale_codec::{Cursor, Out};
use std::alloc::{AllocError, Global};
use std::test::Fail;

/// What an asset is of.
enum Id {
    /// Parents and junctions.
    Place(u8, &'static [Junction]),
    Bytes([u8; 32]),
}

/// An asset.
struct Unit {
    id: Id,
    fun: Fun,
}

/// What a filter asks for.
enum Asked {
    List(&'static [Unit]),
    All,
    Counted(u32),
    Of(Id, WildFun),
    OfCounted(Id, WildFun, u32),
}

/// A value that has a spelling.
enum Value {
    Instance(Instance),
    Asset(Version, Unit),
    List(Version, &'static [Unit]),
    Filter(Version, Asked),
}

/// The chain above.
const ABOVE: Id = Id::Place(1, &[]);

/// 10^12 of the asset of the chain above.
const COINS: Unit = Unit {
    id: ABOVE,
    fun: Fun::Fungible(1_000_000_000_000),
};

/// An instance of the class of a pallet.
const PIECE: Unit = Unit {
    id: Id::Place(0, &[Junction::PalletInstance(50)]),
    fun: Fun::NonFungible(Instance::Index(7)),
};

/// An amount of the chain's own asset, one of another chain's, and an instance.
const THREE: &[Unit] = &[
    Unit {
        id: Id::Place(0, &[]),
        fun: Fun::Fungible(1),
    },
    Unit {
        id: ABOVE,
        fun: Fun::Fungible(64),
    },
    Unit {
        id: Id::Place(0, &[]),
        fun: Fun::NonFungible(Instance::Undefined),
    },
];

/// 1 of the asset of the chain above.
const ONE: &[Unit] = &[Unit {
    id: ABOVE,
    fun: Fun::Fungible(1),
}];

/// 1 of the asset of a sibling parachain.
const SIBLING: Unit = Unit {
    id: Id::Place(1, &[Junction::Parachain(2000)]),
    fun: Fun::Fungible(1),
};

/// 1 of the asset of 32 bytes of 5.
const FIVES: Unit = Unit {
    id: Id::Bytes([5; 32]),
    fun: Fun::Fungible(1),
};

/// 1 of the asset of 32 zero bytes.
const ZEROS: &[Unit] = &[Unit {
    id: Id::Bytes([0; 32]),
    fun: Fun::Fungible(1),
}];

/// One asset of 32 zero bytes in version 3. The same bytes say an amount of 0 in version 4.
const ABSTRACT: &str = "040100000000000000000000000000000000000000000000000000000000000000000004";

/// Values, and the hex of their spellings.
const SPELLED: &[(Value, &str)] = &[
    (Value::Instance(Instance::Undefined), "00"),
    (Value::Instance(Instance::Index(0)), "0100"),
    (Value::Instance(Instance::Index(64)), "010101"),
    (
        Value::Instance(Instance::Array4([1, 2, 3, 4])),
        "0201020304",
    ),
    (
        Value::Instance(Instance::Array8([8; 8])),
        "030808080808080808",
    ),
    (
        Value::Instance(Instance::Array16([16; 16])),
        "0410101010101010101010101010101010",
    ),
    (
        Value::Instance(Instance::Array32([32; 32])),
        "052020202020202020202020202020202020202020202020202020202020202020",
    ),
    // an asset is its id and its amount, or its class and its instance
    (Value::Asset(Version::V3, COINS), "00010000070010a5d4e8"),
    (Value::Asset(Version::V4, COINS), "010000070010a5d4e8"),
    (Value::Asset(Version::V3, PIECE), "000001043201011c"),
    (Value::Asset(Version::V4, PIECE), "0001043201011c"),
    // an id has an index before it in version 3, where it may be of bytes
    (Value::Asset(Version::V3, SIBLING), "00010100411f0004"),
    (Value::Asset(Version::V4, SIBLING), "010100411f0004"),
    (
        Value::Asset(Version::V3, FIVES),
        "0105050505050505050505050505050505050505050505050505050505050505050004",
    ),
    // a list is its number and its items
    (
        Value::List(Version::V3, THREE),
        "0c00000000040001000001010000000100",
    ),
    (
        Value::List(Version::V4, THREE),
        "0c00000004010000010100000100",
    ),
    (Value::List(Version::V3, &[]), "00"),
    (Value::List(Version::V4, &[]), "00"),
    (Value::List(Version::V3, ZEROS), ABSTRACT),
    (
        Value::Filter(Version::V3, Asked::List(ONE)),
        "00040001000004",
    ),
    (Value::Filter(Version::V4, Asked::List(ONE)), "000401000004"),
    (Value::Filter(Version::V3, Asked::All), "0100"),
    (Value::Filter(Version::V4, Asked::All), "0100"),
    (Value::Filter(Version::V3, Asked::Counted(5)), "010214"),
    (Value::Filter(Version::V4, Asked::Counted(5)), "010214"),
    (
        Value::Filter(Version::V3, Asked::Of(ABOVE, WildFun::Fungible)),
        "010100010000",
    ),
    (
        Value::Filter(Version::V4, Asked::Of(ABOVE, WildFun::Fungible)),
        "0101010000",
    ),
    (
        Value::Filter(
            Version::V3,
            Asked::OfCounted(ABOVE, WildFun::NonFungible, 64),
        ),
        "0103000100010101",
    ),
    (
        Value::Filter(
            Version::V4,
            Asked::OfCounted(ABOVE, WildFun::NonFungible, 64),
        ),
        "01030100010101",
    ),
];

/// Whether the id is that one.
fn is_id(id: &AssetId, want: &Id) -> bool {
    match (id, want) {
        (AssetId::Concrete(location), Id::Place(parents, junctions)) => location.parents == *parents
            && location.interior.items() == *junctions,
        (AssetId::Abstract(bytes), Id::Bytes(want)) => *bytes == *want,
        _ => false,
    }
}

/// Whether the asset is that one.
fn is_unit(asset: &Asset, want: &Unit) -> bool {
    asset.fun == want.fun && is_id(&asset.id, &want.id)
}

/// Whether the assets are those.
fn are_units(assets: &[Asset], want: &[Unit]) -> bool {
    for (asset, unit) in assets.iter().zip(want) {
        if !is_unit(asset, unit) {
            return false;
        }
    }
    assets.len() == want.len()
}

/// Whether the filter asks for that.
fn asks(filter: &Filter, want: &Asked) -> bool {
    match (filter, want) {
        (Filter::Definite(list), Asked::List(units)) => are_units(list.items(), units),
        (Filter::Wild(Wild::All), Asked::All) => true,
        (Filter::Wild(Wild::AllCounted(count)), Asked::Counted(want)) => *count == *want,
        (Filter::Wild(Wild::AllOf { id, fun }), Asked::Of(of, want)) => *fun == *want
            && is_id(id.value(), of),
        (Filter::Wild(Wild::AllOfCounted { id, fun, count }), Asked::OfCounted(of, kind, want)) =>
            *count == *want && *fun == *kind && is_id(id.value(), of),
        _ => false,
    }
}

/// Whether the instance is read, and is written as it was spelled.
fn instance_goes(out: &mut Out, cursor: &mut Cursor<'_>, want: &Instance) -> Result<bool, Fail> {
    write_instance(out, want)?;
    Ok(read_instance(cursor)? == *want)
}

/// Whether the asset is read, and is written as it was spelled.
fn asset_goes(
    alloc: Global,
    out: &mut Out,
    cursor: &mut Cursor<'_>,
    v: Version,
    want: &Unit,
) -> Result<bool, Fail> {
    let read = take_boxed_asset(alloc, cursor, v)?;
    let mut draft = out.draft();
    let written = put_asset(&mut draft, read.value(), v);
    out.settle(draft, written)?;
    Ok(is_unit(read.value(), want))
}

/// Whether the list is read, and is written as it was spelled.
fn list_goes(
    alloc: Global,
    out: &mut Out,
    cursor: &mut Cursor<'_>,
    v: Version,
    want: &[Unit],
) -> Result<bool, Fail> {
    let read = take_assets(alloc, cursor, v)?;
    let mut draft = out.draft();
    let written = put_assets(&mut draft, &read, v);
    out.settle(draft, written)?;
    Ok(are_units(read.items(), want))
}

/// Whether the filter is read, and is written as it was spelled.
fn filter_goes(
    alloc: Global,
    out: &mut Out,
    cursor: &mut Cursor<'_>,
    v: Version,
    want: &Asked,
) -> Result<bool, Fail> {
    let read = take_filter(alloc, cursor, v)?;
    let mut draft = out.draft();
    let written = put_filter(&mut draft, &read, v);
    out.settle(draft, written)?;
    Ok(asks(&read, want))
}

/// Whether the value is read, and is written as it was spelled.
fn goes(
    alloc: Global,
    out: &mut Out,
    cursor: &mut Cursor<'_>,
    value: &Value,
) -> Result<bool, Fail> {
    match value {
        Value::Instance(want) => instance_goes(out, cursor, want),
        Value::Asset(v, want) => asset_goes(alloc, out, cursor, *v, want),
        Value::List(v, want) => list_goes(alloc, out, cursor, *v, want),
        Value::Filter(v, want) => filter_goes(alloc, out, cursor, *v, want),
    }
}

/// Whether the bytes of the hex are what is written for the value, and are read as it.
fn spells(alloc: Global, value: &Value, hex: &str) -> Result<bool, Fail> {
    let bytes = unhex(alloc, hex)?;
    let mut out = Out::new(alloc);
    let mut cursor = Cursor::new(bytes.as_slice());
    let goes = goes(alloc, &mut out, &mut cursor, value)?;
    Ok(goes && out.bytes() == bytes.as_slice() && cursor.rest().is_empty())
}

/// What has a spelling.
enum Form {
    Instance,
    Asset(Version),
    List(Version),
    /// A filter of version 4.
    Filter,
}

/// What isn't at the front of the bytes, and their hex.
const NOT_SPELLED: &[(Form, &str)] = &[
    (Form::Instance, "0600"),
    (Form::Instance, "02010203"),
    (Form::Instance, ""),
    (Form::Asset(Version::V3), "020000"),
    (Form::Asset(Version::V4), "01000000"),
    (Form::Asset(Version::V4), "01000204"),
    (Form::Asset(Version::V4), "010000"),
    // an amount of 0
    (Form::List(Version::V4), "0400000000"),
    (Form::List(Version::V3), "040000000000"),
    (Form::List(Version::V4), ABSTRACT),
    // locations out of order, and one location twice
    (Form::List(Version::V4), "080100000400000004"),
    (Form::List(Version::V4), "080000000400000008"),
    // an instance before an amount
    (Form::List(Version::V4), "080000010001000004"),
    // a location without an index before it, in version 3
    (Form::List(Version::V3), "0401000004"),
    // the number in a longer form
    (Form::List(Version::V4), "050001000004"),
    // fewer than the number says
    (Form::List(Version::V4), "0801000004"),
    (Form::List(Version::V4), "03ffffffff"),
    (Form::List(Version::V4), ""),
    (Form::Filter, "02"),
    (Form::Filter, "0104"),
    (Form::Filter, "0101010002"),
    (Form::Filter, "000400000000"),
    (Form::Filter, "01"),
];

/// Whether no prefix of the bytes is spelled so.
fn refuses(alloc: Global, cursor: &mut Cursor<'_>, form: &Form) -> bool {
    match form {
        Form::Instance => read_instance(cursor).is_err(),
        Form::Asset(v) => {
            matches!(
                take_boxed_asset(alloc, cursor, *v),
                Err(WireFault::NoSpelling)
            )
        }
        Form::List(v) => matches!(take_assets(alloc, cursor, *v), Err(WireFault::NoSpelling)),
        Form::Filter => matches!(
            take_filter(alloc, cursor, Version::V4),
            Err(WireFault::NoSpelling)
        ),
    }
}

/// Whether no prefix of what the hex says is spelled so.
fn is_none(alloc: Global, form: &Form, hex: &str) -> Result<bool, Fail> {
    let bytes = unhex(alloc, hex)?;
    let mut cursor = Cursor::new(bytes.as_slice());
    Ok(refuses(alloc, &mut cursor, form))
}

/// The spelling of amounts of 1 of this many pallets, in version 4.
fn pallets(alloc: Global, count: u8) -> Result<Vec<u8>, AllocError>
    requires { count ≤ 63 }
{
    let mut bytes = Vec::new(alloc);
    bytes.push(4 * count)?;
    for index in 0..count {
        bytes.extend_from_slice(&[0, 1, 4, index, 0, 4])?;
    }
    Ok(bytes)
}

/// How many items version 4 reads from the bytes, or why it reads none.
fn items_of(alloc: Global, bytes: &[u8]) -> Result<usize, WireFault> {
    let mut cursor = Cursor::new(bytes);
    let list = take_assets(alloc, &mut cursor, Version::V4)?;
    Ok(list.items().len())
}

/// Whether a list has at most twenty items.
fn has_few_items(alloc: Global) -> Result<bool, AllocError> {
    let most = pallets(alloc, 20)?;
    let past = pallets(alloc, 21)?;
    let full = items_of(alloc, most.as_slice());
    let none = items_of(alloc, past.as_slice());
    Ok(full == Ok(20) && none == Err(WireFault::NoSpelling))
}

#[test]
fn assets_are_read_and_written(rt: HostRuntime) -> Result<(), Fail> {
    let alloc = rt.alloc();
    for (value, hex) in SPELLED {
        assert!(rt; spells(alloc, value, hex)?, "{hex}");
    }
    for (form, hex) in NOT_SPELLED {
        assert!(rt; is_none(alloc, form, hex)?, "{hex}");
    }
    assert!(rt; has_few_items(alloc)?);
    Ok(())
}

#[test]
fn the_laws_of_assets_can_be_called() {
    law_of_one_spelling();
    law_of_no_prefix();
    law_of_readers();
    law_of_versions();
    law_of_writable();
}
