//! Writes of assets and their parts: each appends the one spelling.

ghost use Rattle.std.specs.Prelude.{◌≡◌, ◌++◌, IsFalse, nat_eq, ⊤};
ghost use Rattle.scale_codec.specs.Answers.{Appends, Puts, IsWritten};
ghost use Rattle.asset_lists.specs.Units.{amount_in};
ghost use Rattle.asset_wire.specs.Spelling.{asset_id, FitsId, instance, FitsInstance, fun, FitsFun, asset, FitsAsset, assets, FitsAssets, wild_fun, wild, FitsWild, filter, FitsFilter, IsNamed, IsWritableAsset, AreNamed, IsWildNamed, IsFilterNamed};

use crate::Version;
use asset_lists::{Asset, AssetId, Assets, Filter, Fun, Instance, Wild, WildFun};
use location_wire::put_location;
use scale_codec::{Draft, Out};
use std::alloc::AllocError;

/// Appends the id as the version spells it. Version 4 has no ids of bytes.
fn put_asset_id(o: &mut Draft, id: &AssetId, v: Version) -> Result<(), AllocError>
    requires { IsNamed v id.now }
    ensures { Puts (asset_id v) (FitsId v) id.now result o.old o.new }
{
    match (v, id) {
        (Version::V3, AssetId::Concrete(place)) => {
            o.put_u8(0)?;
            put_location(o, place)
        }
        (Version::V3, AssetId::Abstract(bytes)) => {
            o.put_u8(1)?;
            o.put_bytes(bytes)
        }
        (Version::V4, AssetId::Concrete(place)) => put_location(o, place),
        (Version::V4, AssetId::Abstract(_)) => unreachable!(),
    }
}

/// Appends which instance it is.
fn put_instance(o: &mut Draft, which: &Instance) -> Result<(), AllocError>
    ensures { Puts instance FitsInstance which.now result o.old o.new }
{
    match which {
        Instance::Undefined => o.put_u8(0),
        Instance::Index(index) => {
            o.put_u8(1)?;
            o.put_compact(*index)
        }
        Instance::Array4(bytes) => {
            o.put_u8(2)?;
            o.put_bytes(bytes)
        }
        Instance::Array8(bytes) => {
            o.put_u8(3)?;
            o.put_bytes(bytes)
        }
        Instance::Array16(bytes) => {
            o.put_u8(4)?;
            o.put_bytes(bytes)
        }
        Instance::Array32(bytes) => {
            o.put_u8(5)?;
            o.put_bytes(bytes)
        }
    }
}

fn put_fun(o: &mut Draft, a: &Fun) -> Result<(), AllocError>
    requires { IsFalse (nat_eq (amount_in a.now) 0) }
    ensures { Puts fun FitsFun a.now result o.old o.new }
{
    match a {
        Fun::Fungible(amount) => {
            o.put_u8(0)?;
            o.put_compact(*amount)
        }
        Fun::NonFungible(which) => {
            o.put_u8(1)?;
            put_instance(o, which)
        }
    }
}

/// Appends the asset as the version spells it.
#[tactic(auto, unfolding(crate::specs::Spelling::asset))]
pub fn put_asset(o: &mut Draft, a: &Asset, v: Version) -> Result<(), AllocError>
    requires { IsWritableAsset v a.now }
    ensures { Puts (asset v) (FitsAsset v) a.now result o.old o.new }
{
    put_asset_id(o, &a.id, v)?;
    put_fun(o, &a.fun)
}

/// Appends the list as the version spells it.
pub fn put_assets(o: &mut Draft, list: &Assets, v: Version) -> Result<(), AllocError>
    requires { AreNamed v list.now }
    ensures { Puts (assets v) (FitsAssets v) list.now result o.old o.new }
{
    let items = list.items();
    o.put_compact(items.len() as u128)?;
    for a in items {
        put_asset(o, a, v)?;
    }
    Ok(())
}

fn put_wild_fun(o: &mut Draft, kind: WildFun) -> Result<(), AllocError>
    ensures { Appends result o.old o.new (wild_fun kind) ⊤ }
{
    match kind {
        WildFun::Fungible => o.put_u8(0),
        WildFun::NonFungible => o.put_u8(1),
    }
}

fn put_wild(o: &mut Draft, which: &Wild, v: Version) -> Result<(), AllocError>
    requires { IsWildNamed v which.now }
    ensures { Puts (wild v) (FitsWild v) which.now result o.old o.new }
{
    match which {
        Wild::All => o.put_u8(0),
        Wild::AllOf { id, fun } => {
            o.put_u8(1)?;
            put_asset_id(o, id.value(), v)?;
            put_wild_fun(o, *fun)
        }
        Wild::AllCounted(count) => {
            o.put_u8(2)?;
            o.put_compact(*count as u128)
        }
        Wild::AllOfCounted { id, fun, count } => {
            o.put_u8(3)?;
            put_asset_id(o, id.value(), v)?;
            put_wild_fun(o, *fun)?;
            o.put_compact(*count as u128)
        }
    }
}

/// Appends the filter as the version spells it.
pub fn put_filter(o: &mut Draft, which: &Filter, v: Version) -> Result<(), AllocError>
    requires { IsFilterNamed v which.now }
    ensures { Puts (filter v) (FitsFilter v) which.now result o.old o.new }
{
    match which {
        Filter::Definite(list) => {
            o.put_u8(0)?;
            put_assets(o, list, v)
        }
        Filter::Wild(which) => {
            o.put_u8(1)?;
            put_wild(o, which, v)
        }
    }
}

/// Appends the one spelling of the instance. Where memory is refused, `o` is as before.
pub fn write_instance(o: &mut Out, v: &Instance) -> Result<(), AllocError>
    ensures { IsWritten instance FitsInstance v.now result o.old o.new }
{
    let mut draft = o.draft();
    let written = put_instance(&mut draft, v);
    o.settle(draft, written)
}
