//! The readers that the public ones call. Where they leave the cursor after a refusal isn't said.

ghost use Rattle.std.specs.Prelude.{◌≡◌, [], ◌≤◌};
ghost use Rattle.scale_codec.specs.Reading.{made1, take_at, repeated};
ghost use Rattle.scale_codec.specs.Answers.{Got, Filled, GotOrFails};
ghost use Rattle.location_wire.specs.Reading.{location_at};
ghost use Rattle.asset_lists.specs.declared.units.AssetId.TheVariants.{Concrete, Abstract};
ghost use Rattle.asset_wire.specs.Blanks.{IsBlank};
ghost use Rattle.asset_wire.specs.Reading.{asset_id_at, instance_at, positive_amount_at, fun_at, asset_at, assets_at, wild_fun_at, wild_at, filter_at};

// As in location_wire: locations and amounts are read inline, bytes and instances aren't.

use crate::{Version, WireFault};
use asset_lists::{Asset, AssetId, Assets, Filter, Fun, Instance, MAX_ASSETS, Wild, WildFun};
use location_wire::fill_location;
use locations::{Junctions, Location};
use plain_lists::Boxed;
use scale_codec::{Cursor, NoSpelling};
use std::alloc::Global;

/// A location, into an id that has one with no junctions.
#[inline(always)]
fn fill_place(c: &mut Cursor<'_>, id: &mut AssetId) -> Result<(), NoSpelling>
    requires { IsBlank id.old }
    ensures { Filled result (made1 location_at Concrete c.old) id.new c.new }
{
    match id {
        AssetId::Concrete(place) => fill_location(c, place),
        AssetId::Abstract(_) => Err(NoSpelling),
    }
}

/// 32 bytes that name no location.
#[inline(never)]
fn fill_bytes(c: &mut Cursor<'_>, id: &mut AssetId) -> Result<(), NoSpelling>
    ensures { Filled result (made1 (take_at 32) Abstract c.old) id.new c.new }
{
    *id = AssetId::Abstract(c.take_array()?);
    Ok(())
}

/// The id as the version spells it, into a blank one.
#[tactic(auto, unfolding(crate::specs::Reading::asset_id_at))]
#[inline(always)]
pub fn fill_asset_id(c: &mut Cursor<'_>, id: &mut AssetId, v: Version) -> Result<(), NoSpelling>
    requires { IsBlank id.old }
    ensures { Filled result (asset_id_at v c.old) id.new c.new }
{
    match v {
        Version::V3 => match c.u8()? {
            0 => fill_place(c, id),
            1 => fill_bytes(c, id),
            _ => Err(NoSpelling),
        },
        Version::V4 => fill_place(c, id),
    }
}

/// An id to be filled.
pub fn blank_id() -> AssetId
    ensures { IsBlank result }
{
    AssetId::Concrete(Location {
        parents: 0,
        interior: Junctions::empty(),
    })
}

/// Which instance it is, at the front.
#[tactic(auto, unfolding(crate::specs::Reading::instance_at))]
#[inline(never)]
pub fn take_instance(c: &mut Cursor<'_>) -> Result<Instance, NoSpelling>
    ensures { Got result (instance_at c.old) c.new }
{
    match c.u8()? {
        0 => Ok(Instance::Undefined),
        1 => Ok(Instance::Index(c.compact_u128()?)),
        2 => Ok(Instance::Array4(c.take_array()?)),
        3 => Ok(Instance::Array8(c.take_array()?)),
        4 => Ok(Instance::Array16(c.take_array()?)),
        5 => Ok(Instance::Array32(c.take_array()?)),
        _ => Err(NoSpelling),
    }
}

/// An amount, which is not 0.
fn take_amount(c: &mut Cursor<'_>) -> Result<u128, NoSpelling>
    ensures { Got result (positive_amount_at c.old) c.new }
{
    let amount = c.compact_u128()?;
    if amount == 0 {
        return Err(NoSpelling);
    }
    Ok(amount)
}

/// An amount or an instance, into its slot.
#[tactic(auto, unfolding(crate::specs::Reading::fun_at))]
#[inline(always)]
fn fill_fun(c: &mut Cursor<'_>, fun: &mut Fun) -> Result<(), NoSpelling>
    ensures { Filled result (fun_at c.old) fun.new c.new }
{
    match c.u8()? {
        0 => *fun = Fun::Fungible(take_amount(c)?),
        1 => *fun = Fun::NonFungible(take_instance(c)?),
        _ => return Err(NoSpelling),
    }
    Ok(())
}

/// The asset as the version spells it, into one with a blank id.
#[tactic(auto, unfolding(crate::specs::Reading::asset_at))]
#[inline(always)]
fn fill_asset(c: &mut Cursor<'_>, asset: &mut Asset, v: Version) -> Result<(), NoSpelling>
    requires { IsBlank asset.old.id }
    ensures { Filled result (asset_at v c.old) asset.new c.new }
{
    fill_asset_id(c, &mut asset.id, v)?;
    fill_fun(c, &mut asset.fun)
}

/// An asset to be filled.
fn blank_asset() -> Asset
    ensures { IsBlank result.id }
{
    Asset {
        id: blank_id(),
        fun: Fun::Fungible(0),
    }
}

/// The asset as the version spells it, read where it will be.
pub fn take_boxed_asset(
    alloc: Global,
    c: &mut Cursor<'_>,
    v: Version,
) -> Result<Boxed<Asset>, WireFault>
    ensures { GotOrFails (λ asset. asset) result (asset_at v c.old) c.new }
{
    let mut asset = Box::new(alloc, blank_asset())?;
    fill_asset(c, &mut *asset, v)?;
    Ok(Boxed::from_box(asset))
}

/// So many assets, each read where it is in the list. Memory is taken once.
fn take_several(
    alloc: Global,
    c: &mut Cursor<'_>,
    v: Version,
    count: u32,
) -> Result<Vec<Asset>, WireFault>
    ensures { GotOrFails (λ items. items.items) result (repeated (asset_at v) count c.old) c.new }
{
    let mut items = Vec::with_capacity(alloc, count as usize)?;
    for _ in 0..count {
        let last = items.len();
        items.push_reserved(blank_asset());
        fill_asset(c, &mut items[last], v)?;
    }
    Ok(items)
}

/// The list as the version spells it: at most 20 assets, in order.
#[tactic(auto, unfolding(crate::specs::Reading::assets_at))]
pub fn take_assets(alloc: Global, c: &mut Cursor<'_>, v: Version) -> Result<Assets, WireFault>
    ensures { GotOrFails (λ list. list) result (assets_at v c.old) c.new }
{
    let count = c.compact_u32()?;
    if count > MAX_ASSETS as u32 {
        return Err(WireFault::NoSpelling);
    }
    let items = take_several(alloc, c, v, count)?;
    match Assets::from_sorted(items) {
        Ok(assets) => Ok(assets),
        Err(_) => Err(WireFault::NoSpelling),
    }
}

#[tactic(auto, unfolding(crate::specs::Reading::wild_fun_at))]
fn take_wild_fun(c: &mut Cursor<'_>) -> Result<WildFun, NoSpelling>
    ensures { Got result (wild_fun_at c.old) c.new }
{
    match c.u8()? {
        0 => Ok(WildFun::Fungible),
        1 => Ok(WildFun::NonFungible),
        _ => Err(NoSpelling),
    }
}

/// The id as the version spells it, read where it will be: apart, since it makes a large value.
#[inline(never)]
fn take_boxed_id(alloc: Global, c: &mut Cursor<'_>, v: Version) -> Result<Boxed<AssetId>, WireFault>
    ensures { GotOrFails (λ id. id) result (asset_id_at v c.old) c.new }
{
    let mut id = Box::new(alloc, blank_id())?;
    fill_asset_id(c, &mut *id, v)?;
    Ok(Boxed::from_box(id))
}

#[tactic(auto, unfolding(crate::specs::Reading::wild_at))]
fn take_wild(alloc: Global, c: &mut Cursor<'_>, v: Version) -> Result<Wild, WireFault>
    ensures { GotOrFails (λ wild. wild) result (wild_at v c.old) c.new }
{
    match c.u8()? {
        0 => Ok(Wild::All),
        1 => {
            let id = take_boxed_id(alloc, c, v)?;
            let fun = take_wild_fun(c)?;
            Ok(Wild::AllOf { id, fun })
        }
        2 => Ok(Wild::AllCounted(c.compact_u32()?)),
        3 => {
            let id = take_boxed_id(alloc, c, v)?;
            let fun = take_wild_fun(c)?;
            let count = c.compact_u32()?;
            Ok(Wild::AllOfCounted { id, fun, count })
        }
        _ => Err(WireFault::NoSpelling),
    }
}

/// The filter as the version spells it.
#[tactic(auto, unfolding(crate::specs::Reading::filter_at))]
pub fn take_filter(alloc: Global, c: &mut Cursor<'_>, v: Version) -> Result<Filter, WireFault>
    ensures { GotOrFails (λ filter. filter) result (filter_at v c.old) c.new }
{
    match c.u8()? {
        0 => Ok(Filter::Definite(take_assets(alloc, c, v)?)),
        1 => Ok(Filter::Wild(take_wild(alloc, c, v)?)),
        _ => Err(WireFault::NoSpelling),
    }
}
