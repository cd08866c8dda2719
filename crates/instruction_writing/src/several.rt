//! Fields that several instructions have together.

ghost use Rattle.std.specs.Prelude.{◌++◌, ◌<◌, ◌^◌, ⊤};
ghost use Rattle.scale_codec.specs.Spelling.{compact, flag};
ghost use Rattle.scale_codec.specs.Answers.{Appends};
ghost use Rattle.location_wire.specs.Spelling.{location, FitsLocation};
ghost use Rattle.asset_wire.specs.Spelling.{asset, FitsAsset, assets, FitsAssets, filter, FitsFilter, IsWritableAsset, AreNamed, IsFilterNamed};

use asset_lists::{Asset, Assets, Filter};
use asset_wire::{Version, put_asset, put_assets, put_filter};
use location_wire::put_location;
use locations::Location;
use scale_codec::Draft;
use std::alloc::AllocError;

/// A flag.
pub(crate) fn put_flag(o: &mut Draft, value: bool) -> Result<(), AllocError>
    ensures { Appends result o.old o.new (flag value) ⊤ }
{
    o.put_u8(u8::from(value))
}

/// Assets, and whose they become.
pub(crate) fn put_assets_for(
    o: &mut Draft,
    list: &Assets,
    place: &Location,
    v: Version,
) -> Result<(), AllocError>
    requires { AreNamed v list.now }
    ensures { Appends result o.old o.new (assets v list.now ++ location place.now)
        (FitsAssets v list.now × FitsLocation place.now) }
{
    put_assets(o, list, v)?;
    put_location(o, place)
}

/// A filter, and whose the taken assets become.
pub(crate) fn put_filter_for(
    o: &mut Draft,
    taken: &Filter,
    place: &Location,
    v: Version,
) -> Result<(), AllocError>
    requires { IsFilterNamed v taken.now }
    ensures { Appends result o.old o.new (filter v taken.now ++ location place.now)
        (FitsFilter v taken.now × FitsLocation place.now) }
{
    put_filter(o, taken, v)?;
    put_location(o, place)
}

/// An asset, and whom its lock concerns.
pub(crate) fn put_asset_for(
    o: &mut Draft,
    goods: &Asset,
    place: &Location,
    v: Version,
) -> Result<(), AllocError>
    requires { IsWritableAsset v goods.now }
    ensures { Appends result o.old o.new (asset v goods.now ++ location place.now)
        (FitsAsset v goods.now × FitsLocation place.now) }
{
    put_asset(o, goods, v)?;
    put_location(o, place)
}

/// Three compact numbers.
pub(crate) fn put_numbers(
    o: &mut Draft,
    first: u32,
    second: u32,
    third: u32,
) -> Result<(), AllocError>
    ensures { Appends result o.old o.new (compact first ++ compact second ++ compact third)
        ((first < 2 ^ 32) × (second < 2 ^ 32) × (third < 2 ^ 32)) }
{
    o.put_compact(u128::from(first))?;
    o.put_compact(u128::from(second))?;
    o.put_compact(u128::from(third))
}
