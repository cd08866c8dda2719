//! Shipments that land.
ghost use Rattle.std.specs.Prelude.{◌≡◌};
ghost use Rattle.asset_bundles.specs.Landing.{Renamed, StayApart, renamed_asset, renamed_assets};

use crate::{AssetBundle, Shipment};
use asset_lists::Asset;
use locations::{Junctions, Location};

/// Gives the asset the id that the target gives it, if the target can name it.
fn rename(item: &mut Asset, target: &Location, context: &Junctions)
    ensures { item.new ≡ renamed_asset target.now context.now item.old }
{
    if let Some(id) = item.id.reanchored(target, context) {
        item.id = id;
    }
}

/// Renames all of them.
fn rename_all(items: &mut Vec<Asset>, target: &Location, context: &Junctions)
    ensures { items.new.items ≡ renamed_assets target.now context.now items.old.items }
{
    for item in items.iter_mut() {
        rename(item, target, context);
    }
}

impl Shipment {
    /// Ends a shipment where it arrives: its units, each under the id that the target gives it, both seen
    /// from the chain of this context; an id that the target can't name stays as it is. No two units
    /// become the same. It takes no memory.
    pub fn land(self, target: &Location, context: &Junctions) -> AssetBundle
        requires { StayApart target.now context.now self.units }
        ensures { result ≡ Renamed target.now context.now self.units }
    {
        let AssetBundle { mut items } = AssetBundle::take_up(self.units);
        rename_all(&mut items, target, context);
        items.sort_unstable();
        AssetBundle { items }
    }
}
