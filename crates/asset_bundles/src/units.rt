//! Bundles at rest.
ghost use Rattle.std.specs.Prelude.{◌≡◌, ◌↔◌, length, take, drop, IsTrue, IfOk};
ghost use Rattle.amounts.specs.Amounts.{total, rows, from_rows};
ghost use Rattle.asset_bundles.specs.Bundles.{IsHolding, bundle_of, held_assets, is_asset};

use crate::AssetBundle;
use crate::items::{are_same, total};
use asset_lists::{Asset, AssetId, Assets, Kind, copied};
use std::alloc::AllocError;
use std::marker::Model;

/// A bundle at rest, as it is kept between calls: it isn't copied, but may be dropped with what keeps it.
#[derive(Drop)]
pub struct Units {
    items: Vec<Asset>,
}

impl Model for Units {
    ghost use Rattle.std.specs.FinMap as map;
    ghost use Rattle.std.specs.Coded.{coded_ℕ, coded×, coded_option};
    ghost use Rattle.asset_lists.specs.contracts.units.AssetId.{the_row as asset_id};
    ghost use Rattle.asset_lists.specs.contracts.units.Instance.{the_row as instance};
    ghost use Rattle.asset_bundles.specs.Bundles.{Bundle, bundle_of, IsHolding};

    ghost Value = { Bundle };

    ghost coded = { map.code (coded× asset_id.coded (coded_option instance.coded)) coded_ℕ };

    ghost view = { λ b. bundle_of b.items.items };

    ghost invariant = { λ b. IsHolding b.items.items };
}

impl AssetBundle {
    /// Brings the bundle to rest.
    pub fn set_down(self) -> Units
        ensures { result ≡ self }
    {
        let AssetBundle { items } = self;
        Units { items }
    }

    /// Takes units up from their rest.
    pub fn take_up(units: Units) -> AssetBundle
        ensures { result ≡ units }
    {
        let Units { items } = units;
        AssetBundle { items }
    }
}

impl Units {
    /// How many kinds there are: a kind is one fungible id or one instance.
    pub fn kinds(&self) -> usize
        ensures { result ≡ length (rows self.now) }
    {
        self.items.len()
    }

    /// The amount of a fungible asset in its smallest unit, or the number of instances of a class.
    pub fn total(&self, id: &AssetId, kind: Kind) -> u128
        ensures { result ≡ total (is_asset id.now kind) self.now }
    {
        total(self.items.as_slice(), id, kind)
    }

    /// All assets in holding order.
    pub fn list(&self) -> Result<Vec<Asset>, AllocError>
        ensures listed { IfOk result (λ assets. assets.items ≡ held_assets self.now) }
        ensures bundle { IfOk result (λ assets. bundle_of assets.items ≡ self.now) }
    {
        let assets = copied(*self.items.allocator(), self.items.as_slice())?;
        Ok(assets)
    }

    /// The same, borrowed.
    pub fn items(&self) -> &[Asset]
        ensures holding { IsHolding result.now }
        ensures listed { result.now ≡ held_assets self.now }
        ensures bundle { bundle_of result.now ≡ self.now }
    {
        self.items.as_slice()
    }

    /// The units after the first `from` in holding order, at most `most` of them. The whole stays as it is, so
    /// that nothing is lost where memory is refused for a later part: keep all the parts, or the whole. An
    /// `Err` is out of memory.
    pub fn part(&self, from: usize, most: usize) -> Result<Units, AllocError>
        ensures { IfOk result (λ part. part ≡ from_rows (take most (drop from (rows self.now)))) }
    {
        let items = self.items.as_slice();
        let behind = &items[from.min(items.len())..];
        let part = &behind[..most.min(behind.len())];
        let items = copied(*self.items.allocator(), part)?;
        Ok(Units { items })
    }

    /// Whether it holds just the listed assets.
    pub fn is_list(&self, list: &Assets) -> bool
        ensures { IsTrue result ↔ (self.now ≡ bundle_of list.now) }
    {
        are_same(self.items.as_slice(), list.items())
    }
}
