//! Bundles of assets.
ghost use Rattle.std.specs.Prelude.{◌≡◌, ◌≤◌, ◌↔◌, [], ◌∷◌, None, length, IsTrue, IsFalse, IfOk, IfErr, OnOk, OnErr};
ghost use Rattle.amounts.specs.Amounts.{empty, amount, total, rows, minus, merge, difference, IsWithin};
ghost use Rattle.asset_lists.specs.declared.filters.Filter.{Filter};
ghost use Rattle.asset_lists.specs.Units.{Unit, unit_of, amount_of, is_zero};
ghost use Rattle.asset_lists.specs.Lists.{has_zero};
ghost use Rattle.asset_lists.specs.Moves.{occurrences};
ghost use Rattle.asset_bundles.specs.Bundles.{bundle_of, held_assets, is_asset};
ghost use Rattle.asset_bundles.specs.Filters.{Taken, Left};
ghost use Rattle.asset_bundles.specs.Joins.{IsWithinMost};
ghost use Rattle.asset_bundles.specs.Taking.{IsTakeFault};

use crate::TakeFault;
use crate::items::{amount_by, amount_held, amounts_fit, held, holds, total};
use crate::portions::{chosen, cut, parted, parted_by_list, takes_all};
use crate::spending::{give_up, give_up_amount};
use asset_lists::{Asset, AssetId, Assets, Filter, Kind, StoredId, copied, push_asset};
use std::alloc::{AllocError, Global};
use std::marker::Model;
use std::mem::replace;

/// Assets that are held. A bundle isn't copied, and isn't dropped, not even when it is empty: it is spent
/// by a call that takes it.
pub struct AssetBundle {
    pub(crate) items: Vec<Asset>,
}

impl Model for AssetBundle {
    ghost use Rattle.std.specs.FinMap as map;
    ghost use Rattle.std.specs.Coded.{coded_ℕ, coded×, coded_option};
    ghost use Rattle.asset_lists.specs.contracts.units.AssetId.{the_row as asset_id};
    ghost use Rattle.asset_lists.specs.contracts.units.Instance.{the_row as instance};
    ghost use Rattle.asset_bundles.specs.Bundles.{Bundle, bundle_of, IsHolding};

    ghost Value = { Bundle };

    ghost coded = { map.code (coded× asset_id.coded (coded_option instance.coded)) coded_ℕ };

    ghost view = { λ b. bundle_of b.items.items };

    ghost invariant = { λ b. IsHolding b.items.items };
}

impl AssetBundle {
    /// A bundle with nothing.
    pub fn empty(alloc: Global) -> AssetBundle
        ensures { result ≡ empty }
    {
        AssetBundle {
            items: Vec::new(alloc),
        }
    }

    /// Makes units: the bundle of just these assets, in any order.
    pub fn mint(alloc: Global, items: &[Asset]) -> Result<AssetBundle, AllocError>
        requires once { (unit : Unit) → occurrences unit items.now ≤ 1 }
        requires no_zero { IsFalse (has_zero items.now) }
        ensures { IfOk result (λ goods. goods ≡ bundle_of items.now) }
    {
        let made = copied(alloc, items)?;
        Ok(AssetBundle::of_list(made))
    }

    /// Makes units: the bundle of just the assets of this list, in any order. It takes no memory.
    pub fn of_list(mut items: Vec<Asset>) -> AssetBundle
        requires once { (unit : Unit) → occurrences unit items.items ≤ 1 }
        requires no_zero { IsFalse (has_zero items.items) }
        ensures { result ≡ bundle_of items.items }
    {
        items.sort_unstable();
        AssetBundle { items }
    }

    /// Gives up one asset, which is held in full.
    pub fn spend(&mut self, asset: &Asset)
        requires { amount_of asset.now ≤ amount self.old (unit_of asset.now) }
        ensures { self.new ≡ minus self.old (unit_of asset.now) (amount_of asset.now) }
    {
        give_up(&mut self.items, asset);
    }

    /// Gives up so much of a fungible asset, in its smallest unit, which is held.
    pub fn spend_amount(&mut self, id: &AssetId, less: u128)
        requires { less ≤ amount self.old (id.now, None) }
        ensures { self.new ≡ minus self.old (id.now, None) less }
    {
        give_up_amount(&mut self.items, id, less);
    }

    /// Gives up all units.
    pub fn melt(self) {
        let AssetBundle { items: _ } = self;
    }

    /// How many kinds are held: a kind is one fungible id or one instance.
    pub fn kinds(&self) -> usize
        ensures { result ≡ length (rows self.now) }
    {
        self.items.len()
    }

    /// The amount of a fungible asset in its smallest unit, 0 where none is held.
    pub fn amount(&self, id: &AssetId) -> u128
        ensures { result ≡ amount self.now (id.now, None) }
    {
        amount_held(self.items.as_slice(), id)
    }

    /// The amount of the fungible asset of a stored id, as `amount`.
    pub fn amount_by(&self, id: &StoredId) -> u128
        ensures { result ≡ amount self.now (id.now, None) }
    {
        amount_by(self.items.as_slice(), id)
    }

    /// The amount of a fungible asset in its smallest unit, or the number of instances of a class.
    pub fn total(&self, id: &AssetId, kind: Kind) -> u128
        ensures { result ≡ total (is_asset id.now kind) self.now }
    {
        total(self.items.as_slice(), id, kind)
    }

    /// Whether all listed assets are held in full.
    pub fn contains(&self, list: &Assets) -> bool
        ensures { IsTrue result ↔ IsWithin (bundle_of list.now) self.now }
    {
        holds(self.items.as_slice(), list.items())
    }

    /// All assets in holding order: fungibles by id, then instances by id and instance.
    pub fn list(&self) -> Result<Vec<Asset>, AllocError>
        ensures listed { IfOk result (λ assets. assets.items ≡ held_assets self.now) }
        ensures bundle { IfOk result (λ assets. bundle_of assets.items ≡ self.now) }
    {
        let assets = copied(*self.items.allocator(), self.items.as_slice())?;
        Ok(assets)
    }

    /// The same, borrowed.
    pub fn items(&self) -> &[Asset]
        ensures listed { result.now ≡ held_assets self.now }
        ensures bundle { bundle_of result.now ≡ self.now }
    {
        self.items.as_slice()
    }

    /// What `take` would take, in holding order.
    pub fn min(&self, filter: &Filter) -> Result<Vec<Asset>, AllocError>
        ensures listed { IfOk result (λ assets. assets.items
            ≡ held_assets (Taken filter.now self.now)) }
        ensures bundle { IfOk result (λ assets. bundle_of assets.items
            ≡ Taken filter.now self.now) }
    {
        let taken = chosen(*self.items.allocator(), self.items.as_slice(), filter)?;
        Ok(taken)
    }

    /// Takes what the filter means, as far as it is held.
    pub fn take(&mut self, filter: &Filter) -> Result<AssetBundle, AllocError>
        ensures taken { IfOk result (λ goods. goods ≡ Taken filter.now self.old) }
        ensures left { OnOk result (self.new ≡ Left filter.now self.old) }
        ensures whole { IfOk result (λ goods. merge self.new goods ≡ self.old) }
        ensures fits_back { IfOk result (λ goods. IsWithinMost (merge self.new goods)) }
        ensures err { OnErr result (self.new ≡ self.old) }
    {
        // For the prover alone: what is taken and left is within the most.
        amounts_fit(self.items.as_slice());
        let alloc = *self.items.allocator();
        if takes_all(self.items.as_slice(), filter) {
            // The list is handed on as it is.
            let items = replace(&mut self.items, Vec::new(alloc));
            return Ok(AssetBundle { items });
        }
        let (taken, left) = parted(alloc, self.items.as_slice(), filter)?;
        self.items = left;
        Ok(AssetBundle { items: taken })
    }

    /// Takes the listed assets, as far as they are held.
    pub fn take_listed(&mut self, list: &Assets) -> Result<AssetBundle, AllocError>
        ensures taken { IfOk result (λ goods. goods ≡ Taken (Filter.Definite list.now) self.old) }
        ensures left { OnOk result (self.new ≡ Left (Filter.Definite list.now) self.old) }
        ensures whole { IfOk result (λ goods. merge self.new goods ≡ self.old) }
        ensures fits_back { IfOk result (λ goods. IsWithinMost (merge self.new goods)) }
        ensures err { OnErr result (self.new ≡ self.old) }
    {
        // For the prover alone: what is taken and left is within the most.
        amounts_fit(self.items.as_slice());
        let alloc = *self.items.allocator();
        let (taken, left) = parted_by_list(alloc, self.items.as_slice(), list)?;
        self.items = left;
        Ok(AssetBundle { items: taken })
    }

    /// Takes just the listed assets, or nothing where one of them isn't held in full.
    pub fn try_take(&mut self, list: &Assets) -> Result<AssetBundle, TakeFault>
        ensures held { OnOk result (IsWithin (bundle_of list.now) self.old) }
        ensures taken { IfOk result (λ goods. goods ≡ bundle_of list.now) }
        ensures left { OnOk result (self.new ≡ difference self.old (bundle_of list.now)) }
        ensures whole { IfOk result (λ goods. merge self.new goods ≡ self.old) }
        ensures fits_back { IfOk result (λ goods. IsWithinMost (merge self.new goods)) }
        ensures fault { IfErr result (λ fault. IsTakeFault self.old list.now fault) }
        ensures err { OnErr result (self.new ≡ self.old) }
    {
        if !self.contains(list) {
            return Err(TakeFault::NotHeld);
        }
        // For the prover alone: what is taken and left is within the most.
        amounts_fit(self.items.as_slice());
        let alloc = *self.items.allocator();
        let (taken, left) = cut(alloc, self.items.as_slice(), list.items())?;
        self.items = left;
        Ok(AssetBundle { items: taken })
    }

    /// Takes just one asset, which is no amount of 0, or nothing where it isn't held in full.
    pub fn try_take_one(&mut self, alloc: Global, asset: &Asset) -> Result<AssetBundle, TakeFault>
        requires { IsFalse (is_zero asset.now) }
        ensures held { OnOk result (IsWithin (bundle_of (asset.now ∷ [])) self.old) }
        ensures taken { IfOk result (λ goods. goods ≡ bundle_of (asset.now ∷ [])) }
        ensures left { OnOk result (self.new ≡ difference self.old (bundle_of (asset.now ∷ []))) }
        ensures whole { IfOk result (λ goods. merge self.new goods ≡ self.old) }
        ensures fits_back { IfOk result (λ goods. IsWithinMost (merge self.new goods)) }
        ensures fault { IfErr result (λ fault. IsTakeFault self.old (asset.now ∷ []) fault) }
        ensures err { OnErr result (self.new ≡ self.old) }
    {
        if asset.amount() > held(self.items.as_slice(), asset) {
            return Err(TakeFault::NotHeld);
        }
        // For the prover alone: what is taken and left is within the most.
        amounts_fit(self.items.as_slice());
        let mut items = Vec::with_capacity(alloc, 1)?;
        push_asset(&mut items, &asset.id, asset.fun);
        give_up(&mut self.items, asset);
        Ok(AssetBundle { items })
    }
}
