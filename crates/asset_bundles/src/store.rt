//! The trap store.
ghost use Rattle.std.specs.Prelude.{◌≡◌, ◌-◌, ◌^◌, ◌<◌, [], length, min, MatchResult};
ghost use Rattle.amounts.specs.Amounts.{rows};
ghost use Rattle.asset_bundles.specs.Bundles.{bundle_of};
ghost use Rattle.asset_bundles.specs.Books.{most_burned};
ghost use Rattle.asset_bundles.specs.Totals.{total_value};
ghost use Rattle.asset_bundles.specs.Traps.{piece_count, with_trapped, NoneFits, IsClaimed, trapped_amount};

use crate::pieces::in_pieces;
use crate::rows::TrapRows;
use crate::sums::{AssetSum, make_rows, raise_all, settle_all, sum_of};
use crate::{AssetBundle, Total, Trap, Units};
use asset_lists::{AssetId, Assets, Kind, MAX_ASSETS};
use locations::Location;
use std::alloc::{AllocError, Global};
use std::collections::btree_map::Values;
use std::marker::Model;
use thiserror::Error;

/// No trap has that origin and that list.
#[derive(Clone, Copy, Debug, PartialEq, Eq, Error)]
#[error("no trap has that origin and that list")]
pub struct Unknown;

/// What was trapped on a chain, oldest first.
#[derive(Drop)]
pub struct TrapStore {
    traps: TrapRows,
    next: u64,
    sums: Vec<AssetSum>,
}

impl Model for TrapStore {
    ghost use Rattle.std.specs.Prelude.{◌≡◌, min};
    ghost use Rattle.asset_lists.specs.Listed.{Listed};
    ghost use Rattle.asset_bundles.specs.Books.{most_burned};
    ghost use Rattle.asset_bundles.specs.Traps.{Store, trapped_amount};
    ghost use Rattle.asset_bundles.specs.StoreCode.{store_code};
    ghost use Rattle.asset_bundles.specs.Sums.{sum_at};

    ghost Value = { Store };

    ghost coded = { store_code };

    ghost view = { λ s. record { traps = s.traps; next = s.next } };

    ghost invariant = { λ s. (k : Listed)
        → sum_at k s.sums.items ≡ min (trapped_amount k.0 k.1 s.traps) most_burned };
}

impl TrapStore {
    /// A store with nothing, whose first trap gets the number 1. It takes no memory.
    pub fn new(alloc: Global) -> TrapStore
        ensures { result ≡ record { traps = []; next = 1 } }
    {
        TrapStore {
            traps: TrapRows::new(alloc),
            next: 1,
            sums: Vec::new(alloc),
        }
    }

    /// All traps, oldest first.
    pub fn traps(&self) -> Values<'_, u64, Trap>
        ensures { result ≡ self.now.traps }
    {
        self.traps.iter()
    }

    /// How many traps a bundle makes: pieces of at most 20 assets.
    pub fn pieces(goods: &AssetBundle) -> usize
        ensures { result ≡ piece_count (length (rows goods.now)) }
    {
        goods.kinds().div_ceil(MAX_ASSETS)
    }

    /// Traps a bundle that isn't empty, in pieces of at most 20 assets in holding order, and answers the number of the first. An
    /// `Err` is out of memory: it hands the bundle back, and all is as before.
    pub fn trap(&mut self, goods: AssetBundle, origin: &Location) -> Result<u64, AssetBundle>
        requires some { 0 < length (rows goods) }
        ensures { MatchResult result
            (λ number. (number ≡ self.old.next)
            × (self.new ≡ with_trapped self.old origin.now goods))
            (λ back. (back ≡ goods) × (self.new ≡ self.old)) }
    {
        let units = goods.set_down();
        match self.take_in(&units, origin) {
            Ok(number) => Ok(number),
            Err(_) => Err(AssetBundle::take_up(units)),
        }
    }

    /// The traps of these units are put after the others.
    fn take_in(&mut self, goods: &Units, origin: &Location) -> Result<u64, AllocError>
        ensures { MatchResult result
            (λ number. (number ≡ self.old.next)
            × (self.new ≡ with_trapped self.old origin.now goods.now))
            (λ _. self.new ≡ self.old) }
    {
        let number = self.next;
        let alloc = *self.sums.allocator();
        let (traps, next) = in_pieces(alloc, goods, number, origin)?;
        make_rows(&mut self.sums, goods.items())?;
        self.traps.append(traps)?;
        raise_all(self.sums.as_mut_slice(), goods);
        self.next = next;
        Ok(number)
    }

    /// Takes the oldest trap that has that origin and just that list. It takes no memory.
    pub fn claim(&mut self, list: &Assets, origin: &Location) -> Result<AssetBundle, Unknown>
        ensures { MatchResult result
            (λ goods. (goods ≡ bundle_of list.now)
            × IsClaimed list.now origin.now self.old self.new)
            (λ _. NoneFits list.now origin.now self.old.traps × (self.new ≡ self.old)) }
    {
        match self.traps.take_oldest(list, origin) {
            Some(trap) => {
                settle_all(self.sums.as_mut_slice(), &trap.goods, &self.traps);
                Ok(AssetBundle::take_up(trap.goods))
            }
            None => Err(Unknown),
        }
    }

    /// The amount of a fungible asset in all traps, in its smallest unit, or the number of instances of a class. It saturates at
    /// 2^160-1, and takes no time in proportion to the traps.
    pub fn total(&self, id: &AssetId, kind: Kind) -> Total
        ensures { total_value result ≡ min (trapped_amount id.now kind self.now.traps) most_burned }
    {
        sum_of(self.sums.as_slice(), id, kind)
    }
}
