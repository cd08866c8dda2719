//! The ledger of a chain.
ghost use Rattle.std.specs.Prelude.{◌≡◌, ◌+◌, ◌-◌, ◌^◌, ◌<◌, ◌≤◌, None, Some, map, min, option_copied, length, slice_get, IfOk, IfErr, IfSome, OnOk, OnErr, MatchOption};
ghost use Rattle.std.specs.Ordering.{eq_by_cmp};
ghost use Rattle.std.specs.List.{IsDistinct};
ghost use Rattle.amounts.specs.Amounts.{amount, empty, plus, minus};
ghost use Rattle.asset_lists.specs.declared.units.Kind.{Kind};
ghost use Rattle.asset_bundles.specs.Bundles.{bundle_of, held_assets};
ghost use Rattle.asset_lists.specs.Units.{unit_of};
ghost use Rattle.asset_lists.specs.Listed.{listed_cmp, listed_of};
ghost use Rattle.asset_bundles.specs.Totals.{total_value};
ghost use Rattle.asset_bundles.specs.Books.{AreListed};
ghost use Rattle.ledgers.specs.Ledgers.{listed_pair, number_in, sum_of, account_sum_of, owners_of, IsOwner, NoneNext, IsNext, account_goods, shortage, overflow, is_barred, barred, Withdrawn, Deposited, Transferred};
ghost use Rattle.ledgers.specs.LedgerFaults.{IsFirstBarred, IsLedgerFault, IsDepositFault, IsTransferable, IsTransferBar, IsTransferFault};

use crate::account_sums::account_sums;
use crate::asset_table::AssetTable;
use crate::list_moves::{barred, move_all, overflow, put_all, shortage, sweep_all, take_all};
use crate::next_account::next_holder;
use crate::rows::Rows;
use crate::sums::zero_sums;
use crate::{DepositFault, LedgerFault, TransferFault};
use asset_bundles::{AssetBundle, Total};
use asset_lists::{Asset, AssetId, Assets, Fun, Instance, Kind};
use locations::Location;
use std::alloc::{AllocError, Global};
use std::collections::BTreeMap;
use std::marker::Model;

/// What each account of a chain holds: plain numbers of fungible assets, and who owns each instance.
/// Amounts are in the asset's smallest unit, and accounts are 32 bytes.
#[derive(Drop)]
pub struct Ledger {
    rows: Rows,
}

impl Model for Ledger {
    ghost use Rattle.ledgers.specs.Ledgers.{Accounts};
    ghost use Rattle.ledgers.specs.LedgerCode.{accounts_code};

    ghost Value = { Accounts };

    ghost coded = { accounts_code };

    ghost use Rattle.ledgers.specs.RowState.{accounts_in, AreSound};

    ghost view = { λ l. accounts_in l.rows };

    ghost invariant = { λ l. AreSound l.rows };
}

impl Ledger {
    /// A ledger of a chain's assets in listed order, where no account holds anything. No asset may be
    /// listed twice, and there are fewer than 2^32. An `Err` is out of memory.
    pub fn open(alloc: Global, list: Vec<(Location, Kind)>) -> Result<Ledger, AllocError>
        requires distinct { IsDistinct (eq_by_cmp listed_cmp) (map listed_pair list.items) }
        requires few { length list.items < 2 ^ 32 }
        ensures opened { IfOk result (λ ledger. ledger
            ≡ record { listed = map listed_pair list.items; held = empty }) }
    {
        let assets = AssetTable::open(alloc, list)?;
        let sums = zero_sums(alloc, assets.len() as usize)?;
        let rows = Rows {
            assets,
            amounts: BTreeMap::new(alloc),
            owners: BTreeMap::new(alloc),
            sums,
        };
        Ok(Ledger { rows })
    }

    /// The index of an asset in the list; None where it isn't listed.
    pub fn number_of(&self, id: &AssetId, kind: Kind) -> Option<u32>
        ensures number { result ≡ number_in self.now.listed (id.now, kind) }
    {
        self.rows.assets.number_of(id, kind)
    }

    /// The sum over all accounts of the listed asset of this number; for a class it is the number of
    /// instances. It saturates at 2^160-1 where it would pass it.
    pub fn total(&self, number: u32) -> Total
        requires listed { number < length self.now.listed }
        ensures sum { IfSome (slice_get self.now.listed number) (λ asset. total_value result
            ≡ min (sum_of asset self.now.held) (2 ^ 160 - 1)) }
    {
        self.rows.sums[number as usize].total()
    }

    /// The sum of an asset over all accounts, or the number of instances of a class; 0 where it isn't
    /// listed. It saturates at 2^160-1 where it would pass it.
    pub fn sum(&self, id: &AssetId, kind: Kind) -> Total
        ensures sum { total_value result ≡ min (sum_of (id.now, kind) self.now.held) (2 ^ 160 - 1) }
    {
        self.rows.sum(id, kind).total()
    }

    /// The amount of a fungible asset that an account has, 0 where it has none.
    pub fn amount(&self, who: &[u8; 32], id: &AssetId) -> u128
        ensures amount { result ≡ amount self.now.held (who.now, (id.now, None)) }
    {
        self.rows.part(who, id, Kind::Fungible)
    }

    /// What an account has of an asset's unit: the amount of a fungible one, and 1 of an instance that it has.
    pub fn held_of(&self, who: &[u8; 32], asset: &Asset) -> u128
        ensures amount { result ≡ amount self.now.held (who.now, unit_of asset.now) }
    {
        self.rows.held(who, asset)
    }

    /// What an account has of the unit of an asset, whose number the caller has looked up (`number_of`).
    pub fn held_at(&self, number: Option<u32>, who: &[u8; 32], asset: &Asset) -> u128
        requires number { number ≡ number_in self.now.listed (listed_of (unit_of asset.now)) }
        ensures amount { result ≡ amount self.now.held (who.now, unit_of asset.now) }
    {
        self.rows.held_at(number, who, asset)
    }

    /// Whether an account can't take in an asset, whose number the caller has looked up (`number_of`).
    pub fn is_barred_at(&self, number: Option<u32>, who: &[u8; 32], asset: &Asset) -> bool
        requires number { number ≡ number_in self.now.listed (listed_of (unit_of asset.now)) }
        ensures barred { result ≡ is_barred self.now.held who.now asset.now }
    {
        self.rows.barred_at(number, who, asset).is_some()
    }

    /// Whether an account can't take an asset in: an amount would pass 2^128-1, or the instance has an owner.
    pub fn is_barred(&self, who: &[u8; 32], asset: &Asset) -> bool
        ensures barred { result ≡ is_barred self.now.held who.now asset.now }
    {
        self.rows.barred(who, asset).is_some()
    }

    /// How many instances of a class an account owns.
    pub fn count(&self, who: &[u8; 32], id: &AssetId) -> u128
        ensures count { result ≡ account_sum_of who.now (id.now, Kind.Class) self.now.held }
    {
        self.rows.part(who, id, Kind::Class)
    }

    /// What an account has of each listed asset, by the asset's number: the amount of a fungible one, or how many instances of a class. It goes once
    /// over what the account has. An `Err` is out of memory.
    pub fn account_sums(&self, who: &[u8; 32]) -> Result<Vec<u128>, AllocError>
        ensures sums { IfOk result (λ sums. sums.items
            ≡ map (λ asset. account_sum_of who.now asset self.now.held) self.now.listed) }
    {
        let count = self.rows.assets.len() as usize;
        let alloc = *self.rows.sums.allocator();
        let sums = account_sums(alloc, &self.rows.amounts, count, who)?;
        Ok(sums)
    }

    /// The account that has an instance; None where no account has it.
    pub fn owner(&self, id: &AssetId, instance: &Instance) -> Option<[u8; 32]>
        ensures owner { MatchOption result
            (owners_of (id.now, Some instance.now) self.now.held ≡ 0)
            (IsOwner self.now.held (id.now, Some instance.now)) }
    {
        self.rows.owner(id, *instance)
    }

    /// The first account by bytes that holds something, of those after the given one; None where there is
    /// none. It is found by one search.
    pub fn next_account(&self, after: Option<&[u8; 32]>) -> Option<[u8; 32]>
        ensures next { MatchOption result
            (NoneNext (option_copied after.entry) self.now.held)
            (IsNext (option_copied after.entry) self.now.held) }
    {
        next_holder(&self.rows.amounts, after)
    }

    /// What an account holds, in holding order: fungibles by id, then instances by id and instance. An `Err`
    /// is out of memory.
    pub fn held(&self, who: &[u8; 32]) -> Result<Vec<Asset>, AllocError>
        ensures listed { IfOk result (λ assets. assets.items
            ≡ held_assets (account_goods who.now self.now.held)) }
        ensures bundle { IfOk result (λ assets. bundle_of assets.items
            ≡ account_goods who.now self.now.held) }
    {
        let found = self.rows.goods(who)?;
        let goods = AssetBundle::mint(*self.rows.sums.allocator(), found.as_slice())?;
        let assets = goods.list();
        goods.melt();
        assets
    }

    /// What the account has of the first of these assets of which it has less than is listed; None where it has
    /// enough of each. It is what `withdraw` refuses by.
    pub fn shortage(&self, who: &[u8; 32], list: &[Asset]) -> Option<u128>
        ensures shortage { result ≡ shortage self.now.held who.now list.now }
    {
        shortage(&self.rows, who, list)
    }

    /// What the account has of the first of these assets of which it would then have more than 2^128-1; None where
    /// each can be added. It is what `transfer` refuses by, once the giver has given.
    pub fn overflow(&self, who: &[u8; 32], list: &[Asset]) -> Option<u128>
        ensures overflow { result ≡ overflow self.now.held who.now list.now }
    {
        overflow(&self.rows, who, list)
    }

    /// Why the account can't take in the first of these assets that it can't take in; None where it can take in each.
    /// It is what `deposit` refuses by.
    pub fn barred(&self, who: &[u8; 32], list: &[Asset]) -> Option<DepositFault>
        ensures barred { MatchOption result
            (barred self.now.held who.now list.now ≡ None)
            (IsFirstBarred self.now.held who.now list.now) }
    {
        barred(&self.rows, who, list)
    }

    /// Takes the listed assets out of an account: all of them, or none.
    pub fn withdraw(&mut self, who: &[u8; 32], list: &Assets) -> Result<AssetBundle, LedgerFault>
        ensures enough { OnOk result (shortage self.old.held who.now list.now ≡ None) }
        ensures goods { IfOk result (λ goods. goods ≡ bundle_of list.now) }
        ensures withdrawn { OnOk result (self.new ≡ Withdrawn who.now list.now self.old) }
        ensures fault { IfErr result (IsLedgerFault self.old.held who.now list.now) }
        ensures kept { OnErr result (self.new ≡ self.old) }
    {
        if let Some(have) = self.shortage(who, list.items()) {
            return Err(LedgerFault::NotEnough { have });
        }
        let goods = self.withdraw_checked(who, list)?;
        Ok(goods)
    }

    /// Takes the listed assets out of an account, which has enough of each (`shortage`): all of them, or none. An
    /// `Err` is out of memory.
    pub fn withdraw_checked(
        &mut self,
        who: &[u8; 32],
        list: &Assets,
    ) -> Result<AssetBundle, AllocError>
        requires enough { shortage self.old.held who.now list.now ≡ None }
        ensures goods { IfOk result (λ goods. goods ≡ bundle_of list.now) }
        ensures withdrawn { OnOk result (self.new ≡ Withdrawn who.now list.now self.old) }
        ensures kept { OnErr result (self.new ≡ self.old) }
    {
        let assets = list.items();
        let goods = AssetBundle::mint(*self.rows.sums.allocator(), assets)?;
        let needs_sweep = take_all(&mut self.rows, who, assets);
        sweep_all(&mut self.rows, who, assets, needs_sweep);
        Ok(goods)
    }

    /// Puts a bundle into an account: all of it, or nothing, and then the bundle is handed back. Each asset
    /// of it must be listed.
    pub fn deposit(
        &mut self,
        who: &[u8; 32],
        goods: AssetBundle,
    ) -> Result<(), (AssetBundle, DepositFault)>
        requires listed { AreListed self.old.listed goods }
        ensures free { OnOk result (barred self.old.held who.now (held_assets goods) ≡ None) }
        ensures deposited { OnOk result (self.new ≡ Deposited who.now goods self.old) }
        ensures back { IfErr result (λ refusal. refusal.0 ≡ goods) }
        ensures fault { IfErr result
            (λ refusal. IsDepositFault self.old.held who.now (held_assets goods) refusal.1) }
        ensures kept { OnErr result (self.new ≡ self.old) }
    {
        if let Some(fault) = self.barred(who, goods.items()) {
            return Err((goods, fault));
        }
        match self.deposit_checked(who, goods) {
            Ok(()) => Ok(()),
            Err(goods) => Err((goods, DepositFault::Memory)),
        }
    }

    /// Puts a bundle into an account, which can take in each asset of it (`barred`): all of it, or, out of memory, nothing, and then
    /// the bundle is handed back. Each asset of it must be listed.
    pub fn deposit_checked(&mut self, who: &[u8; 32], goods: AssetBundle) -> Result<(), AssetBundle>
        requires listed { AreListed self.old.listed goods }
        requires free { barred self.old.held who.now (held_assets goods) ≡ None }
        ensures deposited { OnOk result (self.new ≡ Deposited who.now goods self.old) }
        ensures back { IfErr result (λ back. back ≡ goods) }
        ensures kept { OnErr result (self.new ≡ self.old) }
    {
        let Ok(()) = put_all(&mut self.rows, who, goods.items()) else {
            return Err(goods);
        };
        goods.melt();
        Ok(())
    }

    /// Takes some of one fungible asset out of an account, and puts some of another into it. The account has so much of the first, and some
    /// of the second, which doesn't pass 2^128-1. It takes no memory, since both rows are there.
    pub fn exchange(
        &mut self,
        who: &[u8; 32],
        out: &AssetId,
        less: u128,
        into: &AssetId,
        more: u128,
    )
        requires some { 0 < less }
        requires enough { less ≤ amount self.old.held (who.now, (out.now, None)) }
        requires there { 0 < amount self.old.held (who.now, (into.now, None)) }
        requires room { amount self.old.held (who.now, (into.now, None)) + more ≤ 2 ^ 128 - 1 }
        ensures { self.new ≡ record {
          listed = self.old.listed;
          held = plus (minus self.old.held (who.now, (out.now, None)) less)
              (who.now, (into.now, None)) more;
        } }
    {
        let taken = Asset {
            id: out.copy(),
            fun: Fun::Fungible(less),
        };
        let given = Asset {
            id: into.copy(),
            fun: Fun::Fungible(more),
        };
        self.rows.take(who, &taken);
        self.rows.give(who, &given);
    }

    /// What the receiver has of the first of these assets of which it would have more than 2^128-1, once the giver,
    /// which has enough of each (`shortage`), gave them; None where it can take in each. It takes no memory.
    pub fn transfer_overflow(&self, from: &[u8; 32], to: &[u8; 32], list: &Assets) -> Option<u128>
        requires enough { shortage self.now.held from.now list.now ≡ None }
        ensures overflow { MatchOption result
            (barred (Withdrawn from.now list.now self.now).held to.now list.now ≡ None)
            (λ have. IsFirstBarred (Withdrawn from.now list.now self.now).held to.now list.now
            (DepositFault.Overflow have)) }
    {
        let rows = &self.rows;
        let assets = list.items();
        if from.cmp(to).is_eq() {
            return None;
        }
        overflow(rows, to, assets)
    }

    /// Why `transfer` would be refused, before it is made; None where only memory can refuse it. It takes no memory.
    pub fn transfer_fault(
        &self,
        from: &[u8; 32],
        to: &[u8; 32],
        list: &Assets,
    ) -> Option<TransferFault>
        ensures fault { MatchOption result
            (IsTransferable self.now from.now to.now list.now)
            (IsTransferBar self.now from.now to.now list.now) }
    {
        if let Some(have) = self.shortage(from, list.items()) {
            return Some(TransferFault::NotEnough { have });
        }
        let Some(have) = self.transfer_overflow(from, to, list) else {
            return None;
        };
        Some(TransferFault::Overflow { have })
    }

    /// Moves the listed assets from one account to another: all of them, or none. It is the withdrawal and
    /// then the deposit, as one change.
    pub fn transfer(
        &mut self,
        from: &[u8; 32],
        to: &[u8; 32],
        list: &Assets,
    ) -> Result<(), TransferFault>
        ensures enough { OnOk result (shortage self.old.held from.now list.now ≡ None) }
        ensures fits { OnOk result (barred (Withdrawn from.now list.now self.old).held to.now
            list.now ≡ None) }
        ensures transferred { OnOk result (self.new
            ≡ Transferred from.now to.now list.now self.old) }
        ensures fault { IfErr result (IsTransferFault self.old from.now to.now list.now) }
        ensures kept { OnErr result (self.new ≡ self.old) }
    {
        if let Some(fault) = self.transfer_fault(from, to, list) {
            return Err(fault);
        }
        self.transfer_checked(from, to, list)?;
        Ok(())
    }

    /// Moves the listed assets from one account, which has enough of each, to another, which can then take in each
    /// (`transfer_fault`): all of them, or none. An `Err` is out of memory.
    pub fn transfer_checked(
        &mut self,
        from: &[u8; 32],
        to: &[u8; 32],
        list: &Assets,
    ) -> Result<(), AllocError>
        requires able { IsTransferable self.old from.now to.now list.now }
        ensures transferred { OnOk result (self.new
            ≡ Transferred from.now to.now list.now self.old) }
        ensures kept { OnErr result (self.new ≡ self.old) }
    {
        let assets = list.items();
        if from.cmp(to).is_eq() {
            return Ok(());
        }
        move_all(&mut self.rows, from, to, assets)?;
        Ok(())
    }
}
