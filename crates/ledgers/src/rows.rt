//! The rows that a ledger keeps: what they say, how an asset goes into an account or out of it, and what an account holds.
use crate::DepositFault;
use crate::account_key::AccountKey;
use crate::asset_table::AssetTable;
use crate::row_moves::{
    amount_of, kind_of, lower_sum, make_instance_row, may_be_empty, owned, raise_sum, set_owner,
    sweep_instance,
};
use crate::row_writes::{
    AmountRows, OwnerRows, add_amount, amount_in, lower_amount, make_amount_row, owner_in,
    raise_amount, sweep_amount,
};
use asset_bundles::WideSum;
use asset_lists::{Asset, AssetId, Fun, Instance, Kind};
use std::alloc::AllocError;

/// The assets of a chain, what the accounts have of each, who owns each instance, and the sum of each asset
/// over all accounts.
#[derive(Drop)]
pub(crate) struct Rows {
    pub(crate) assets: AssetTable,
    pub(crate) amounts: AmountRows,
    pub(crate) owners: OwnerRows,
    pub(crate) sums: Vec<WideSum>,
}

impl Rows {
    ghost use Rattle.std.specs.Prelude.{◌≡◌, ◌<◌, ◌≤◌, Some, OnOk, OnErr, IsSome, IsTrue, IsFalse, MatchOption, IfOk, not, slice_get};
    ghost use Rattle.amounts.specs.Amounts.{amount, plus, minus, restriction};
    ghost use Rattle.asset_lists.specs.Units.{unit_of, amount_of as amount_of_asset};
    ghost use Rattle.asset_lists.specs.Listed.{listed_of};
    ghost use Rattle.asset_bundles.specs.Totals.{wide_value};
    ghost use Rattle.ledgers.specs.Ledgers.{number_in, account_sum_of, sum_of, owners_of, IsOwner, is_barred, account_goods};
    ghost use Rattle.ledgers.specs.LedgerFaults.{IsBarred};
    ghost use Rattle.ledgers.specs.RowState.{rows_held, AreSound, HasDepositRows, KeepsRows, MayTake};
    ghost use Rattle.ledgers.specs.LedgerRows.{amount_in_row, owned};
    ghost use Rattle.ledgers.specs.AccountGoods.{IsUnsortedListOf, is_amount, fungible_held_at, instance_held_at};

    /// The number of the asset's row in the list.
    fn number(&self, asset: &Asset) -> Option<u32>
        ensures { result ≡ number_in self.now.assets (listed_of (unit_of asset.now)) }
    {
        self.assets.number_of(&asset.id, kind_of(asset))
    }

    /// What an account has of the asset's unit.
    pub(crate) fn held(&self, who: &[u8; 32], asset: &Asset) -> u128
        requires { AreSound self.now }
        ensures { result ≡ amount (rows_held self.now) (who.now, unit_of asset.now) }
    {
        self.held_at(self.number(asset), who, asset)
    }

    /// What an account has of the unit of the asset of this number.
    pub(crate) fn held_at(&self, number: Option<u32>, who: &[u8; 32], asset: &Asset) -> u128
        requires sound { AreSound self.now }
        requires number { number ≡ number_in self.now.assets (listed_of (unit_of asset.now)) }
        ensures { result ≡ amount (rows_held self.now) (who.now, unit_of asset.now) }
    {
        match number {
            Some(number) => match asset.fun {
                Fun::Fungible(_) => amount_in(&self.amounts, number, who),
                Fun::NonFungible(instance) => {
                    let owner = owner_in(&self.owners, number, instance);
                    owned(owner, who)
                }
            },
            None => 0,
        }
    }

    /// What an account has of a fungible asset, or how many instances of a class, by the asset's row.
    pub(crate) fn part(&self, who: &[u8; 32], id: &AssetId, kind: Kind) -> u128
        requires { AreSound self.now }
        ensures { result ≡ account_sum_of who.now (id.now, kind) (rows_held self.now) }
    {
        match self.assets.number_of(id, kind) {
            Some(number) => amount_in(&self.amounts, number, who),
            None => 0,
        }
    }

    /// The account that has an instance.
    pub(crate) fn owner(&self, id: &AssetId, instance: Instance) -> Option<[u8; 32]>
        requires { AreSound self.now }
        ensures { MatchOption result
            (owners_of (id.now, Some instance) (rows_held self.now) ≡ 0)
            (IsOwner (rows_held self.now) (id.now, Some instance)) }
    {
        match self.assets.number_of(id, Kind::Class) {
            Some(number) => owner_in(&self.owners, number, instance),
            None => None,
        }
    }

    /// The sum of an asset over all accounts.
    pub(crate) fn sum(&self, id: &AssetId, kind: Kind) -> WideSum
        requires { AreSound self.now }
        ensures { wide_value result ≡ sum_of (id.now, kind) (rows_held self.now) }
    {
        match self.assets.number_of(id, kind) {
            Some(number) => self.sums[number as usize],
            None => WideSum::ZERO,
        }
    }

    /// Why an account can't take the asset in.
    pub(crate) fn barred(&self, who: &[u8; 32], asset: &Asset) -> Option<DepositFault>
        requires { AreSound self.now }
        ensures { MatchOption result
            (IsFalse (is_barred (rows_held self.now) who.now asset.now))
            (λ fault. IsTrue (is_barred (rows_held self.now) who.now asset.now)
            × IsBarred (rows_held self.now) who.now asset.now fault) }
    {
        self.barred_at(self.number(asset), who, asset)
    }

    /// Why an account can't take in the asset of this number.
    pub(crate) fn barred_at(
        &self,
        number: Option<u32>,
        who: &[u8; 32],
        asset: &Asset,
    ) -> Option<DepositFault>
        requires sound { AreSound self.now }
        requires number { number ≡ number_in self.now.assets (listed_of (unit_of asset.now)) }
        ensures { MatchOption result
            (IsFalse (is_barred (rows_held self.now) who.now asset.now))
            (λ fault. IsTrue (is_barred (rows_held self.now) who.now asset.now)
            × IsBarred (rows_held self.now) who.now asset.now fault) }
    {
        match asset.fun {
            Fun::Fungible(amount) => {
                let have = self.held_at(number, who, asset);
                if have > u128::MAX - amount {
                    return Some(DepositFault::Overflow { have });
                }
                None
            }
            Fun::NonFungible(instance) => match self.owner(&asset.id, instance) {
                Some(owner) => Some(DepositFault::InstanceExists { owner }),
                None => None,
            },
        }
    }

    /// Takes the asset out of an account, which has it. False says that it left no row that says nothing, and then `sweep` isn't needed.
    pub(crate) fn take(&mut self, who: &[u8; 32], asset: &Asset) -> bool
        requires sound { AreSound self.old }
        requires some { 0 < amount_of_asset asset.now }
        requires enough { amount_of_asset asset.now
            ≤ amount (rows_held self.old) (who.now, unit_of asset.now) }
        ensures sound { AreSound self.new }
        ensures stay { KeepsRows self.old self.new }
        ensures held { rows_held self.new ≡ minus (rows_held self.old) (who.now, unit_of asset.now)
            (amount_of_asset asset.now) }
    {
        let Some(number) = self.number(asset) else {
            unreachable!();
        };
        self.take_at(number, who, asset)
    }

    /// The same, where this is the asset's number.
    fn take_at(&mut self, number: u32, who: &[u8; 32], asset: &Asset) -> bool
        requires sound { AreSound self.old }
        requires number { Some number ≡ number_in self.old.assets (listed_of (unit_of asset.now)) }
        requires some { 0 < amount_of_asset asset.now }
        requires enough { amount_of_asset asset.now
            ≤ amount (rows_held self.old) (who.now, unit_of asset.now) }
        ensures sound { AreSound self.new }
        ensures stay { KeepsRows self.old self.new }
        ensures held { rows_held self.new ≡ minus (rows_held self.old) (who.now, unit_of asset.now)
            (amount_of_asset asset.now) }
    {
        let amount = amount_of(asset);
        let left = lower_amount(&mut self.amounts, number, who, amount);
        set_owner(&mut self.owners, number, asset, None);
        lower_sum(&mut self.sums, number, amount);
        may_be_empty(left, asset)
    }

    /// Takes out the rows that say nothing after an asset was taken.
    pub(crate) fn sweep(&mut self, who: &[u8; 32], asset: &Asset)
        requires { AreSound self.old }
        ensures sound { AreSound self.new }
        ensures assets { self.new.assets ≡ self.old.assets }
        ensures held { rows_held self.new ≡ rows_held self.old }
    {
        let Some(number) = self.number(asset) else {
            return;
        };
        self.sweep_at(number, who, asset);
    }

    /// The same, where this is the asset's number.
    fn sweep_at(&mut self, number: u32, who: &[u8; 32], asset: &Asset)
        requires { AreSound self.old }
        ensures sound { AreSound self.new }
        ensures assets { self.new.assets ≡ self.old.assets }
        ensures held { rows_held self.new ≡ rows_held self.old }
    {
        sweep_amount(&mut self.amounts, number, who);
        sweep_instance(&mut self.owners, number, asset);
    }

    /// Makes the rows that `give` writes.
    pub(crate) fn make_room(&mut self, who: &[u8; 32], asset: &Asset) -> Result<(), AllocError>
        requires { AreSound self.old }
        ensures sound { AreSound self.new }
        ensures held { rows_held self.new ≡ rows_held self.old }
        ensures stay { KeepsRows self.old self.new }
        ensures room { OnOk result (HasDepositRows self.new who.now asset.now) }
    {
        let Some(number) = self.number(asset) else {
            return Ok(());
        };
        make_amount_row(&mut self.amounts, number, who)?;
        make_instance_row(&mut self.owners, number, asset)?;
        Ok(())
    }

    /// Gives the asset to an account that may take it.
    pub(crate) fn give(&mut self, who: &[u8; 32], asset: &Asset)
        requires sound { AreSound self.old }
        requires listed { IsSome (number_in self.old.assets (listed_of (unit_of asset.now))) }
        requires room { HasDepositRows self.old who.now asset.now }
        requires may { MayTake (rows_held self.old) who.now asset.now }
        ensures sound { AreSound self.new }
        ensures stay { KeepsRows self.old self.new }
        ensures held { rows_held self.new ≡ plus (rows_held self.old) (who.now, unit_of asset.now)
            (amount_of_asset asset.now) }
    {
        let Some(number) = self.number(asset) else {
            unreachable!();
        };
        // For the prover alone: there are fewer than 2^63 rows of each kind, so a count and a sum have room for one more.
        let _ = self.amounts.len();
        let _ = self.owners.len();
        let amount = amount_of(asset);
        raise_amount(&mut self.amounts, number, who, amount);
        set_owner(&mut self.owners, number, asset, Some(*who));
        raise_sum(&mut self.sums, number, amount);
    }

    /// Gives the asset to an account that may take it, and makes its rows where there are none. An `Err` is out of
    /// memory, and then nothing was given.
    pub(crate) fn put(&mut self, who: &[u8; 32], asset: &Asset) -> Result<(), AllocError>
        requires sound { AreSound self.old }
        requires listed { IsSome (number_in self.old.assets (listed_of (unit_of asset.now))) }
        requires may { MayTake (rows_held self.old) who.now asset.now }
        ensures sound { AreSound self.new }
        ensures assets { self.new.assets ≡ self.old.assets }
        ensures held { OnOk result (rows_held self.new ≡ plus (rows_held self.old)
            (who.now, unit_of asset.now) (amount_of_asset asset.now)) }
        ensures kept { OnErr result (rows_held self.new ≡ rows_held self.old) }
    {
        let Some(number) = self.number(asset) else {
            unreachable!();
        };
        self.put_at(number, who, asset)
    }

    /// The same, where this is the asset's number.
    fn put_at(&mut self, number: u32, who: &[u8; 32], asset: &Asset) -> Result<(), AllocError>
        requires sound { AreSound self.old }
        requires number { Some number ≡ number_in self.old.assets (listed_of (unit_of asset.now)) }
        requires may { MayTake (rows_held self.old) who.now asset.now }
        ensures sound { AreSound self.new }
        ensures assets { self.new.assets ≡ self.old.assets }
        ensures held { OnOk result (rows_held self.new ≡ plus (rows_held self.old)
            (who.now, unit_of asset.now) (amount_of_asset asset.now)) }
        ensures kept { OnErr result (rows_held self.new ≡ rows_held self.old) }
    {
        make_instance_row(&mut self.owners, number, asset)?;
        // For the prover alone: there are fewer than 2^63 rows of each kind, so a count and a sum have room for one more.
        let _ = self.amounts.len();
        let _ = self.owners.len();
        let amount = amount_of(asset);
        add_amount(&mut self.amounts, number, who, amount)?;
        set_owner(&mut self.owners, number, asset, Some(*who));
        raise_sum(&mut self.sums, number, amount);
        Ok(())
    }

    /// Moves the asset from one account, which has it, to another, which may take it. An `Err` is out of memory, and then nothing was
    /// moved. It takes no instance, since another account has it until it is taken.
    pub(crate) fn pass(
        &mut self,
        from: &[u8; 32],
        to: &[u8; 32],
        asset: &Asset,
    ) -> Result<(), AllocError>
        requires sound { AreSound self.old }
        requires others { to.now ≡ from.now → ⊥ }
        requires some { 0 < amount_of_asset asset.now }
        requires enough { amount_of_asset asset.now
            ≤ amount (rows_held self.old) (from.now, unit_of asset.now) }
        requires may { MayTake (rows_held self.old) to.now asset.now }
        ensures sound { AreSound self.new }
        ensures assets { self.new.assets ≡ self.old.assets }
        ensures held { OnOk result (rows_held self.new ≡ plus
            (minus (rows_held self.old) (from.now, unit_of asset.now) (amount_of_asset asset.now))
            (to.now, unit_of asset.now) (amount_of_asset asset.now)) }
        ensures kept { OnErr result (rows_held self.new ≡ rows_held self.old) }
    {
        let Some(number) = self.number(asset) else {
            unreachable!();
        };
        self.put_at(number, to, asset)?;
        if !self.take_at(number, from, asset) {
            return Ok(());
        }
        self.sweep_at(number, from, asset);
        Ok(())
    }

    /// What an account holds, in no order.
    pub(crate) fn goods(&self, who: &[u8; 32]) -> Result<Vec<Asset>, AllocError>
        requires { AreSound self.now }
        ensures { IfOk result (λ goods. IsUnsortedListOf
            (account_goods who.now (rows_held self.now)) goods.items) }
    {
        let mut goods = self.fungibles(who)?;
        let mut instances = self.instances(who)?;
        goods.append(&mut instances)?;
        Ok(goods)
    }

    /// The fungible assets that an account holds.
    fn fungibles(&self, who: &[u8; 32]) -> Result<Vec<Asset>, AllocError>
        requires { AreSound self.now }
        ensures { IfOk result (λ goods. IsUnsortedListOf
            (restriction is_amount (account_goods who.now (rows_held self.now))) goods.items) }
    {
        let mut goods = Vec::new(*self.sums.allocator());
        for (key, amount) in self.amounts.range((AccountKey::of(who), 0)..) {
            if !key.0.is(who) {
                return Ok(goods);
            }
            if let Some(asset) = self.fungible(key.1, *amount) {
                goods.push(asset)?;
            }
        }
        Ok(goods)
    }

    /// The instances that an account has. It takes time in proportion to the instances of all accounts.
    fn instances(&self, who: &[u8; 32]) -> Result<Vec<Asset>, AllocError>
        requires { AreSound self.now }
        ensures { IfOk result (λ goods. IsUnsortedListOf
            (restriction (λ unit. not (is_amount unit))
            (account_goods who.now (rows_held self.now))) goods.items) }
    {
        let mut goods = Vec::new(*self.sums.allocator());
        for (key, owner) in self.owners.iter() {
            if let Some(asset) = self.instance(who, key, owner) {
                goods.push(asset)?;
            }
        }
        Ok(goods)
    }

    /// So much of the asset of a number; None where it is nothing, or a class.
    fn fungible(&self, number: u32, amount: u128) -> Option<Asset>
        ensures { result ≡ fungible_held_at (slice_get self.now.assets number) amount }
    {
        if amount == 0 {
            return None;
        }
        let (id, kind) = self.assets.get(number)?;
        match kind {
            Kind::Fungible => {
                let fun = Fun::Fungible(amount);
                Some(Asset { id, fun })
            }
            Kind::Class => None,
        }
    }

    /// The instance of a row, where the account is its owner.
    fn instance(
        &self,
        who: &[u8; 32],
        key: &(u32, Instance),
        owner: &Option<[u8; 32]>,
    ) -> Option<Asset>
        ensures { result ≡ instance_held_at (slice_get self.now.assets key.now.0) key.now.1
            (owned who.now owner.now) }
    {
        if owned(*owner, who) == 0 {
            return None;
        }
        let (id, kind) = self.assets.get(key.0)?;
        match kind {
            Kind::Fungible => None,
            Kind::Class => {
                let fun = Fun::NonFungible(key.1);
                Some(Asset { id, fun })
            }
        }
    }
}
