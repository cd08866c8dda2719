//! One asset moved into an account or out of it.
ghost use Rattle.std.specs.Prelude.{◌≡◌, ◌+◌, ◌-◌, ◌^◌, ◌<◌, ◌≤◌, None, Some, OnOk, IsFalse, length, slice_get};
ghost use Rattle.std.specs.Map.{keys_of};
ghost use Rattle.std.specs.List.Sorted.{IsStrictlySortedBy};
ghost use Rattle.asset_lists.specs.Units.{amount_of, instance_in};
ghost use Rattle.asset_lists.specs.Listed.{kind_of};
ghost use Rattle.asset_bundles.specs.Totals.{wide_value};
ghost use Rattle.ledgers.specs.LedgerRows.{OwnerKey, owner_key_cmp, owner_at, owned, OwnerIs, HasOwnerRow, HasInstanceRow, IsSumWritten};

use crate::row_writes::{OwnerRows, make_owner_row, sweep_owner, write_owner};
use crate::rows::Rows;
use asset_bundles::WideSum;
use asset_lists::{Asset, Fun, Kind};
use std::alloc::AllocError;

/// The amount in the asset's smallest unit; 1 for an instance.
pub(crate) fn amount_of(asset: &Asset) -> u128
    ensures { result ≡ amount_of asset.now }
{
    match asset.fun {
        Fun::Fungible(amount) => amount,
        Fun::NonFungible(_) => 1,
    }
}

/// Whether it is an amount or an instance of a class.
pub(crate) fn kind_of(asset: &Asset) -> Kind
    ensures { result ≡ kind_of (instance_in asset.now.fun) }
{
    match asset.fun {
        Fun::Fungible(_) => Kind::Fungible,
        Fun::NonFungible(_) => Kind::Class,
    }
}

/// 1 where the account is the owner.
pub(crate) fn owned(owner: Option<[u8; 32]>, who: &[u8; 32]) -> u128
    ensures { result ≡ owned who.now owner }
{
    match owner {
        Some(owner) => { if who.cmp(&owner).is_eq() { 1 } else { 0 } }
        None => 0,
    }
}

/// Writes who owns the instance of an asset.
pub(crate) fn set_owner(rows: &mut OwnerRows, number: u32, asset: &Asset, owner: Option<[u8; 32]>)
    requires { HasInstanceRow rows.old.entries number (instance_in asset.now.fun) }
    ensures wrote { OwnerIs (instance_in asset.now.fun) number owner rows.old.entries
        rows.new.entries }
    ensures stay { (q : OwnerKey)
        → HasOwnerRow rows.old.entries q → HasOwnerRow rows.new.entries q }
    ensures sorted { IsStrictlySortedBy owner_key_cmp (keys_of rows.old.entries)
        → IsStrictlySortedBy owner_key_cmp (keys_of rows.new.entries) }
{
    match asset.fun {
        Fun::Fungible(_) => {}
        Fun::NonFungible(instance) => write_owner(rows, number, instance, owner),
    }
}

/// Takes the row of an instance out where it names nobody.
pub(crate) fn sweep_instance(rows: &mut OwnerRows, number: u32, asset: &Asset)
    ensures same { (q : OwnerKey) → owner_at rows.new.entries q ≡ owner_at rows.old.entries q }
    ensures sorted { IsStrictlySortedBy owner_key_cmp (keys_of rows.old.entries)
        → IsStrictlySortedBy owner_key_cmp (keys_of rows.new.entries) }
{
    match asset.fun {
        Fun::Fungible(_) => {}
        Fun::NonFungible(instance) => sweep_owner(rows, number, instance),
    }
}

/// Makes the row of an instance where there is none.
pub(crate) fn make_instance_row(
    rows: &mut OwnerRows,
    number: u32,
    asset: &Asset,
) -> Result<(), AllocError>
    ensures same { (q : OwnerKey) → owner_at rows.new.entries q ≡ owner_at rows.old.entries q }
    ensures stay { (q : OwnerKey)
        → HasOwnerRow rows.old.entries q → HasOwnerRow rows.new.entries q }
    ensures made { OnOk result (HasInstanceRow rows.new.entries number
        (instance_in asset.now.fun)) }
    ensures sorted { IsStrictlySortedBy owner_key_cmp (keys_of rows.old.entries)
        → IsStrictlySortedBy owner_key_cmp (keys_of rows.new.entries) }
{
    match asset.fun {
        Fun::Fungible(_) => Ok(()),
        Fun::NonFungible(instance) => make_owner_row(rows, number, instance),
    }
}

/// Whether a row of the asset may say nothing, where so much is left in the account's row: the row of an instance names nobody then.
pub(crate) fn may_be_empty(left: u128, asset: &Asset) -> bool
    ensures { IsFalse result → 0 < left }
{
    match asset.fun {
        Fun::Fungible(_) => left == 0,
        Fun::NonFungible(_) => true,
    }
}

/// Lowers the running sum of an asset.
pub(crate) fn lower_sum(sums: &mut Vec<WideSum>, number: u32, amount: u128)
    requires within { number < length sums.old.items }
    requires enough { (s : WideSum) → slice_get sums.old.items number ≡ Some s
        → amount ≤ wide_value s }
    ensures { (s : WideSum) × (t : WideSum) × IsSumWritten number sums.old.items sums.new.items s t
        × (wide_value t ≡ wide_value s - amount) }
{
    let place = number as usize;
    let sum = sums[place];
    sums[place] = sum.minus(amount);
}

/// Raises the running sum of an asset.
pub(crate) fn raise_sum(sums: &mut Vec<WideSum>, number: u32, amount: u128)
    requires within { number < length sums.old.items }
    requires room { (s : WideSum) → slice_get sums.old.items number ≡ Some s
        → wide_value s + amount < 2 ^ 192 }
    ensures { (s : WideSum) × (t : WideSum) × IsSumWritten number sums.old.items sums.new.items s t
        × (wide_value t ≡ wide_value s + amount) }
{
    let place = number as usize;
    let sum = sums[place];
    sums[place] = sum.plus(amount);
}
