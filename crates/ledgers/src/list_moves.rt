//! Lists of assets moved into an account or out of it.
ghost use Rattle.std.specs.Prelude.{◌≡◌, None, OnOk, OnErr, IsTrue, IsFalse, IfSome, MatchOption, is_none, [], ◌∷◌};
ghost use Rattle.std.specs.List.{list_all};
ghost use Rattle.amounts.specs.Amounts.{plus_all, minus_all};
ghost use Rattle.asset_lists.specs.Units.{unit_of, instance_in};
ghost use Rattle.asset_lists.specs.Lists.{has_zero, is_rising};
ghost use Rattle.asset_lists.specs.Listed.{listed_of, lists};
ghost use Rattle.ledgers.specs.Ledgers.{shortage, overflow, barred};
ghost use Rattle.ledgers.specs.LedgerFaults.{IsFirstBarred};
ghost use Rattle.ledgers.specs.RowState.{rows_held, AreSound, KeepsRows};
ghost use Rattle.ledgers.specs.AccountRows.{account_rows, HasAll, MayTakeAll, HasAllRoom};

use crate::DepositFault;
use crate::row_moves::amount_of;
use crate::rows::Rows;
use asset_lists::{Asset, Fun};
use std::alloc::AllocError;

/// What the account has of the first asset of which it has less than is listed.
pub(crate) fn shortage(rows: &Rows, who: &[u8; 32], list: &[Asset]) -> Option<u128>
    requires { AreSound rows.now }
    ensures { result ≡ shortage (rows_held rows.now) who.now list.now }
{
    for asset in list {
        let have = rows.held(who, asset);
        if have < amount_of(asset) {
            return Some(have);
        }
    }
    None
}

/// What the account has of the first asset of which it would have more than 2^128-1.
pub(crate) fn overflow(rows: &Rows, who: &[u8; 32], list: &[Asset]) -> Option<u128>
    requires { AreSound rows.now }
    ensures { result ≡ overflow (rows_held rows.now) who.now list.now }
{
    for asset in list {
        let have = rows.held(who, asset);
        if have > u128::MAX - amount_of(asset) {
            return Some(have);
        }
    }
    None
}

/// Why the account can't take in the first asset that it can't take in.
pub(crate) fn barred(rows: &Rows, who: &[u8; 32], list: &[Asset]) -> Option<DepositFault>
    requires { AreSound rows.now }
    ensures { MatchOption result
        (barred (rows_held rows.now) who.now list.now ≡ None)
        (IsFirstBarred (rows_held rows.now) who.now list.now) }
{
    for asset in list {
        if let Some(fault) = rows.barred(who, asset) {
            return Some(fault);
        }
    }
    None
}

/// Takes the listed assets out of an account, which has them. False says that no row says nothing then, and `sweep_all` isn't needed.
pub(crate) fn take_all(rows: &mut Rows, who: &[u8; 32], list: &[Asset]) -> bool
    requires sound { AreSound rows.old }
    requires no_zero { IsFalse (has_zero list.now) }
    requires has { HasAll (rows_held rows.old) who.now list.now }
    ensures sound { AreSound rows.new }
    ensures stay { KeepsRows rows.old rows.new }
    ensures held { rows_held rows.new
        ≡ minus_all (rows_held rows.old) (account_rows who.now list.now) }
{
    let mut needs_sweep = false;
    for asset in list {
        needs_sweep |= rows.take(who, asset);
    }
    needs_sweep
}

/// Takes out the rows that say nothing after these were taken, where there may be some.
pub(crate) fn sweep_all(rows: &mut Rows, who: &[u8; 32], list: &[Asset], needs_sweep: bool)
    requires { AreSound rows.old }
    ensures sound { AreSound rows.new }
    ensures assets { rows.new.assets ≡ rows.old.assets }
    ensures held { rows_held rows.new ≡ rows_held rows.old }
{
    // For speed: most accounts have some left.
    if !needs_sweep {
        return;
    }
    for asset in list {
        rows.sweep(who, asset);
    }
}

/// Makes the rows that `give_all` writes.
pub(crate) fn make_all_room(
    rows: &mut Rows,
    who: &[u8; 32],
    list: &[Asset],
) -> Result<(), AllocError>
    requires { AreSound rows.old }
    ensures sound { AreSound rows.new }
    ensures stay { KeepsRows rows.old rows.new }
    ensures held { rows_held rows.new ≡ rows_held rows.old }
    ensures room { OnOk result (HasAllRoom rows.new who.now list.now) }
{
    for asset in list {
        rows.make_room(who, asset)?;
    }
    Ok(())
}

/// Gives the listed assets to an account that may take them.
pub(crate) fn give_all(rows: &mut Rows, who: &[u8; 32], list: &[Asset])
    requires sound { AreSound rows.old }
    requires listed { IsTrue (list_all (λ a. lists rows.old.assets (listed_of (unit_of a)))
        list.now) }
    requires room { HasAllRoom rows.old who.now list.now }
    requires may { MayTakeAll (rows_held rows.old) who.now list.now }
    requires once { IsTrue (is_rising list.now) }
    ensures sound { AreSound rows.new }
    ensures assets { rows.new.assets ≡ rows.old.assets }
    ensures held { rows_held rows.new
        ≡ plus_all (rows_held rows.old) (account_rows who.now list.now) }
{
    for asset in list {
        rows.give(who, asset);
    }
}

/// A list of at most so many assets is given without making room first.
const SHORT: usize = 16;

/// As `put_all`, of a short list: it calls itself for the assets after the first, and takes the first back where they weren't given.
fn put_short(rows: &mut Rows, who: &[u8; 32], list: &[Asset]) -> Result<(), AllocError>
    requires sound { AreSound rows.old }
    requires listed { IsTrue (list_all (λ a. lists rows.old.assets (listed_of (unit_of a)))
        list.now) }
    requires may { MayTakeAll (rows_held rows.old) who.now list.now }
    requires no_zero { IsFalse (has_zero list.now) }
    requires once { IsTrue (is_rising list.now) }
    ensures sound { AreSound rows.new }
    ensures assets { rows.new.assets ≡ rows.old.assets }
    ensures held { OnOk result (rows_held rows.new
        ≡ plus_all (rows_held rows.old) (account_rows who.now list.now)) }
    ensures kept { OnErr result (rows_held rows.new ≡ rows_held rows.old) }
{
    let Some((first, others)) = list.split_first() else {
        return Ok(());
    };
    rows.put(who, first)?;
    match put_short(rows, who, others) {
        Ok(()) => Ok(()),
        Err(fault) => {
            rows.take(who, first);
            Err(fault)
        }
    }
}

/// Gives the listed assets to an account that may take them, and makes their rows where there are none. An `Err` is
/// out of memory, and then nothing was given.
pub(crate) fn put_all(rows: &mut Rows, who: &[u8; 32], list: &[Asset]) -> Result<(), AllocError>
    requires sound { AreSound rows.old }
    requires listed { IsTrue (list_all (λ a. lists rows.old.assets (listed_of (unit_of a)))
        list.now) }
    requires may { MayTakeAll (rows_held rows.old) who.now list.now }
    requires no_zero { IsFalse (has_zero list.now) }
    requires once { IsTrue (is_rising list.now) }
    ensures sound { AreSound rows.new }
    ensures assets { rows.new.assets ≡ rows.old.assets }
    ensures held { OnOk result (rows_held rows.new
        ≡ plus_all (rows_held rows.old) (account_rows who.now list.now)) }
    ensures kept { OnErr result (rows_held rows.new ≡ rows_held rows.old) }
{
    // For speed: usually there is memory.
    if list.len() <= SHORT {
        return put_short(rows, who, list);
    }
    make_all_room(rows, who, list)?;
    give_all(rows, who, list);
    Ok(())
}

/// The amount that is the whole list; `None` where the list is anything else.
fn only_amount(list: &[Asset]) -> Option<&Asset>
    ensures { IfSome result (λ asset. (list.now ≡ asset.now ∷ [])
        × (instance_in asset.now.fun ≡ None)) }
{
    match list {
        [asset] => match asset.fun {
            Fun::Fungible(_) => Some(asset),
            Fun::NonFungible(_) => None,
        },
        _ => None,
    }
}

/// Whether it is an amount, and no instance.
fn has_no_instance(asset: &Asset) -> bool
    ensures { result ≡ is_none (instance_in asset.now.fun) }
{
    match asset.fun {
        Fun::Fungible(_) => true,
        Fun::NonFungible(_) => false,
    }
}

/// Whether all assets are amounts.
fn are_amounts(list: &[Asset]) -> bool
    ensures { result ≡ list_all (λ a. is_none (instance_in a.fun)) list.now }
{
    list.iter().all(|asset| has_no_instance(asset))
}

/// Moves the listed assets from one account, which has them, to another, which may take them before they are taken. An `Err` is out of
/// memory, and then nothing was moved.
fn move_amounts(
    rows: &mut Rows,
    from: &[u8; 32],
    to: &[u8; 32],
    list: &[Asset],
) -> Result<(), AllocError>
    requires sound { AreSound rows.old }
    requires others { to.now ≡ from.now → ⊥ }
    requires no_zero { IsFalse (has_zero list.now) }
    requires listed { IsTrue (list_all (λ a. lists rows.old.assets (listed_of (unit_of a)))
        list.now) }
    requires has { HasAll (rows_held rows.old) from.now list.now }
    requires may { MayTakeAll (rows_held rows.old) to.now list.now }
    requires once { IsTrue (is_rising list.now) }
    ensures sound { AreSound rows.new }
    ensures assets { rows.new.assets ≡ rows.old.assets }
    ensures held { OnOk result (rows_held rows.new ≡ plus_all
        (minus_all (rows_held rows.old) (account_rows from.now list.now))
        (account_rows to.now list.now)) }
    ensures kept { OnErr result (rows_held rows.new ≡ rows_held rows.old) }
{
    put_all(rows, to, list)?;
    let may_be_empty = take_all(rows, from, list);
    sweep_all(rows, from, list, may_be_empty);
    Ok(())
}

/// Moves the listed assets from one account, which has them, to another, which may take them once they are taken. An `Err` is out of
/// memory, and then nothing was moved.
pub(crate) fn move_all(
    rows: &mut Rows,
    from: &[u8; 32],
    to: &[u8; 32],
    list: &[Asset],
) -> Result<(), AllocError>
    requires sound { AreSound rows.old }
    requires others { to.now ≡ from.now → ⊥ }
    requires no_zero { IsFalse (has_zero list.now) }
    requires listed { IsTrue (list_all (λ a. lists rows.old.assets (listed_of (unit_of a)))
        list.now) }
    requires has { HasAll (rows_held rows.old) from.now list.now }
    requires may { MayTakeAll (minus_all (rows_held rows.old) (account_rows from.now list.now))
        to.now list.now }
    requires once { IsTrue (is_rising list.now) }
    ensures sound { AreSound rows.new }
    ensures assets { rows.new.assets ≡ rows.old.assets }
    ensures held { OnOk result (rows_held rows.new ≡ plus_all
        (minus_all (rows_held rows.old) (account_rows from.now list.now))
        (account_rows to.now list.now)) }
    ensures kept { OnErr result (rows_held rows.new ≡ rows_held rows.old) }
{
    // For speed: amounts can be given before they are taken, and no room has to be made first.
    if let Some(asset) = only_amount(list) {
        return rows.pass(from, to, asset);
    }
    if are_amounts(list) {
        return move_amounts(rows, from, to, list);
    }
    make_all_room(rows, to, list)?;
    let needs_sweep = take_all(rows, from, list);
    give_all(rows, to, list);
    sweep_all(rows, from, list, needs_sweep);
    Ok(())
}
