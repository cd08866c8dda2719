//! Whole lists that are moved: all of a list, or nothing. The account of each location is looked up once.
ghost use Rattle.std.specs.Prelude.{◌≡◌, None, IsTrue, IfOk, IfErr, OnOk, OnErr};
ghost use Rattle.asset_bundles.specs.Bundles.{bundle_of};
ghost use Rattle.trust_tables.specs.Accounts.{account_of};
ghost use Rattle.transactors.specs.Moves.{are_listed, withdraw_fault, deposit_fault, transfer_fault, after_withdrawal, after_deposit, after_transfer, Moves, MovesIn};

use crate::{MoveFault, Transactor, deposit_fault, transfer_fault, withdraw_fault};
use asset_bundles::AssetBundle;
use asset_lists::Assets;
use ledgers::Ledger;
use locations::Location;
use std::alloc::{AllocError, Global};

/// Takes the listed assets out of the location's account: all of them, or none. The first in order that is refused
/// decides. A location without account gives an empty list.
pub fn withdraw_all<T: Transactor>(
    alloc: Global,
    t: &T,
    ledger: &mut Ledger,
    list: &Assets,
    who: &Location,
) -> Result<AssetBundle, MoveFault>
    requires agrees { T.agrees t.now }
    ensures step { Moves
        (withdraw_fault (T.rows t.now) (T.floors t.now) ledger.old list.now
        (account_of who.now (T.site t.now)))
        (bundle_of list.now)
        (after_withdrawal list.now (account_of who.now (T.site t.now)) ledger.old)
        ledger.old result ledger.new }
{
    let from = t.account(who);
    if let Some(fault) = withdraw_fault(t, ledger, list, from) {
        return Err(fault);
    }
    let goods = withdraw_checked(alloc, t, ledger, list, from)?;
    Ok(goods)
}

/// Takes the listed assets out of the account, where `withdraw_fault` is None: all of them, or none. An `Err` is out
/// of memory.
pub fn withdraw_checked<T: Transactor>(
    alloc: Global,
    t: &T,
    ledger: &mut Ledger,
    list: &Assets,
    from: Option<[u8; 32]>,
) -> Result<AssetBundle, AllocError>
    requires free { withdraw_fault (T.rows t.now) (T.floors t.now) ledger.old list.now from
        ≡ None }
    ensures goods { IfOk result (λ goods. goods ≡ bundle_of list.now) }
    ensures withdrawn { OnOk result
        (ledger.new ≡ after_withdrawal list.now from ledger.old) }
    ensures kept { OnErr result (ledger.new ≡ ledger.old) }
{
    let Some(account) = from else {
        return Ok(AssetBundle::empty(alloc));
    };
    ledger.withdraw_checked(&account, list)
}

/// Puts goods into the location's account: all of them, or none, and then they are handed back. The first in holding
/// order that is refused decides. The ledger lists each row that is handled.
pub fn deposit_all<T: Transactor>(
    t: &T,
    ledger: &mut Ledger,
    goods: AssetBundle,
    who: &Location,
) -> Result<(), (AssetBundle, MoveFault)>
    requires agrees { T.agrees t.now }
    requires listed { IsTrue (are_listed ledger.old.listed (T.rows t.now)) }
    ensures step { MovesIn
        (deposit_fault (T.rows t.now) ledger.old goods (account_of who.now (T.site t.now)))
        goods (after_deposit goods (account_of who.now (T.site t.now)) ledger.old)
        ledger.old result ledger.new }
{
    let to = t.account(who);
    if let Some(fault) = deposit_fault(t, ledger, &goods, to) {
        return Err((goods, fault));
    }
    match deposit_checked(t, ledger, goods, to) {
        Ok(()) => Ok(()),
        Err(goods) => Err((goods, MoveFault::Memory)),
    }
}

/// Puts goods into the account, where `deposit_fault` is None: all of them, or none, and then they are handed back,
/// out of memory. The ledger lists each row that is handled.
pub fn deposit_checked<T: Transactor>(
    t: &T,
    ledger: &mut Ledger,
    goods: AssetBundle,
    to: Option<[u8; 32]>,
) -> Result<(), AssetBundle>
    requires listed { IsTrue (are_listed ledger.old.listed (T.rows t.now)) }
    requires free { deposit_fault (T.rows t.now) ledger.old goods to ≡ None }
    ensures deposited { OnOk result (ledger.new ≡ after_deposit goods to ledger.old) }
    ensures back { IfErr result (λ back. back ≡ goods) }
    ensures kept { OnErr result (ledger.new ≡ ledger.old) }
{
    let Some(account) = to else {
        goods.melt();
        return Ok(());
    };
    // For the prover alone: goods are the bundle of their assets.
    let _items = goods.items();
    ledger.deposit_checked(&account, goods)
}

/// Moves the listed assets from one location's account to another's: all of them, or none. All are looked at for the
/// giver first, and then all for the receiver as it is after the giving.
pub fn transfer_all<T: Transactor>(
    t: &T,
    ledger: &mut Ledger,
    list: &Assets,
    from: &Location,
    to: &Location,
) -> Result<(), MoveFault>
    requires agrees { T.agrees t.now }
    ensures step { Moves
        (transfer_fault (T.rows t.now) (T.floors t.now) ledger.old list.now
        (account_of from.now (T.site t.now)) (account_of to.now (T.site t.now)))
        tt (after_transfer list.now (account_of from.now (T.site t.now))
        (account_of to.now (T.site t.now)) ledger.old)
        ledger.old result ledger.new }
{
    let giver = t.account(from);
    let taker = t.account(to);
    if let Some(fault) = transfer_fault(t, ledger, list, giver, taker) {
        return Err(fault);
    }
    transfer_checked(t, ledger, list, giver, taker)?;
    Ok(())
}

/// Moves the listed assets from one account to another, where `transfer_fault` is None: all of them, or none. An
/// `Err` is out of memory.
pub fn transfer_checked<T: Transactor>(
    t: &T,
    ledger: &mut Ledger,
    list: &Assets,
    from: Option<[u8; 32]>,
    to: Option<[u8; 32]>,
) -> Result<(), AllocError>
    requires free { transfer_fault (T.rows t.now) (T.floors t.now) ledger.old list.now from to
        ≡ None }
    ensures transferred { OnOk result
        (ledger.new ≡ after_transfer list.now from to ledger.old) }
    ensures kept { OnErr result (ledger.new ≡ ledger.old) }
{
    let Some(giver) = from else {
        return Ok(());
    };
    let Some(taker) = to else {
        return Ok(());
    };
    ledger.transfer_checked(&giver, &taker, list)
}
