//! The transactor that knows what is locked.
ghost use Rattle.std.specs.Prelude.{◌≡◌, ◌≤◌};
ghost use Rattle.amounts.specs.Amounts.{amount};
ghost use Rattle.asset_lists.specs.Units.{unit_of, amount_of};
ghost use Rattle.transactors.specs.Floors.{locked_floors};
ghost use Rattle.transactors.specs.Checks.{is_short_of};

use crate::{MoveFault, Transactor};
use asset_lists::{Asset, AssetId, Fun};
use asset_locks::LockBook;
use ledgers::Ledger;
use locations::Location;

/// How much of the asset is locked on the account.
fn locked_floor(locks: &LockBook, who: &[u8; 32], a: &Asset) -> u128
    ensures { result ≡ locked_floors locks.now who.now (unit_of a.now) }
{
    match &a.id {
        AssetId::Concrete(id) => match a.fun {
            Fun::Fungible(_) => locks.floor(who, id),
            Fun::NonFungible(_) => 0,
        },
        AssetId::Abstract(_) => 0,
    }
}

/// Whether the account, which has that much of the asset, would be left with less than is locked.
fn falls_below(locks: &LockBook, ledger: &Ledger, who: &[u8; 32], a: &Asset) -> bool
    requires has { amount_of a.now ≤ amount ledger.now.held (who.now, unit_of a.now) }
    ensures { result ≡ is_short_of (locked_floors locks.now) ledger.now.held who.now a.now }
{
    let floor = locked_floor(locks, who, a);
    // For speed: where nothing is locked, the ledger isn't asked.
    floor > 0 && ledger.held_of(who, a) - a.amount() < floor
}

/// Moves what another transactor moves, and leaves each account what is locked on it: its floor is the higher of both.
#[derive(Clone, Copy)]
pub struct Floored<'a, T> {
    /// Which moves the assets.
    pub inner: T,
    /// The locks on what the chain's accounts hold.
    pub locks: &'a LockBook,
}

impl<'a, T: Transactor> Transactor for Floored<'a, T> {
    ghost use Rattle.transactors.specs.Floors.{higher_floors, locked_floors};

    ghost site = { λ t. T.site t.inner };

    ghost rows = { λ t. T.rows t.inner };

    ghost floors = { λ t. higher_floors (T.floors t.inner) (locked_floors t.locks.now) };

    ghost agrees = { λ t. T.agrees t.inner };

    fn account(&self, who: &Location) -> Option<[u8; 32]> {
        self.inner.account(who)
    }

    fn check_account_in(
        &self,
        ledger: &Ledger,
        a: &Asset,
        account: Option<[u8; 32]>,
    ) -> Result<(), MoveFault> {
        self.inner.check_account_in(ledger, a, account)
    }

    fn check_account_out(
        &self,
        ledger: &Ledger,
        a: &Asset,
        account: Option<[u8; 32]>,
    ) -> Result<(), MoveFault> {
        self.inner.check_account_out(ledger, a, account)?;
        let Some(who) = account else {
            unreachable!();
        };
        if falls_below(self.locks, ledger, &who, a) {
            return Err(MoveFault::Refused);
        }
        Ok(())
    }
}
