//! The transactors of fungible assets and of instances, and one after the other.
ghost use Rattle.std.specs.Prelude.{◌≡◌, is_some};
ghost use Rattle.asset_lists.specs.Units.{unit_of};
ghost use Rattle.asset_lists.specs.Listed.{listed_of};
ghost use Rattle.ledgers.specs.Ledgers.{is_barred, number_in};
ghost use Rattle.trust_tables.specs.Trust.{row_of};
ghost use Rattle.transactors.specs.Floors.{no_unit_floors};
ghost use Rattle.transactors.specs.Checks.{accepted, is_unhandled, rows_of_kind, move_fault, is_short_of};

use crate::{MoveFault, Transactor};
use asset_lists::{Asset, Kind};
use ledgers::Ledger;
use locations::Location;
use trust_tables::{AssetRow, Site, account_of, has_row};

/// The asset's number in the ledger; `None` where it isn't listed.
fn number_of(ledger: &Ledger, a: &Asset) -> Option<u32>
    ensures { result ≡ number_in ledger.now.listed (listed_of (unit_of a.now)) }
{
    ledger.number_of(&a.id, a.kind())
}

/// The index at which the row of an asset of this number usually is, since the ledger lists what the rows list; 0 where it isn't listed.
fn likely_place(number: Option<u32>) -> usize {
    match number {
        Some(number) => number as usize,
        None => 0,
    }
}

/// Whether a row of that kind lists the asset. For speed the row of its number in the ledger is looked at first.
#[tactic(auto, using(crate::proofs::Rows::row_of_kind, crate::proofs::Rows::found_row))]
fn handles(kind: Kind, rows: &[AssetRow], number: Option<u32>, a: &Asset) -> bool
    ensures { result ≡ is_some (row_of (rows_of_kind kind rows.now) a.now) }
{
    a.kind() == kind && has_row(rows, likely_place(number), a)
}

/// Whether the account would take in the asset, which is handled or not.
fn checked_in(
    handled: bool,
    number: Option<u32>,
    account: Option<[u8; 32]>,
    ledger: &Ledger,
    a: &Asset,
) -> Result<(), MoveFault>
    requires { number ≡ number_in ledger.now.listed (listed_of (unit_of a.now)) }
    ensures { result ≡ accepted (move_fault handled account
        (λ who. is_barred ledger.now.held who a.now)) }
{
    if !handled {
        return Err(MoveFault::NotHandled);
    }
    let Some(who) = account else {
        return Err(MoveFault::NoAccount);
    };
    if ledger.is_barred_at(number, &who, a) {
        return Err(MoveFault::Refused);
    }
    Ok(())
}

/// Whether the account would give the asset, which is handled or not. There are no floors.
fn checked_out(
    handled: bool,
    number: Option<u32>,
    account: Option<[u8; 32]>,
    ledger: &Ledger,
    a: &Asset,
) -> Result<(), MoveFault>
    requires { number ≡ number_in ledger.now.listed (listed_of (unit_of a.now)) }
    ensures { result ≡ accepted (move_fault handled account
        (λ who. is_short_of no_unit_floors ledger.now.held who a.now)) }
{
    if !handled {
        return Err(MoveFault::NotHandled);
    }
    let Some(who) = account else {
        return Err(MoveFault::NoAccount);
    };
    if ledger.held_at(number, &who, a) < a.amount() {
        return Err(MoveFault::Refused);
    }
    Ok(())
}

/// Moves fungible assets: those of the rows of kind `Fungible`. It has no floors.
#[derive(Clone, Copy)]
pub struct Fungibles<'a> {
    /// The chain's rows.
    pub rows: &'a [AssetRow],
    /// Where the chain is.
    pub site: &'a Site,
}

impl<'a> Transactor for Fungibles<'a> {
    ghost use Rattle.std.specs.Prelude.{⊤};
    ghost use Rattle.asset_lists.specs.declared.units.Kind.{Kind};
    ghost use Rattle.transactors.specs.Floors.{no_unit_floors};
    ghost use Rattle.transactors.specs.Checks.{rows_of_kind};

    ghost site = { λ t. t.site.now };

    ghost rows = { λ t. rows_of_kind Kind.Fungible t.rows.now };

    ghost floors = { λ _. no_unit_floors };

    ghost agrees = { λ _. ⊤ };

    fn account(&self, who: &Location) -> Option<[u8; 32]> {
        account_of(who, self.site)
    }

    fn check_account_in(
        &self,
        ledger: &Ledger,
        a: &Asset,
        account: Option<[u8; 32]>,
    ) -> Result<(), MoveFault> {
        let number = number_of(ledger, a);
        let handled = handles(Kind::Fungible, self.rows, number, a);
        checked_in(handled, number, account, ledger, a)
    }

    fn check_account_out(
        &self,
        ledger: &Ledger,
        a: &Asset,
        account: Option<[u8; 32]>,
    ) -> Result<(), MoveFault> {
        let number = number_of(ledger, a);
        let handled = handles(Kind::Fungible, self.rows, number, a);
        checked_out(handled, number, account, ledger, a)
    }
}

/// Moves instances: those of the rows of kind `Class`. It has no floors.
#[derive(Clone, Copy)]
pub struct Instances<'a> {
    /// The chain's rows.
    pub rows: &'a [AssetRow],
    /// Where the chain is.
    pub site: &'a Site,
}

impl<'a> Transactor for Instances<'a> {
    ghost use Rattle.std.specs.Prelude.{⊤};
    ghost use Rattle.asset_lists.specs.declared.units.Kind.{Kind};
    ghost use Rattle.transactors.specs.Floors.{no_unit_floors};
    ghost use Rattle.transactors.specs.Checks.{rows_of_kind};

    ghost site = { λ t. t.site.now };

    ghost rows = { λ t. rows_of_kind Kind.Class t.rows.now };

    ghost floors = { λ _. no_unit_floors };

    ghost agrees = { λ _. ⊤ };

    fn account(&self, who: &Location) -> Option<[u8; 32]> {
        account_of(who, self.site)
    }

    fn check_account_in(
        &self,
        ledger: &Ledger,
        a: &Asset,
        account: Option<[u8; 32]>,
    ) -> Result<(), MoveFault> {
        let number = number_of(ledger, a);
        let handled = handles(Kind::Class, self.rows, number, a);
        checked_in(handled, number, account, ledger, a)
    }

    fn check_account_out(
        &self,
        ledger: &Ledger,
        a: &Asset,
        account: Option<[u8; 32]>,
    ) -> Result<(), MoveFault> {
        let number = number_of(ledger, a);
        let handled = handles(Kind::Class, self.rows, number, a);
        checked_out(handled, number, account, ledger, a)
    }
}

/// Whether the asset isn't handled.
fn is_unhandled(answer: &Result<(), MoveFault>) -> bool
    ensures { result ≡ is_unhandled answer.now }
{
    match answer {
        Err(MoveFault::NotHandled) => true,
        Err(MoveFault::NoAccount | MoveFault::Refused | MoveFault::Memory) | Ok(()) => false,
    }
}

/// Moves what the first handles, and else what the second does. Both are of one chain, and have the
/// same floors.
#[derive(Clone, Copy)]
pub struct FirstThat<A, B> {
    /// Which is asked first.
    pub first: A,
    /// Which is asked where the first doesn't handle the asset.
    pub second: B,
}

impl<A: Transactor, B: Transactor> Transactor for FirstThat<A, B> {
    ghost use Rattle.std.specs.Prelude.{◌≡◌, ◌++◌};

    ghost site = { λ t. A.site t.first };

    ghost rows = { λ t. A.rows t.first ++ B.rows t.second };

    ghost floors = { λ t. A.floors t.first };

    ghost agrees = { λ t. A.agrees t.first × B.agrees t.second
        × (A.site t.first ≡ B.site t.second) × (A.floors t.first ≡ B.floors t.second) };

    fn account(&self, who: &Location) -> Option<[u8; 32]> {
        self.first.account(who)
    }

    fn check_account_in(
        &self,
        ledger: &Ledger,
        a: &Asset,
        account: Option<[u8; 32]>,
    ) -> Result<(), MoveFault> {
        let answer = self.first.check_account_in(ledger, a, account);
        if is_unhandled(&answer) {
            return self.second.check_account_in(ledger, a, account);
        }
        answer
    }

    fn check_account_out(
        &self,
        ledger: &Ledger,
        a: &Asset,
        account: Option<[u8; 32]>,
    ) -> Result<(), MoveFault> {
        let answer = self.first.check_account_out(ledger, a, account);
        if is_unhandled(&answer) {
            return self.second.check_account_out(ledger, a, account);
        }
        answer
    }
}
