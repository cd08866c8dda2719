//! Deposits: 1 to each of so many accounts, which rise by bytes, then so many more to the first of them, with the asset's sum over all accounts
//! asked for after each.

ghost use Rattle.std.specs.Prelude.{◌≡◌, [], ◌∷◌};
ghost use Rattle.asset_lists.specs.declared.units.Kind.{Kind};
ghost use Rattle.asset_lists.specs.declared.units.AssetId.TheVariants.{Concrete};

use asset_bundles::{AssetBundle, Total};
use asset_lists::{Asset, AssetId, Fun, Kind};
use ledgers::Ledger;
use locations::{Junctions, Location};
use std::alloc::{AllocError, Global};

/// The chain's own asset.
fn here() -> Location
    ensures { result ≡ record { parents = 0; interior = [] } }
{
    Location {
        parents: 0,
        interior: Junctions::empty(),
    }
}

/// The account of a number: its eight bytes, the high one first, and zeros. So accounts rise by bytes with their numbers.
fn account(number: u64) -> [u8; 32] {
    let mut who = [0; 32];
    who[..8].copy_from_slice(&number.to_be_bytes());
    who
}

/// Deposits 1, and tells what all accounts have.
fn deposit(ledger: &mut Ledger, alloc: Global, who: &[u8; 32]) -> Result<Total, AllocError>
    requires { ledger.old.listed ≡ (Concrete (record { parents = 0; interior = [] }), Kind.Fungible)
        ∷ [] }
    ensures { ledger.new.listed ≡ ledger.old.listed }
{
    let coin = Asset {
        id: AssetId::Concrete(here()),
        fun: Fun::Fungible(1),
    };
    let goods = AssetBundle::mint(alloc, &[coin])?;
    match ledger.deposit(who, goods) {
        Ok(()) => {}
        Err((goods, _)) => goods.melt(),
    }
    Ok(ledger.total(0))
}

/// Deposits to each of the first accounts.
fn deposit_to_each(ledger: &mut Ledger, alloc: Global, accounts: u64) -> Result<(), AllocError>
    requires { ledger.old.listed ≡ (Concrete (record { parents = 0; interior = [] }), Kind.Fungible)
        ∷ [] }
    ensures { ledger.new.listed ≡ ledger.old.listed }
{
    for number in 0..accounts {
        deposit(ledger, alloc, &account(number))?;
    }
    Ok(())
}

/// Deposits to the first account, and tells after how many of the deposits all accounts have as much as was deposited.
fn deposit_to_first(
    ledger: &mut Ledger,
    alloc: Global,
    accounts: u64,
    deposits: u64,
) -> Result<u64, AllocError>
    requires { ledger.old.listed ≡ (Concrete (record { parents = 0; interior = [] }), Kind.Fungible)
        ∷ [] }
{
    let first = account(0);
    let mut right: u64 = 0;
    for done in 0..deposits {
        let sum = deposit(ledger, alloc, &first)?;
        if sum.high == 0 && sum.low == u128::from(accounts) + u128::from(done) + 1 {
            right = right.saturating_add(1);
        }
    }
    Ok(right)
}

/// All deposits, and after how many of the later ones the sum was right.
pub(crate) fn deposited(alloc: Global, accounts: u64, deposits: u64) -> Result<u64, AllocError> {
    let list = Vec::from_array(alloc, [(here(), Kind::Fungible)])?;
    let mut ledger = Ledger::open(alloc, list)?;
    deposit_to_each(&mut ledger, alloc, accounts)?;
    deposit_to_first(&mut ledger, alloc, accounts, deposits)
}
