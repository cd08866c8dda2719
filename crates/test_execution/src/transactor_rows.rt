//! Moves by location: fungible assets and then instances, each refusal, and each call on its happy path.
ghost use Rattle.std.specs.Prelude.{◌≡◌, ◌<◌, IsFalse, IfOk};
ghost use Rattle.asset_lists.specs.Units.{is_zero};
ghost use Rattle.test_execution.specs.Rows.{own_location, fixture_listing, AreHandled};

use asset_bundles::AssetBundle;
use asset_lists::{Asset, AssetId, Assets, Fun, Instance, Kind};
use ledgers::Ledger;
use locations::{Junction, Junctions, Location, NetworkId};
use plain_lists::Listed;
use std::alloc::{AllocError, Global};
use std::test::Fail;
use transactors::{
    FirstThat, Fungibles, Instances, MoveFault, Transactor, deposit_all, transfer_all, withdraw_all,
};
use trust_tables::{AssetRole, AssetRow, ChainId, Site};

const A1: [u8; 32] = [1; 32];

const A2: [u8; 32] = [2; 32];

const RELAY: Site = Site {
    network: NetworkId::Polkadot,
    chain: ChainId::Relay,
};

fn here() -> Location
    ensures { result ≡ own_location }
{
    Location {
        parents: 0,
        interior: Junctions::empty(),
    }
}

/// The location of a junction.
fn at(junction: Junction) -> Location {
    let mut interior = Junctions::empty();
    match interior.push(junction) {
        Ok(()) => Location {
            parents: 0,
            interior,
        },
        Err(_) => unreachable!(),
    }
}

/// The account's location.
fn of(account: [u8; 32]) -> Location {
    at(Junction::AccountId32 {
        network: None,
        id: account,
    })
}

/// So much of the fungible asset.
fn coins(amount: u128) -> Asset
    requires { 0 < amount }
    ensures some { IsFalse (is_zero result) }
{
    Asset {
        id: AssetId::Concrete(here()),
        fun: Fun::Fungible(amount),
    }
}

/// The instance of that number, of the class at that location.
fn instance(place: Location, number: u128) -> Asset
    ensures some { IsFalse (is_zero result) }
{
    Asset {
        id: AssetId::Concrete(place),
        fun: Fun::NonFungible(Instance::Index(number)),
    }
}

/// A native asset of the chain.
fn row(alloc: Global, kind: Kind) -> AssetRow
    ensures id { result.id ≡ own_location }
    ensures kind { result.kind ≡ kind }
{
    AssetRow {
        id: here(),
        kind,
        role: AssetRole::Native {
            partners: Listed::from_vec(Vec::new(alloc)),
            checking: None,
        },
    }
}

/// The rows of the fungible asset and of the class.
fn rows(alloc: Global) -> Result<Vec<AssetRow>, AllocError>
    ensures handled { IfOk result (λ rows. AreHandled rows.items) }
{
    let mut rows = Vec::with_capacity(alloc, 2)?;
    rows.push(row(alloc, Kind::Fungible))?;
    rows.push(row(alloc, Kind::Class))?;
    Ok(rows)
}

/// A ledger of both.
fn opened(alloc: Global) -> Result<Ledger, AllocError>
    ensures { IfOk result (λ ledger. ledger.listed ≡ fixture_listing) }
{
    let list = Vec::from_array(alloc, [(here(), Kind::Fungible), (here(), Kind::Class)])?;
    Ledger::open(alloc, list)
}

/// Makes an asset and puts it into the location's account: why it is refused.
fn deposited(
    alloc: Global,
    rows: &[AssetRow],
    ledger: &mut Ledger,
    asset: Asset,
    who: &Location,
) -> Result<Option<MoveFault>, AllocError>
    requires handled { AreHandled rows.now }
    requires listed { ledger.old.listed ≡ fixture_listing }
    requires some { IsFalse (is_zero asset) }
    ensures listed { ledger.new.listed ≡ fixture_listing }
{
    let t = FirstThat {
        first: Fungibles { rows, site: &RELAY },
        second: Instances { rows, site: &RELAY },
    };
    let goods = AssetBundle::mint(alloc, &[asset])?;
    match deposit_all(&t, ledger, goods, who) {
        Ok(()) => Ok(None),
        Err((goods, fault)) => {
            goods.melt();
            Ok(Some(fault))
        }
    }
}

/// Takes assets out of the location's account: why it is refused.
fn withdrawn(
    alloc: Global,
    rows: &[AssetRow],
    ledger: &mut Ledger,
    list: &Assets,
    who: &Location,
) -> Option<MoveFault> {
    let t = FirstThat {
        first: Fungibles { rows, site: &RELAY },
        second: Instances { rows, site: &RELAY },
    };
    match withdraw_all(alloc, &t, ledger, list, who) {
        Ok(goods) => {
            goods.melt();
            None
        }
        Err(fault) => Some(fault),
    }
}

/// Deposits are refused in order.
fn deposits(alloc: Global, rows: &[AssetRow], ledger: &mut Ledger) -> bool
    requires handled { AreHandled rows.now }
    requires listed { ledger.old.listed ≡ fixture_listing }
{
    let elsewhere = at(Junction::GeneralIndex(7));
    let nobody = at(Junction::OnlyChild);
    let not_handled = Ok(Some(MoveFault::NotHandled));
    let no_account = Ok(Some(MoveFault::NoAccount));
    let refused = Ok(Some(MoveFault::Refused));
    let so = [
        deposited(alloc, rows, ledger, instance(elsewhere, 1), &of(A1)) == not_handled,
        deposited(alloc, rows, ledger, instance(here(), 1), &nobody) == no_account,
        deposited(alloc, rows, ledger, instance(here(), 1), &of(A1)) == Ok(None),
        deposited(alloc, rows, ledger, instance(here(), 1), &of(A2)) == refused,
        ledger.owner(&AssetId::Concrete(here()), &Instance::Index(1)) == Some(A1),
    ];
    so == [true; 5]
}

/// Assets move by location.
fn moves(alloc: Global, rows: &[AssetRow], ledger: &mut Ledger, three: &Assets) -> bool
    requires handled { AreHandled rows.now }
    requires listed { ledger.old.listed ≡ fixture_listing }
{
    let t = FirstThat {
        first: Fungibles { rows, site: &RELAY },
        second: Instances { rows, site: &RELAY },
    };
    let id = AssetId::Concrete(here());
    let so = [
        deposited(alloc, rows, ledger, coins(5), &of(A1)) == Ok(None),
        t.account(&of(A1)) == Some(A1),
        t.check_out(ledger, &coins(5), &of(A1)) == Ok(()),
        t.check_out(ledger, &coins(6), &of(A1)) == Err(MoveFault::Refused),
        t.check_in(ledger, &coins(6), &of(A2)) == Ok(()),
        t.check_account_out(ledger, &coins(6), Some(A1)) == Err(MoveFault::Refused),
        t.check_account_in(ledger, &coins(6), Some(A2)) == Ok(()),
        transfer_all(&t, ledger, three, &of(A1), &of(A2)) == Ok(()),
        transfer_all(&t, ledger, three, &of(A1), &of(A2)) == Err(MoveFault::Refused),
        withdrawn(alloc, rows, ledger, three, &of(A2)).is_none(),
        ledger.amount(&A1, &id) == 2,
        ledger.amount(&A2, &id) == 0,
    ];
    so == [true; 12]
}

/// Whether the moves, or else the deposits, go as they should on a new ledger, which ends here.
fn is_right(alloc: Global, moving: bool) -> Result<bool, AllocError> {
    let rows = rows(alloc)?;
    let three = Assets::one(alloc, coins(3))?;
    let mut ledger = opened(alloc)?;
    Ok(if moving {
        moves(alloc, rows.as_slice(), &mut ledger, &three)
    } else {
        deposits(alloc, rows.as_slice(), &mut ledger)
    })
}

#[test]
fn transactors_answer_as_worked_out(rt: HostRuntime) -> Result<(), Fail> {
    assert!(rt; is_right(rt.alloc(), false)?);
    assert!(rt; is_right(rt.alloc(), true)?);
    Ok(())
}
