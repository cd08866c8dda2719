//! Exchanges with the pools of a chain, over what accounts have.
ghost use Rattle.std.specs.Prelude.{◌≡◌, ◌<◌, [], ◌∷◌, true, IsFalse, IfOk};
ghost use Rattle.std.specs.List.{list_all};
ghost use Rattle.asset_lists.specs.Units.{unit_of, is_zero};
ghost use Rattle.asset_lists.specs.Listed.{listed_of, lists};
ghost use Rattle.test_assets.specs.Coins.{ancestor_location, fixture_coins};

use asset_bundles::AssetBundle;
use asset_lists::{Asset, AssetId, Fun, Instance, Kind};
use asset_pools::{
    Deal, Pool, exchange, exchange_of, is_pool_account, law_of_exchanges, law_of_pool_accounts,
    law_of_spending, pool_account,
};
use ledgers::Ledger;
use locations::{Junctions, Location};
use std::alloc::{AllocError, Global};
use std::test::Fail;

const MILLION: u128 = 1_000_000;

/// The location so many levels above the chain.
fn above(parents: u8) -> Location
    ensures { result ≡ ancestor_location parents }
{
    Location {
        parents,
        interior: Junctions::empty(),
    }
}

/// So much of the asset of the chain itself, or of that of the chain above it.
fn coins(of_chain: bool, amount: u128) -> Asset
    requires some { 0 < amount }
    ensures some { IsFalse (is_zero result) }
    ensures listed { list_all (λ a. lists fixture_coins (listed_of (unit_of a))) (result ∷ []) ≡
        true }
{
    if of_chain {
        return Asset {
            id: AssetId::Concrete(above(0)),
            fun: Fun::Fungible(amount),
        };
    }
    Asset {
        id: AssetId::Concrete(above(1)),
        fun: Fun::Fungible(amount),
    }
}

/// A ledger of the two assets.
fn opened(alloc: Global) -> Result<Ledger, AllocError>
    ensures { IfOk result (λ ledger. ledger.listed ≡ fixture_coins) }
{
    let list = Vec::from_array(
        alloc,
        [(above(0), Kind::Fungible), (above(1), Kind::Fungible)],
    )?;
    Ledger::open(alloc, list)
}

/// Deposits so much of one of the two.
fn put(
    ledger: &mut Ledger,
    alloc: Global,
    who: &[u8; 32],
    of_chain: bool,
    amount: u128,
) -> Result<(), AllocError>
    requires listed { ledger.old.listed ≡ fixture_coins }
    requires some { 0 < amount }
    ensures { ledger.new.listed ≡ ledger.old.listed }
{
    let goods = AssetBundle::mint(alloc, &[coins(of_chain, amount)])?;
    if let Err((goods, _)) = ledger.deposit(who, goods) {
        goods.melt();
    }
    Ok(())
}

/// A ledger in which the account of the first pool has a million of each.
fn stocked(alloc: Global) -> Result<Ledger, AllocError> {
    let account = pool_account(0);
    let mut ledger = opened(alloc)?;
    put(&mut ledger, alloc, &account, true, MILLION)?;
    put(&mut ledger, alloc, &account, false, MILLION)?;
    Ok(ledger)
}

/// A pool of the two, with a fee of 3 thousandths.
fn pool() -> Pool {
    Pool {
        first: above(0),
        second: above(1),
        fee: 3,
    }
}

/// Makes the exchange that the pools make, and says what it moves; none where they make none.
fn exchanged(ledger: &mut Ledger, give: &[Asset], want: &[Asset], maximal: bool) -> Option<Deal> {
    let exchange = exchange_of(&[pool()], ledger, give, want, maximal)?;
    let account = pool_account(exchange.place);
    let deal = exchange.deal;
    // For the prover alone: that an exchange which is made can be made.
    let has = ledger.amount(&account, &exchange.wanted);
    let more = ledger.amount(&account, &exchange.given);
    if deal.to_holding == 0 || has < deal.to_holding || more == 0 {
        return None;
    }
    if u128::MAX - more < deal.to_pool {
        return None;
    }
    ledger.exchange(
        &account,
        &exchange.wanted,
        deal.to_holding,
        &exchange.given,
        deal.to_pool,
    );
    Some(deal)
}

/// What is given, what is wanted, whether it is to be the most, what goes to the pool and to the holding, and what the pool's account then
/// has of the given and of the wanted asset.
const EXCHANGES: &[(u128, u128, bool, Option<(u128, u128)>, (u128, u128))] = &[
    (
        10_000,
        9_000,
        true,
        Some((10_000, 9_871)),
        (1_010_000, 990_129),
    ),
    (
        10_000,
        9_000,
        false,
        Some((9_110, 9_000)),
        (1_009_110, 991_000),
    ),
    (10_000, 9_872, true, None, (MILLION, MILLION)),
    (9_109, 9_000, false, None, (MILLION, MILLION)),
    (10_000, MILLION, false, None, (MILLION, MILLION)),
];

/// What an exchange moves, and what the pool's account then has of the given and of the wanted asset.
fn left(
    alloc: Global,
    of_chain: bool,
    has: u128,
    wants: u128,
    maximal: bool,
) -> Result<(Option<(u128, u128)>, (u128, u128)), AllocError>
    requires some { 0 < has }
    requires wanted { 0 < wants }
{
    let mut ledger = stocked(alloc)?;
    let give = coins(of_chain, has);
    let want = coins(!of_chain, wants);
    let given = give.id.copy();
    let wanted = want.id.copy();
    let deal = exchanged(&mut ledger, &[give], &[want], maximal);
    let account = pool_account(0);
    let reserves = (
        ledger.amount(&account, &given),
        ledger.amount(&account, &wanted),
    );
    Ok((deal.map(|it| (it.to_pool, it.to_holding)), reserves))
}

#[test]
fn exchanges_over_a_ledger(rt: HostRuntime) -> Result<(), Fail> {
    for (has, wants, maximal, deal, reserves) in EXCHANGES {
        assert!(rt; *has > 0 && *wants > 0);
        for of_chain in [true, false] {
            let found = left(rt.alloc(), of_chain, *has, *wants, *maximal)?;
            assert!(rt; found == (*deal, *reserves));
        }
    }
    law_of_exchanges();
    law_of_spending();
    Ok(())
}

/// What goods come to by the exchange that is made of them, in the given and in the wanted asset.
fn made(
    alloc: Global,
    has: u128,
    wants: u128,
    maximal: bool,
) -> Result<Option<(u128, u128)>, AllocError>
    requires some { 0 < has }
    requires wanted { 0 < wants }
{
    let mut ledger = stocked(alloc)?;
    let goods = AssetBundle::mint(alloc, &[coins(true, has)])?;
    let want = coins(false, wants);
    match exchange(alloc, &[pool()], &mut ledger, goods, &[want], maximal) {
        Ok(got) => {
            let given = got.amount(&AssetId::Concrete(above(0)));
            let wanted = got.amount(&AssetId::Concrete(above(1)));
            got.melt();
            Ok(Some((given, wanted)))
        }
        Err((goods, _)) => {
            goods.melt();
            Ok(None)
        }
    }
}

#[test]
fn exchanges_of_goods(rt: HostRuntime) -> Result<(), Fail> {
    for (has, wants, maximal, deal, _) in EXCHANGES {
        assert!(rt; *has > 0 && *wants > 0);
        let found = made(rt.alloc(), *has, *wants, *maximal)?;
        let due = deal.map(|(to_pool, to_holding)| (has.saturating_sub(to_pool), to_holding));
        assert!(rt; found == due);
    }
    Ok(())
}

#[test]
fn no_exchange(rt: HostRuntime) -> Result<(), Fail> {
    let mut ledger = stocked(rt.alloc())?;
    let piece = Asset {
        id: AssetId::Concrete(above(0)),
        fun: Fun::NonFungible(Instance::Index(1)),
    };
    let third = Asset {
        id: AssetId::Concrete(above(2)),
        fun: Fun::Fungible(5),
    };
    assert!(rt; exchanged(&mut ledger, &[], &[coins(false, 5)], true).is_none());
    assert!(rt; exchanged(&mut ledger, &[piece], &[coins(false, 5)], true).is_none());
    assert!(rt; exchanged(&mut ledger, &[coins(true, 9)], &[third], true).is_none());
    assert!(rt; exchanged(&mut ledger, &[coins(true, 9)], &[coins(true, 5)], true).is_none());
    let both = [coins(true, 5), coins(false, 5)];
    assert!(rt; exchanged(&mut ledger, &[coins(true, 9)], &both, true).is_none());
    Ok(())
}

#[test]
fn pools(rt: HostRuntime) -> Result<(), Fail> {
    let ours = AssetId::Concrete(above(0));
    let theirs = AssetId::Concrete(above(1));
    assert!(rt; pool().has_pair(&ours, &theirs) && pool().has_pair(&theirs, &ours));
    assert!(rt; !pool().has_pair(&ours, &ours));
    assert!(rt; !pool().has_pair(&ours, &AssetId::Concrete(above(2))));
    let account = pool_account(0x0102_0304);
    assert!(rt;
        account == *b"pool\x04\x03\x02\x01\0\0\0\0\0\0\0\0\0\0\0\0\0\0\0\0\0\0\0\0\0\0\0\0"
    );
    assert!(rt; is_pool_account(&[pool()], &pool_account(0)));
    assert!(rt; !is_pool_account(&[pool()], &pool_account(1)));
    law_of_pool_accounts();
    Ok(())
}
