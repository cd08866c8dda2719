//! Which exchange a chain's pools make.
ghost use Rattle.std.specs.Prelude.{◌≡◌, ◌<◌, ◌^◌, length, position};
ghost use Rattle.std.specs.Option.{option_map};
ghost use Rattle.asset_pools.specs.Exchanges.{has_pair, one_fungible, exchange_of, exchange_of_pair, exchange_with};

use crate::{Deal, Pool, deal_at, pool_account};
use asset_lists::{Asset, AssetId, Fun};
use ledgers::Ledger;

/// What an exchange moves: the pool's index in its chain's list, the two assets, and how much of each.
#[derive(Debug, Drop)]
pub struct Exchange {
    /// The pool's index in its chain's list.
    pub place: u32,
    /// The asset that goes to the pool.
    pub given: AssetId,
    /// The asset that comes from the pool.
    pub wanted: AssetId,
    /// How much of each.
    pub deal: Deal,
}

/// The one fungible asset of a list, with its amount.
fn one_fungible(list: &[Asset]) -> Option<(&AssetId, u128)>
    ensures { option_map (λ some. (some.0.now, some.1)) result ≡ one_fungible list.now }
{
    let [asset] = list else {
        return None;
    };
    match asset.fun {
        Fun::Fungible(amount) => Some((&asset.id, amount)),
        Fun::NonFungible(_) => None,
    }
}

/// The exchange with the pool at an index, whose reserves are what its account has.
fn exchange_with(
    ledger: &Ledger,
    give: (&AssetId, u128),
    want: (&AssetId, u128),
    maximal: bool,
    place: u32,
    pool: &Pool,
) -> Option<Exchange>
    ensures { result ≡ exchange_with ledger.now.held (give.entry.0.now, give.entry.1)
        (want.entry.0.now, want.entry.1) maximal place pool.now }
{
    let fee = pool.fee;
    if fee >= 1000 {
        return None;
    }
    let account = pool_account(place);
    let x = ledger.amount(&account, give.0);
    let y = ledger.amount(&account, want.0);
    let deal = deal_at(x, y, 1000 - fee, give.1, want.1, maximal)?;
    Some(Exchange {
        place,
        given: give.0.copy(),
        wanted: want.0.copy(),
        deal,
    })
}

/// The index of the first pool that has the two assets.
fn place_of_pair(pools: &[Pool], a: &AssetId, b: &AssetId) -> Option<usize>
    ensures { result ≡ position (has_pair a.now b.now) pools.now }
{
    pools.iter().position(|pool| pool.has_pair(a, b))
}

/// The exchange with the pool that has the two assets.
fn exchange_of_pair(
    pools: &[Pool],
    ledger: &Ledger,
    give: (&AssetId, u128),
    want: (&AssetId, u128),
    maximal: bool,
) -> Option<Exchange>
    requires few { length pools.now < 2 ^ 32 }
    ensures { result ≡ exchange_of_pair pools.now ledger.now.held
        (give.entry.0.now, give.entry.1) (want.entry.0.now, want.entry.1) maximal }
{
    let place = place_of_pair(pools, give.0, want.0)?;
    let pool = pools.get(place)?;
    exchange_with(ledger, give, want, maximal, place as u32, pool)
}

/// The exchange of the one fungible asset that is offered for the one that is wanted; none where another list is offered or wanted, no pool
/// has the two, or there is no deal. No memory is taken.
#[tactic(auto, unfolding(crate::specs::Exchanges::exchange_of))]
pub fn exchange_of(
    pools: &[Pool],
    ledger: &Ledger,
    give: &[Asset],
    want: &[Asset],
    maximal: bool,
) -> Option<Exchange>
    requires few { length pools.now < 2 ^ 32 }
    ensures { result ≡ exchange_of pools.now ledger.now.held give.now want.now maximal }
{
    let give = one_fungible(give)?;
    let want = one_fungible(want)?;
    exchange_of_pair(pools, ledger, give, want, maximal)
}
