//! Exchanges that are made.
ghost use Rattle.std.specs.Prelude.{◌≡◌, ◌<◌, ◌^◌, length, MatchResult};
ghost use Rattle.asset_pools.specs.Exchanges.{goods_after};
ghost use Rattle.asset_pools.specs.Making.{IsOffer, MakesExchange};

use crate::{Exchange, ExchangeFault, Pool, exchange_of, pool_account};
use asset_bundles::AssetBundle;
use asset_lists::{Asset, Fun};
use ledgers::Ledger;
use std::alloc::Global;

/// The goods with so much less of the given asset, and so much more of the wanted one. An `Err` is out of memory: it hands the goods back.
fn exchanged(
    alloc: Global,
    mut give: AssetBundle,
    exchange: &Exchange,
) -> Result<AssetBundle, AssetBundle>
    requires offer { IsOffer give exchange.now }
    ensures { MatchResult result (λ got. got ≡ goods_after exchange.now give)
        (λ back. back ≡ give) }
{
    let given = Asset {
        id: exchange.given.copy(),
        fun: Fun::Fungible(exchange.deal.to_pool),
    };
    let wanted = Asset {
        id: exchange.wanted.copy(),
        fun: Fun::Fungible(exchange.deal.to_holding),
    };
    // For the prover alone: it is an amount of 128 bits.
    let _have = give.amount(&exchange.given);
    let Ok(got) = AssetBundle::mint(alloc, &[wanted]) else {
        return Err(give);
    };
    if let Err(got) = give.put_back(got) {
        got.melt();
        return Err(give);
    }
    give.spend(&given);
    Ok(give)
}

/// Makes the exchange that the pools make of the goods for what is wanted, and hands back all that comes of them; the pool's account takes
/// in what is given. Where the pools make none, or memory is refused, the goods come back, and no account has changed. There are fewer
/// than 2^32 pools; amounts are in each asset's smallest unit.
pub fn exchange(
    alloc: Global,
    pools: &[Pool],
    ledger: &mut Ledger,
    give: AssetBundle,
    want: &[Asset],
    maximal: bool,
) -> Result<AssetBundle, (AssetBundle, ExchangeFault)>
    requires few { length pools.now < 2 ^ 32 }
    ensures { MakesExchange pools.now ledger.old give want.now maximal result ledger.new }
{
    let Some(exchange) = exchange_of(pools, ledger, give.items(), want, maximal) else {
        return Err((give, ExchangeFault::NoDeal));
    };
    match exchanged(alloc, give, &exchange) {
        Ok(got) => {
            ledger.exchange(
                &pool_account(exchange.place),
                &exchange.wanted,
                exchange.deal.to_holding,
                &exchange.given,
                exchange.deal.to_pool,
            );
            Ok(got)
        }
        Err(give) => Err((give, ExchangeFault::Memory)),
    }
}
