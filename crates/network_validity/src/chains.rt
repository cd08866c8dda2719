//! Whether the values of chains and channels are in their ranges.
ghost use Rattle.std.specs.Prelude.{◌≡◌, nat_lt};
ghost use Rattle.std.specs.List.{list_all};
ghost use Rattle.std.specs.Str.{is_utf8};
ghost use Rattle.document_entries.specs.Entries.{rate_limit, amount_limit};
ghost use Rattle.network_config.specs.Valid as valid;
ghost use Rattle.network_config.specs.Valid.{fits_rate, fits_role, fits_fun, fits_asset, fits_pallet, fits_pool, fits_lists, fits_rules, fits_entries, fits_chain, fits_fee, fits_channel};

use asset_lists::{Asset, AssetId, Fun, Kind};
use asset_pools::Pool;
use network_spec::{Balance, ChainSpec, ChannelSpec};
use operands::PalletInfo;
use std::str;
use trust_tables::{AssetRole, AssetRow};
use weight_trader::Rate;

/// Whether a number of a rate is below its limit.
#[tactic(auto, unfolding(document_entries::specs::Entries::rate_limit))]
fn is_price(number: u64) -> bool
    ensures { result ≡ nat_lt number rate_limit }
{
    number < 1_152_921_504_606_846_976
}

/// Whether an amount is below its limit.
#[tactic(auto, unfolding(document_entries::specs::Entries::amount_limit))]
fn is_amount(amount: u128) -> bool
    ensures { result ≡ nat_lt amount amount_limit }
{
    amount < 170_141_183_460_469_231_731_687_303_715_884_105_728
}

fn fits_rate(rate: &Rate) -> bool
    ensures { result ≡ fits_rate rate.now }
{
    is_price(rate.per_second) && is_price(rate.per_mb)
}

fn fit_rates(rates: &[Rate]) -> bool
    ensures { result ≡ list_all fits_rate rates.now }
{
    rates.iter().all(fits_rate)
}

fn fits_role(kind: Kind, role: &AssetRole) -> bool
    ensures { result ≡ fits_role kind role.now }
{
    match role {
        AssetRole::Derivative { .. } => true,
        AssetRole::Native { checking, .. } => match checking {
            None => true,
            Some(checking) => match kind {
                Kind::Fungible => is_amount(*checking),
                Kind::Class => false,
            },
        },
    }
}

fn fit_rows(rows: &[AssetRow]) -> bool
    ensures { result ≡ list_all (λ row. fits_role row.kind row.role) rows.now }
{
    rows.iter().all(|row| fits_role(row.kind, &row.role))
}

fn fits_fun(fun: &Fun) -> bool
    ensures { result ≡ fits_fun fun.now }
{
    match fun {
        Fun::Fungible(amount) => *amount > 0 && is_amount(*amount),
        Fun::NonFungible(_) => true,
    }
}

fn has_place(id: &AssetId) -> bool
    ensures { result ≡ valid.has_place id.now }
{
    matches!(id, AssetId::Concrete(_))
}

fn fits_asset(asset: &Asset) -> bool
    ensures { result ≡ fits_asset asset.now }
{
    has_place(&asset.id) && fits_fun(&asset.fun)
}

fn fit_accounts(accounts: &[Balance]) -> bool
    ensures { result ≡ list_all (λ balance. fits_asset balance.asset) accounts.now }
{
    accounts.iter().all(|balance| fits_asset(&balance.asset))
}

fn is_text(bytes: &[u8]) -> bool
    ensures { result ≡ is_utf8 bytes.now }
{
    match str::from_utf8(bytes) {
        Ok(_) => true,
        Err(_) => false,
    }
}

fn fits_pallet(pallet: &PalletInfo) -> bool
    ensures { result ≡ fits_pallet pallet.now }
{
    is_text(pallet.name.items()) && is_text(pallet.module_name.items())
}

fn fit_pallets(pallets: &[PalletInfo]) -> bool
    ensures { result ≡ list_all fits_pallet pallets.now }
{
    pallets.iter().all(fits_pallet)
}

fn fits_lists(c: &ChainSpec) -> bool
    ensures { result ≡ fits_lists c.now }
{
    c.assets.items().len() <= 128 && c.pallets.items().len() <= 64 && c.pools.items().len() <= 16
}

fn is_within(low: u32, high: u32, number: u32) -> bool
    ensures { result ≡ valid.is_between low high number }
{
    low <= number && number <= high
}

fn fits_pool(pool: &Pool) -> bool
    ensures { result ≡ fits_pool pool.now }
{
    is_within(0, 999, pool.fee)
}

fn fit_pools(pools: &[Pool]) -> bool
    ensures { result ≡ list_all fits_pool pools.now }
{
    pools.iter().all(fits_pool)
}

fn fits_rules(c: &ChainSpec) -> bool
    ensures { result ≡ fits_rules c.now }
{
    is_within(1, 100, c.rules.max_instructions) && is_within(20, 64, c.max_holding)
}

fn fits_entries(c: &ChainSpec) -> bool
    ensures { result ≡ fits_entries c.now }
{
    fit_rates(c.rates.items())
        && fit_rows(c.assets.items())
        && fit_accounts(c.accounts.items())
        && fit_pallets(c.pallets.items())
        && fit_pools(c.pools.items())
}

fn fits_chain(c: &ChainSpec) -> bool
    ensures { result ≡ fits_chain c.now }
{
    fits_rules(c) && fits_lists(c) && fits_entries(c)
}

/// Whether the values of each chain are in their ranges.
pub(crate) fn fit_chains(chains: &[ChainSpec]) -> bool
    ensures { result ≡ list_all fits_chain chains.now }
{
    chains.iter().all(fits_chain)
}

fn fits_fee(fee: &Option<Asset>) -> bool
    ensures { result ≡ fits_fee fee.now }
{
    match fee {
        None => true,
        Some(fee) => fits_asset(fee) && matches!(fee.fun, Fun::Fungible(_)),
    }
}

fn fits_channel(c: &ChannelSpec) -> bool
    ensures { result ≡ fits_channel c.now }
{
    is_within(1, 32, c.channel.capacity)
        && is_within(1, 65536, c.channel.max_size)
        && fits_fee(&c.channel.fee)
}

/// Whether the values of each channel are in their ranges.
pub(crate) fn fit_channels(channels: &[ChannelSpec]) -> bool
    ensures { result ≡ list_all fits_channel channels.now }
{
    channels.iter().all(fits_channel)
}
