//! A relay chain and a parachain, as they open, and what the rows ask of them.
ghost use Rattle.std.specs.Prelude.{◌≡◌, ◌<◌, IsFalse, IfOk, []};
ghost use Rattle.amounts.specs.Amounts.{empty};
ghost use Rattle.asset_lists.specs.Units.{is_zero};
ghost use Rattle.asset_bundles.specs.Books.{AreListed};
ghost use Rattle.trust_tables.specs.Trust.{listing};
ghost use Rattle.channel_parts.specs.declared.cargo.Cargo.{Cargo};
ghost use Rattle.chain_state.specs.PartOf.{part_of};

use asset_bundles::AssetBundle;
use asset_lists::{Asset, AssetId, Assets, Fun};
use chain_state::ChainState;
use exec_base::{Host, HostFault};
use locations::{Junction, Junctions, Location};
use network_config::read_network;
use network_validity::law_of_valid_networks;
use std::alloc::{AllocError, Global};
use std::test::Fail;
use trust_tables::ChainId;

/// Who has what at the relay chain.
pub(crate) const A1: [u8; 32] = [1; 32];

pub(crate) const A2: [u8; 32] = [2; 32];

/// The relay chain's fee account.
pub(crate) const A9: [u8; 32] = [9; 32];

pub(crate) const PARA: ChainId = ChainId::Para(1000);

/// A relay chain with an asset at home, which has a partner and a checking account, a class, and the asset of a parachain; the parachain;
/// and a channel to it, whose messages cost 2.
const NETWORK: &str = r#"{"format":2,"chains":[
{"fee_account":"0x0909090909090909090909090909090909090909090909090909090909090909",
"rates":[{"asset":"0","per_second":"1000000000000","per_mb":"0"}],
"assets":[{"id":"0","native":[1000],"checking":"10"},{"id":"0/GeneralIndex(1)","kind":"class","native":[]},
{"id":"0/Parachain(1000)","reserve":1000}],
"accounts":[{"who":"0x0101010101010101010101010101010101010101010101010101010101010101","asset":"0","amount":"100"},
{"who":"0x0101010101010101010101010101010101010101010101010101010101010101","asset":"0/GeneralIndex(1)","instance":"0x0104"},
{"who":"0x0101010101010101010101010101010101010101010101010101010101010101","asset":"0/Parachain(1000)","amount":"5"}],
"queries":[{"id":7,"from":1000}]},
{"para":1000,"assets":[{"id":"0","native":["relay"]}]}],
"channels":[{"from":"relay","to":1000,"fee_asset":"0","fee":"2"}]}"#;

/// The relay chain, as the network opens.
pub(crate) fn relay(alloc: Global) -> Result<ChainState, Fail>
    ensures slot { IfOk result (λ chain. (part_of chain).fee_slot ≡ empty) }
    ensures cargo { IfOk result (λ chain. (part_of chain).cargo.cargo ≡ Cargo.Nothing) }
    ensures parked { IfOk result (λ chain. (part_of chain).parked ≡ []) }
{
    // For the prover alone: a network that was read can open.
    law_of_valid_networks();
    let spec = read_network(alloc, NETWORK.as_bytes())?;
    Ok(ChainState::open(alloc, &spec, ChainId::Relay)?)
}

/// All chains, as the network opens.
pub(crate) fn all_chains(alloc: Global) -> Result<Vec<ChainState>, Fail> {
    // For the prover alone: a network that was read can open.
    law_of_valid_networks();
    let spec = read_network(alloc, NETWORK.as_bytes())?;
    let mut list = Vec::new(alloc);
    for entry in spec.chains.items() {
        list.push(ChainState::open(alloc, &spec, entry.chain)?)?;
    }
    Ok(list)
}

/// The chain itself.
pub(crate) fn here() -> Location {
    Location {
        parents: 0,
        interior: Junctions::empty(),
    }
}

/// The location of a junction.
pub(crate) fn at(junction: Junction) -> Location {
    let mut interior = Junctions::empty();
    match interior.push(junction) {
        Ok(()) => Location {
            parents: 0,
            interior,
        },
        Err(_) => unreachable!(),
    }
}

/// The account's location.
pub(crate) fn of(account: [u8; 32]) -> Location {
    at(Junction::AccountId32 {
        network: None,
        id: account,
    })
}

/// The parachain's location, which is also the id of its asset.
pub(crate) fn para() -> Location {
    at(Junction::Parachain(1000))
}

/// So much of the asset that this location defines.
pub(crate) fn coins(place: Location, amount: u128) -> Asset
    requires { 0 < amount }
    ensures some { IsFalse (is_zero result) }
{
    Asset {
        id: AssetId::Concrete(place),
        fun: Fun::Fungible(amount),
    }
}

/// So much of it, as a list.
pub(crate) fn list(alloc: Global, place: Location, amount: u128) -> Result<Assets, AllocError>
    requires { 0 < amount }
{
    Assets::one(alloc, coins(place, amount))
}

/// What an account has of the chain's own asset.
pub(crate) fn held(chain: &ChainState, who: &[u8; 32]) -> u128 {
    chain.ledger().amount(who, &AssetId::Concrete(here()))
}

/// What the first account gives, which is listed.
pub(crate) fn taken(chain: &mut ChainState, assets: &Assets) -> Result<AssetBundle, HostFault>
    ensures listed { IfOk result (λ goods. AreListed (listing (part_of chain.new).rows) goods) }
{
    chain.withdraw(assets, &of(A1))
}

/// Puts goods into an account: why it is refused. Then they are gone.
pub(crate) fn put(chain: &mut ChainState, goods: AssetBundle, who: &Location) -> Option<HostFault> {
    match chain.deposit(goods, who) {
        Ok(()) => None,
        Err((goods, fault)) => {
            goods.melt();
            Some(fault)
        }
    }
}
