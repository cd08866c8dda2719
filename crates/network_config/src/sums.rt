//! What accounts hold when a network opens, summed up over all chains.
ghost use Rattle.std.specs.Prelude.{◌≡◌, ◌+◌, ◌++◌, ◌⊎◌, [], true, false, nat_lt, option_to_list, if◌then◌else◌, IfOk, IfErr, OnOk};
ghost use Rattle.std.specs.Ordering.{eq_by_cmp};
ghost use Rattle.asset_lists.specs.Listed.{kind_number};
ghost use Rattle.document_entries.specs.Answers.{Answers};
ghost use Rattle.document_entries.specs.declared.stop.Stop.TheVariants as Stop;
ghost use Rattle.document_entries.specs.declared.fault.NetworkFault.TheVariants as NetworkFault;
ghost use Rattle.document_entries.specs.Entries.{amount_limit};
ghost use Rattle.network_config.specs.Sums.{path_at, share_of, shares_in, shares_of, sums_in, sums};
ghost use Rattle.network_config.specs.Totals.{TotalKey, total_key_cmp, total_key_of, total_under_key, with_share};

use asset_lists::{AssetId, Kind};
use document_entries::{NetworkFault, Place, Section, Stop};
use locations::{Junctions, Location};
use network_spec::{Balance, ChainSpec, NetworkSpec};
use std::alloc::{AllocError, Global};
use std::collections::BTreeMap;
use trust_tables::Site;

/// What an account's entry counts for.
#[derive(Drop)]
pub(crate) struct Share {
    /// The entry's position.
    pub(crate) place: Place,
    /// The path of the asset's id.
    pub(crate) path: Junctions,
    /// Whether the asset has amounts or instances.
    pub(crate) kind: Kind,
    /// The amount in the asset's smallest unit; 1 for an instance.
    pub(crate) amount: u128,
}

/// The path of an id, where it has one of at most eight junctions.
fn path_at(context: &Junctions, id: &Location) -> Option<Junctions>
    ensures { result ≡ path_at context.now id.now }
{
    match id.path(context) {
        Ok(path) => Some(path),
        Err(_) => None,
    }
}

/// What an account's entry counts for, where its asset has a path.
fn share_of(place: Place, context: &Junctions, balance: &Balance) -> Option<Share>
    ensures { result ≡ share_of place context.now balance.now }
{
    match &balance.asset.id {
        AssetId::Concrete(id) => match path_at(context, id) {
            Some(path) => Some(Share {
                place,
                path,
                kind: balance.asset.kind(),
                amount: balance.asset.amount(),
            }),
            None => None,
        },
        AssetId::Abstract(_) => None,
    }
}

/// Adds a share, if there is one.
fn add_share(shares: &mut Vec<Share>, share: Option<Share>) -> Result<(), AllocError>
    ensures { OnOk result (shares.new.items ≡ shares.old.items ++ option_to_list share) }
{
    if let Some(share) = share {
        shares.push(share)?;
    }
    Ok(())
}

/// Adds what a chain's accounts count for.
fn add_shares(
    shares: &mut Vec<Share>,
    chain: u32,
    context: &Junctions,
    accounts: &[Balance],
) -> Result<(), AllocError>
    ensures { OnOk result (shares.new.items
        ≡ shares.old.items ++ shares_in chain context.now 0 accounts.now) }
{
    let mut index: u32 = 0;
    for balance in accounts {
        let place = Place {
            chain: Some(chain),
            section: Section::Accounts,
            index,
        };
        add_share(shares, share_of(place, context, balance))?;
        index = index.saturating_add(1);
    }
    Ok(())
}

/// How many accounts the chains have. It is only the room to take at once: more would be taken as it is needed.
fn account_count(chains: &[ChainSpec]) -> usize {
    let mut count: usize = 0;
    for chain in chains {
        count = count.saturating_add(chain.accounts.items().len());
    }
    count
}

/// What the accounts of all chains count for, in the document's order.
fn shares_of(alloc: Global, network: &NetworkSpec) -> Result<Vec<Share>, AllocError>
    ensures { IfOk result (λ shares. shares.items
        ≡ shares_of network.now.network 0 network.now.chains) }
{
    let chains = network.chains.items();
    let mut shares = Vec::with_capacity(alloc, account_count(chains))?;
    let mut index: u32 = 0;
    for chain in chains {
        let site = Site {
            network: network.network,
            chain: chain.chain,
        };
        add_shares(&mut shares, index, &site.path(), chain.accounts.items())?;
        index = index.saturating_add(1);
    }
    Ok(shares)
}

/// What accounts hold so far, by an asset's path and the number of its kind.
type Totals = BTreeMap<(Junctions, u32), u128>;

/// The number of a kind.
fn kind_number(kind: Kind) -> u32
    ensures { result ≡ kind_number kind }
{
    match kind {
        Kind::Fungible => 0,
        Kind::Class => 1,
    }
}

/// A share's path and kind.
fn key_of(share: &Share) -> (Junctions, u32)
    ensures { result ≡ total_key_of share.now }
{
    (share.path.copy(), kind_number(share.kind))
}

/// The total of a path and kind so far, 0 where there is none.
fn total_in(totals: &Totals, key: &(Junctions, u32)) -> u128
    ensures { result ≡ total_under_key totals.now.entries key.now }
{
    totals.get(key).copied().unwrap_or(0)
}

/// Writes the total of a path and kind.
fn write_total(totals: &mut Totals, key: (Junctions, u32), total: u128) -> Result<(), AllocError>
    ensures { OnOk result ((q : TotalKey) → total_under_key totals.new.entries q
        ≡ (if eq_by_cmp total_key_cmp key q then total else total_under_key totals.old.entries q)) }
{
    totals.insert(key, total)?;
    Ok(())
}

/// Whether a sum is below the limit.
#[tactic(auto, unfolding(document_entries::specs::Entries::amount_limit))]
fn is_within(sum: u128) -> bool
    ensures { result ≡ nat_lt sum amount_limit }
{
    sum < 170_141_183_460_469_231_731_687_303_715_884_105_728
}

/// Adds a share to the totals, and refuses it where its total reaches the limit.
fn add_total(totals: &mut Totals, share: &Share) -> Result<(), Stop>
    ensures added { OnOk result ((q : TotalKey) → total_under_key totals.new.entries q
        ≡ with_share share.now totals.old.entries q) }
    ensures below { OnOk result (nat_lt (total_under_key totals.old.entries (total_key_of share.now)
        + share.now.amount) amount_limit ≡ true) }
    ensures refused { IfErr result (λ stop. (stop ≡ Stop.Memory)
        ⊎ ((stop ≡ Stop.Fault (NetworkFault.LimitPassed share.now.place))
        × (nat_lt (total_under_key totals.old.entries (total_key_of share.now) + share.now.amount)
        amount_limit ≡ false))) }
{
    let key = key_of(share);
    let sum = total_in(totals, &key).saturating_add(share.amount);
    if !is_within(sum) {
        return Err(Stop::Fault(NetworkFault::LimitPassed(share.place)));
    }
    match write_total(totals, key, sum) {
        Ok(()) => Ok(()),
        Err(_) => Err(Stop::Memory),
    }
}

/// Refuses the shares by the first with which a sum reaches the limit.
fn check_shares(alloc: Global, shares: &[Share]) -> Result<(), Stop>
    ensures { Answers result (sums_in [] shares.now) }
{
    let mut totals: Totals = BTreeMap::new(alloc);
    for share in shares {
        add_total(&mut totals, share)?;
    }
    Ok(())
}

/// Refuses a network by the first account with which a sum reaches the limit.
#[tactic(auto, unfolding(crate::specs::Sums::sums))]
pub fn check_sums(alloc: Global, network: &NetworkSpec) -> Result<(), Stop>
    ensures { Answers result (sums network.now) }
{
    let shares = shares_of(alloc, network)?;
    check_shares(alloc, shares.as_slice())
}
