//! What messages that wait carry of an asset.
ghost use Rattle.std.specs.Prelude.{◌≡◌, min, map, sum_by};
ghost use Rattle.std.specs.List.{list_all};
ghost use Rattle.asset_lists.specs.declared.units.AssetId.TheVariants.{Concrete};
ghost use Rattle.asset_lists.specs.Units.{unit_of};
ghost use Rattle.asset_bundles.specs.Bundles.{bundle_of, is_asset};
ghost use Rattle.asset_bundles.specs.Books.{most_burned};
ghost use Rattle.asset_bundles.specs.Totals.{total_value};
ghost use Rattle.chain_queues.specs.Queues.{channels_of, outgoing_of, waiting_of};
ghost use Rattle.chain_ids.specs.Chains.{same_chain};
ghost use Rattle.supply_audit.specs.Places.{asset_amount_in, by_way, carried_amount, channel_share, in_channel, is_idle, is_towards, list_share, total_sent};

use crate::figures::Carried;
use crate::totals::none;
use asset_bundles::{Shipment, Total, Way};
use asset_lists::{Asset, AssetId, Assets, Kind};
use chain_ids::ChainId;
use chain_queues::{Cargo, Queue, Queues};
use locations::Location;

/// Whether an asset of a list is of this id and kind.
pub(crate) fn is_asset(asset: &Asset, id: &Location, kind: Kind) -> bool
    ensures { result ≡ is_asset (Concrete id.now) kind (unit_of asset.now) }
{
    match &asset.id {
        AssetId::Concrete(place) => *id == *place && kind == asset.kind(),
        AssetId::Abstract(_) => false,
    }
}

/// What an asset of a list counts for.
fn share(asset: &Asset, id: &Location, kind: Kind) -> u128
    ensures { result ≡ list_share (Concrete id.now) kind asset.now }
{
    if is_asset(asset, id, kind) {
        return asset.amount();
    }
    0
}

/// What a list has of an asset.
fn in_list(assets: &[Asset], id: &Location, kind: Kind) -> Total
    ensures { total_value result
        ≡ min (sum_by (list_share (Concrete id.now) kind) assets.now) most_burned }
{
    let mut total = none();
    for asset in assets {
        total = total.plus(share(asset, id, kind));
    }
    total
}

/// What a deposit's list has of an asset.
fn deposited(list: &Assets, id: &Location, kind: Kind) -> Total
    ensures { total_value result
        ≡ min (asset_amount_in (Concrete id.now) kind (bundle_of list.now)) most_burned }
{
    in_list(list.items(), id, kind)
}

/// What a shipment has of an asset, where it goes this way.
fn by_way(way: Way, shipment: &Shipment, id: &Location, kind: Kind) -> u128
    ensures { result ≡ by_way way shipment.now.way (Concrete id.now) kind shipment.now.units }
{
    match (way, shipment.way()) {
        (Way::Withdrawal, Way::Withdrawal) | (Way::Teleport, Way::Teleport) => {
            shipment.total(&AssetId::Concrete(id.copy()), kind)
        }
        _ => 0,
    }
}

/// What a message carries of an asset.
fn carried(what: Carried, id: &Location, kind: Kind, cargo: &Cargo) -> Total
    ensures { total_value result ≡ min (carried_amount what (Concrete id.now) kind cargo.now)
        most_burned }
{
    match (what, cargo) {
        (Carried::Teleports, Cargo::Away(shipment)) => {
            none().plus(by_way(Way::Teleport, shipment, id, kind))
        }
        (Carried::Withdrawals, Cargo::Away(shipment)) => {
            none().plus(by_way(Way::Withdrawal, shipment, id, kind))
        }
        (Carried::Deposits, Cargo::Deposit(list)) => deposited(list, id, kind),
        _ => none(),
    }
}

/// What the messages of a channel carry of an asset.
fn in_channel(what: Carried, id: &Location, kind: Kind, queue: &Queue) -> Total
    ensures { total_value result
        ≡ min (in_channel what (Concrete id.now) kind (outgoing_of queue.now)) most_burned }
{
    let mut total = none();
    for i in 0..queue.waiting.len() {
        total = total.sum(carried(what, id, kind, &queue.waiting[i].cargo));
    }
    total
}

/// Whether two names are of one chain.
pub(crate) fn same_chain(a: ChainId, b: ChainId) -> bool
    ensures { result ≡ same_chain a b }
{
    match (a, b) {
        (ChainId::Relay, ChainId::Relay) => true,
        (ChainId::Para(a), ChainId::Para(b)) => a == b,
        _ => false,
    }
}

/// Whether a channel leads to the chain, or anywhere where none is given.
pub(crate) fn is_towards(to: Option<ChainId>, queue: &Queue) -> bool
    ensures { result ≡ is_towards to (outgoing_of queue.now) }
{
    match to {
        None => true,
        Some(chain) => same_chain(queue.channel.to, chain),
    }
}

/// Whether no message waits in a channel, or it doesn't lead to the chain, or anywhere where none is given.
fn is_idle(to: Option<ChainId>, queue: &Queue) -> bool
    ensures { result ≡ is_idle to (outgoing_of queue.now) }
{
    !is_towards(to, queue) || queue.waiting.is_empty()
}

/// Whether so it is of each of these channels.
fn all_idle(to: Option<ChainId>, channels: &[Queue]) -> bool
    ensures { result ≡ list_all (λ queue. is_idle to (outgoing_of queue)) channels.now }
{
    channels.iter().all(|queue| is_idle(to, queue))
}

/// Whether no message waits in any channel that leads to the chain, or anywhere where none is given.
pub(crate) fn are_idle(to: Option<ChainId>, queues: &Queues) -> bool
    ensures { result ≡ list_all (is_idle to) (channels_of queues.now) }
{
    all_idle(to, queues.channels())
}

/// What a channel counts for.
fn channel_share(
    what: Carried,
    to: Option<ChainId>,
    id: &Location,
    kind: Kind,
    queue: &Queue,
) -> Total
    ensures { total_value result
        ≡ min (channel_share what to (Concrete id.now) kind (outgoing_of queue.now)) most_burned }
{
    if is_towards(to, queue) {
        return in_channel(what, id, kind, queue);
    }
    none()
}

/// What the messages of these channels carry of an asset.
fn in_channels(
    what: Carried,
    to: Option<ChainId>,
    id: &Location,
    kind: Kind,
    channels: &[Queue],
) -> Total
    ensures { total_value result
        ≡ min (total_sent what to (map outgoing_of channels.now) (Concrete id.now) kind) most_burned }
{
    let mut total = none();
    for queue in channels {
        total = total.sum(channel_share(what, to, id, kind, queue));
    }
    total
}

/// What the messages carry of an asset that a chain sent, to the chain or to any where none is given. It saturates at 2^160-1.
pub(crate) fn sent(
    what: Carried,
    to: Option<ChainId>,
    id: &Location,
    kind: Kind,
    queues: &Queues,
) -> Total
    ensures { total_value result
        ≡ min (total_sent what to (channels_of queues.now) (Concrete id.now) kind) most_burned }
{
    in_channels(what, to, id, kind, queues.channels())
}
