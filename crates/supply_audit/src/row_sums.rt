//! What the messages from one chain to another, or to any, carry, row by row of the sender's list.
ghost use Rattle.std.specs.Prelude.{◌≡◌, ℕ, map, length, Some, IfOk, slice_get, sum_by};
ghost use Rattle.asset_bundles.specs.Bundles.{bundle_of};
ghost use Rattle.asset_bundles.specs.Totals.{total_value};
ghost use Rattle.trust_tables.specs.Trust.{listing};
ghost use Rattle.chain_queues.specs.Queues.{outgoing_of};
ghost use Rattle.chain_state.specs.PartOf.{part_of};
ghost use Rattle.supply_audit.specs.Places.{asset_amount_in, by_way, carried_amount, channel_share, in_channel, list_share, total_sent};
ghost use Rattle.supply_audit.specs.Found.{AreSentTo, AreSumsOf, Rise, sum_in_row};

use crate::figures::Carried;
use crate::hints::Hints;
use crate::messages::{are_idle, is_towards};
use crate::over_places::chain_of;
use crate::totals::none;
use asset_bundles::{Shipment, Total, Way};
use asset_lists::{Asset, Assets};
use chain_ids::ChainId;
use chain_queues::{Cargo, Queue};
use chain_state::ChainState;
use ledgers::Ledger;
use std::alloc::{AllocError, Global};
use trust_tables::AssetRow;

/// The sum of the row at this index; 0 past the end.
pub(crate) fn sum_in_row(sums: &[Total], row: usize) -> Total
    ensures { total_value result ≡ sum_in_row sums.now row }
{
    match sums.get(row) {
        None => none(),
        Some(sum) => *sum,
    }
}

/// So many sums of nothing.
fn zero_sums(alloc: Global, count: usize) -> Result<Vec<Total>, AllocError>
    ensures count { IfOk result (λ sums. length sums.items ≡ count) }
    ensures zero { IfOk result (λ sums. (row : ℕ) → sum_in_row sums.items row ≡ 0) }
{
    let mut sums = Vec::with_capacity(alloc, count)?;
    for _ in 0..count {
        sums.push(none())?;
    }
    Ok(sums)
}

/// Adds an asset to the sum of its row, where it has one.
fn add_asset(
    sums: &mut [Total],
    hints: &mut Hints,
    rows: &[AssetRow],
    ledger: &Ledger,
    asset: &Asset,
)
    requires sums { AreSumsOf ledger.now.listed sums.old }
    requires listed { ledger.now.listed ≡ listing rows.now }
    ensures sums { AreSumsOf ledger.now.listed sums.new }
    ensures rise { Rise ledger.now.listed sums.old sums.new
        (λ k. list_share k.0 k.1 asset.now) }
{
    match hints.row_of(rows, ledger, asset) {
        Some(row) => {
            sums[row] = sum_in_row(sums, row).plus(asset.amount());
        }
        None => {}
    }
}

/// Adds the assets of a list.
fn add_assets(
    sums: &mut [Total],
    hints: &mut Hints,
    rows: &[AssetRow],
    ledger: &Ledger,
    assets: &[Asset],
)
    requires sums { AreSumsOf ledger.now.listed sums.old }
    requires listed { ledger.now.listed ≡ listing rows.now }
    ensures sums { AreSumsOf ledger.now.listed sums.new }
    ensures rise { Rise ledger.now.listed sums.old sums.new
        (λ k. sum_by (list_share k.0 k.1) assets.now) }
{
    for asset in assets {
        add_asset(sums, hints, rows, ledger, asset);
    }
}

/// Adds the assets of a deposit's list.
fn add_list(
    sums: &mut [Total],
    hints: &mut Hints,
    rows: &[AssetRow],
    ledger: &Ledger,
    list: &Assets,
)
    requires sums { AreSumsOf ledger.now.listed sums.old }
    requires listed { ledger.now.listed ≡ listing rows.now }
    ensures sums { AreSumsOf ledger.now.listed sums.new }
    ensures rise { Rise ledger.now.listed sums.old sums.new
        (λ k. asset_amount_in k.0 k.1 (bundle_of list.now)) }
{
    add_assets(sums, hints, rows, ledger, list.items());
}

/// Adds the assets of a shipment, where it goes this way.
fn add_shipment(
    sums: &mut [Total],
    hints: &mut Hints,
    rows: &[AssetRow],
    ledger: &Ledger,
    way: Way,
    shipment: &Shipment,
)
    requires sums { AreSumsOf ledger.now.listed sums.old }
    requires listed { ledger.now.listed ≡ listing rows.now }
    ensures sums { AreSumsOf ledger.now.listed sums.new }
    ensures rise { Rise ledger.now.listed sums.old sums.new
        (λ k. by_way way shipment.now.way k.0 k.1 shipment.now.units) }
{
    match (way, shipment.way()) {
        (Way::Withdrawal, Way::Withdrawal) => add_assets(
            sums,
            hints,
            rows,
            ledger,
            shipment.items(),
        ),
        (Way::Teleport, Way::Teleport) => add_assets(sums, hints, rows, ledger, shipment.items()),
        _ => {}
    }
}

/// Adds what a message carries.
fn add_cargo(
    sums: &mut [Total],
    hints: &mut Hints,
    rows: &[AssetRow],
    ledger: &Ledger,
    what: Carried,
    cargo: &Cargo,
)
    requires sums { AreSumsOf ledger.now.listed sums.old }
    requires listed { ledger.now.listed ≡ listing rows.now }
    ensures sums { AreSumsOf ledger.now.listed sums.new }
    ensures rise { Rise ledger.now.listed sums.old sums.new
        (λ k. carried_amount what k.0 k.1 cargo.now) }
{
    match (what, cargo) {
        (Carried::Teleports, Cargo::Away(shipment)) => {
            add_shipment(sums, hints, rows, ledger, Way::Teleport, shipment);
        }
        (Carried::Withdrawals, Cargo::Away(shipment)) => {
            add_shipment(sums, hints, rows, ledger, Way::Withdrawal, shipment);
        }
        (Carried::Deposits, Cargo::Deposit(list)) => add_list(sums, hints, rows, ledger, list),
        _ => {}
    }
}

/// Adds what the messages of a channel carry.
fn add_waiting(
    sums: &mut [Total],
    hints: &mut Hints,
    rows: &[AssetRow],
    ledger: &Ledger,
    what: Carried,
    queue: &Queue,
)
    requires sums { AreSumsOf ledger.now.listed sums.old }
    requires listed { ledger.now.listed ≡ listing rows.now }
    ensures sums { AreSumsOf ledger.now.listed sums.new }
    ensures rise { Rise ledger.now.listed sums.old sums.new
        (λ k. in_channel what k.0 k.1 (outgoing_of queue.now)) }
{
    for i in 0..queue.waiting.len() {
        add_cargo(sums, hints, rows, ledger, what, &queue.waiting[i].cargo);
    }
}

/// Adds what the messages of a channel carry, where it leads to the chain, or anywhere where none is given.
fn add_channel(
    sums: &mut [Total],
    hints: &mut Hints,
    rows: &[AssetRow],
    ledger: &Ledger,
    what: Carried,
    to: Option<ChainId>,
    queue: &Queue,
)
    requires sums { AreSumsOf ledger.now.listed sums.old }
    requires listed { ledger.now.listed ≡ listing rows.now }
    ensures sums { AreSumsOf ledger.now.listed sums.new }
    ensures rise { Rise ledger.now.listed sums.old sums.new
        (λ k. channel_share what to k.0 k.1 (outgoing_of queue.now)) }
{
    if is_towards(to, queue) {
        add_waiting(sums, hints, rows, ledger, what, queue);
    }
}

/// Adds what the messages of these channels carry to the chain, or anywhere where none is given.
fn add_channels(
    sums: &mut [Total],
    hints: &mut Hints,
    rows: &[AssetRow],
    ledger: &Ledger,
    what: Carried,
    to: Option<ChainId>,
    channels: &[Queue],
)
    requires sums { AreSumsOf ledger.now.listed sums.old }
    requires listed { ledger.now.listed ≡ listing rows.now }
    ensures sums { AreSumsOf ledger.now.listed sums.new }
    ensures rise { Rise ledger.now.listed sums.old sums.new
        (λ k. total_sent what to (map outgoing_of channels.now) k.0 k.1) }
{
    for queue in channels {
        add_channel(sums, hints, rows, ledger, what, to, queue);
    }
}

/// What a chain's messages carry to another, or to any where none is given, row by row.
fn filled_sums(
    alloc: Global,
    hints: &mut Hints,
    what: Carried,
    to: Option<ChainId>,
    chain: &ChainState,
) -> Result<Vec<Total>, AllocError>
    ensures { IfOk result (λ sums. AreSentTo what to (Some (part_of chain.now)) sums.items) }
{
    let rows = chain.rows();
    let mut sums = zero_sums(alloc, rows.len())?;
    add_channels(
        &mut sums,
        hints,
        rows,
        chain.ledger(),
        what,
        to,
        chain.queues().channels(),
    );
    Ok(sums)
}

/// The same. Where no message waits there are no sums, and no memory is taken.
fn row_sums(
    alloc: Global,
    hints: &mut Hints,
    what: Carried,
    to: Option<ChainId>,
    chain: &ChainState,
) -> Result<Vec<Total>, AllocError>
    ensures { IfOk result (λ sums. AreSentTo what to (Some (part_of chain.now)) sums.items) }
{
    if are_idle(to, chain.queues()) {
        return Ok(Vec::new(alloc));
    }
    filled_sums(alloc, hints, what, to, chain)
}

/// What the messages from the chain of this number carry to the chain of this name, or to any where none is given, row by row of the former's list.
/// Rows past the end have nothing. An `Err` is out of memory.
#[inline(never)]
pub(crate) fn sums_from(
    alloc: Global,
    hints: &mut Hints,
    what: Carried,
    chains: &[ChainState],
    from: usize,
    to: Option<ChainId>,
) -> Result<Vec<Total>, AllocError>
    ensures { IfOk result (λ sums. AreSentTo what to
        (slice_get (map part_of chains.now) from) sums.items) }
{
    match chain_of(chains, from) {
        None => Ok(Vec::new(alloc)),
        Some(chain) => row_sums(alloc, hints, what, to, chain),
    }
}
