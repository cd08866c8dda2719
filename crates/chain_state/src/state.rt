//! What a chain keeps.
ghost use Rattle.std.specs.Prelude.{◌≡◌, ◌≤◌, vec_capacity, IsTrue};
ghost use Rattle.trust_tables.specs.Chains.{path_of_site};
ghost use Rattle.trust_tables.specs.Trust.{listing};
ghost use Rattle.network_steps.specs.Tests.{are_rates_listed};
ghost use Rattle.chain_queues.specs.Queues.{channels_of};
ghost use Rattle.weight_trader.specs.Refunds.{Closed};
ghost use Rattle.chain_state.specs.Fees.{HaveRows, HaveRowsFor};
ghost use Rattle.chain_state.specs.Checked.{are_checked};
ghost use Rattle.chain_state.specs.Facts.{IsSetUp, KeepsLockFloors, ArePayable};
ghost use Rattle.chain_state.specs.Facts.{IsSetUp-prop};
ghost use Rattle.chain_state.specs.Facts.{KeepsLockFloors-prop};
ghost use Rattle.chain_state.specs.Facts.{ArePayable-prop};

use crate::fees::rows::FeeRows;
use asset_bundles::{BurnBook, Units};
use asset_locks::LockBook;
use chain_ids::ChainId;
use chain_queues::{Cargo, Queues};
use exec_base::{Event, Settings};
use ledgers::{Ledger, TrapStore};
use operands::OpenQuery;
use weight_trader::Trader;

/// A chain of the network: what its document says, what is at it, what it sends, and what is told. No two rows list one asset, the
/// id of each has a path, and there are at most 64 pallets and 16 pools; each account has what is locked on it, and nothing is locked on a
/// pool's; the ledger and the book list what the rows list; each rate's asset is listed; each channel's fee is an amount above 0 of a fungible asset
/// that is listed; just the fungible ones of the listed assets have a row of kept fees, and what is in the fee slot has one; the spare
/// trader has the rates of the trader; four bundles can be parked without memory; and only rows of fungible assets have a checking
/// account.
#[derive(Drop)]
pub struct ChainState {
    pub(crate) settings: Settings,
    pub(crate) ledger: Ledger,
    pub(crate) traps: TrapStore,
    pub(crate) trader: Trader,
    /// It replaces the trader when fees are settled, since no trader can be closed without memory.
    pub(crate) spare: Trader,
    pub(crate) fee_slot: Units,
    pub(crate) fees: FeeRows,
    pub(crate) parked: Vec<Units>,
    pub(crate) book: BurnBook,
    pub(crate) checking: Vec<Option<u128>>,
    pub(crate) locked: LockBook,
    pub(crate) queries: Vec<OpenQuery>,
    pub(crate) queues: Queues,
    pub(crate) sender: ChainId,
    pub(crate) cargo: Cargo,
    pub(crate) events: Vec<Event>,
    pub(crate) pending_events: Vec<Event>,
    ghost set_up: { IsSetUp (path_of_site settings.site) settings.rows settings.pallets
        settings.pools } by { IsSetUp-prop (path_of_site settings.site) settings.rows
            settings.pallets settings.pools },
    ghost floors: { KeepsLockFloors settings.pools locked
        ledger.held } by { KeepsLockFloors-prop settings.pools locked ledger.held },
    ghost ledger_lists: { ledger.listed ≡ listing settings.rows },
    ghost book_lists: { book.listed ≡ listing settings.rows },
    ghost rates: { IsTrue (are_rates_listed (listing settings.rows) trader) },
    ghost payable: { ArePayable (listing settings.rows)
        (channels_of queues) } by { ArePayable-prop (listing settings.rows)
            (channels_of queues) },
    ghost fee_rows: { HaveRows (listing settings.rows) fees },
    ghost slot_rows: { HaveRowsFor fees fee_slot },
    ghost spare_lines: { Closed spare ≡ Closed trader },
    ghost room: { 4 ≤ vec_capacity parked },
    ghost checked: { IsTrue (are_checked settings.rows checking.items) },
}
