//! What the chain keeps, read.
ghost use Rattle.std.specs.Prelude.{◌≡◌, ◌≤◌, length};
ghost use Rattle.exec_base.specs.Part.{accounts_of, book_of};
ghost use Rattle.asset_pools.specs.Exchanges.{is_pool_account};
ghost use Rattle.chain_queues.specs.Queues.{channels_of};
ghost use Rattle.chain_state.specs.PartOf.{part_of};

use crate::ChainState;
use asset_bundles::{BurnBook, Units};
use asset_locks::LockBook;
use asset_pools::is_pool_account;
use chain_queues::Queues;
use exec_base::Event;
use ledgers::{Ledger, TrapStore};
use operands::{OpenQuery, PalletInfo};
use trust_tables::{AssetRow, Site};

impl ChainState {
    /// Where the chain is.
    pub fn site(&self) -> &Site
        ensures { result.now ≡ (part_of self.now).site }
    {
        &self.settings.site
    }

    /// The assets that the chain lists, in listed order.
    pub fn rows(&self) -> &[AssetRow]
        ensures { result.now ≡ (part_of self.now).rows }
    {
        self.settings.rows.items()
    }

    /// The chain's pallets, in listed order.
    pub fn pallets(&self) -> &[PalletInfo]
        ensures same { result.now ≡ (part_of self.now).pallets }
        ensures few { length (part_of self.now).pallets ≤ 64 }
    {
        self.settings.pallets.items()
    }

    /// Whether the account is that of one of its pools, which nobody has.
    pub fn has_pool_account(&self, account: &[u8; 32]) -> bool
        ensures { result ≡ is_pool_account (part_of self.now).pools account.now }
    {
        is_pool_account(self.settings.pools.items(), account)
    }

    /// The chain's open queries.
    pub fn open_queries(&self) -> &[OpenQuery]
        ensures { result.now ≡ (part_of self.now).queries }
    {
        self.queries.as_slice()
    }

    /// What accounts hold.
    pub fn ledger(&self) -> &Ledger
        ensures ledger { result.now ≡ accounts_of (part_of self.now) }
    {
        &self.ledger
    }

    /// What is locked, and what is noted of locks elsewhere.
    pub fn lock_book(&self) -> &LockBook
        ensures locks { result.now ≡ (part_of self.now).locked }
    {
        &self.locked
    }

    /// What is trapped.
    pub fn traps(&self) -> &TrapStore
        ensures traps { result.now ≡ (part_of self.now).traps }
    {
        &self.traps
    }

    /// What was burned.
    pub fn burns(&self) -> &BurnBook
        ensures book { result.now ≡ book_of (part_of self.now) }
    {
        &self.book
    }

    /// The channels that lead from the chain, with the messages that wait in them.
    pub fn queues(&self) -> &Queues
        ensures channels { channels_of result.now ≡ (part_of self.now).channels }
    {
        &self.queues
    }

    /// What is parked: goods that couldn't be put where they belong, because memory was refused.
    pub fn parked(&self) -> &[Units]
        ensures parked { result.now ≡ (part_of self.now).parked }
    {
        self.parked.as_slice()
    }

    /// The checking account of each row, in listed order; `None` where the row has none.
    pub fn checkings(&self) -> &[Option<u128>]
        ensures { result.now ≡ (part_of self.now).checking }
    {
        self.checking.as_slice()
    }

    /// What was told in the last step at the chain.
    pub fn trace(&self) -> &[Event]
        ensures events { result.now ≡ (part_of self.now).events }
    {
        self.events.as_slice()
    }
}
