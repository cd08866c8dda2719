//! A chain as the network opens.
ghost use Rattle.std.specs.Prelude.{◌≡◌, ◌<◌, ◌≤◌, ◌^◌, ℕ, length, map, take, find, IsTrue, IsFalse, None, IfOk, IfErr, IsSomeAnd, OnOk, OnErr, [], ◌∷◌};
ghost use Rattle.std.specs.Ordering.{eq_by_cmp};
ghost use Rattle.std.specs.List.{IsDistinct, list_all};
ghost use Rattle.amounts.specs.Amounts.{empty};
ghost use Rattle.chain_ids.specs.Chains.{same_chain};
ghost use Rattle.asset_lists.specs.Units.{unit_of, is_zero};
ghost use Rattle.asset_lists.specs.Listed.{listed_cmp, listed_of, lists};
ghost use Rattle.asset_bundles.specs.Bundles.{bundle_of, held_assets};
ghost use Rattle.ledgers.specs.Ledgers.{Deposited, barred};
ghost use Rattle.ledgers.specs.LedgerFaults.{IsDepositFault};
ghost use Rattle.trust_tables.specs.Chains.{path_of_site};
ghost use Rattle.trust_tables.specs.Trust.{listing};
ghost use Rattle.channel_parts.specs.Channels.{opened};
ghost use Rattle.weight_trader.specs.Purchases.{NameEachOnce, new_lines};
ghost use Rattle.exec_base.specs.Part.{accounts_of};
ghost use Rattle.network_spec.specs.declared.chain.ChainSpec.{ChainSpec};
ghost use Rattle.network_spec.specs.Networks.{same_holding, has_chain};
ghost use Rattle.network_steps.specs.Tests.{have_paths, have_prices, are_rates_listed, may_have_checkings, is_placeable};
ghost use Rattle.network_steps.specs.Genesis.{fresh, bare_part, part_at, with_balance, with_balances};
ghost use Rattle.network_steps.specs.Openable.{IsOpenableChain, IsOpenable};
ghost use Rattle.chain_state.specs.PartOf.{part_of};
ghost use Rattle.chain_state.specs.ListedFees.{are_fees_listed};

use crate::ChainState;
use crate::fees::rows::FeeRows;
use crate::opening::copies::{channels_from, copied_pallets, copied_pools, entry_of, open_queries};
use crate::opening::listing::{checking_accounts, ids, places};
use asset_bundles::{AssetBundle, BurnBook};
use asset_lists::Asset;
use asset_locks::LockBook;
use chain_ids::ChainId;
use chain_queues::{Cargo, Channel, Queues};
use exec_base::Settings;
use ledgers::{DepositFault, Ledger, TrapStore};
use network_spec::{Balance, ChainSpec, NetworkSpec};
use operands::OpenQuery;
use plain_lists::Listed;
use std::alloc::{AllocError, Global};
use trust_tables::Site;
use weight_trader::{Rate, Trader};

impl ChainState {
    /// A chain with these rows, pallets, rates, open queries and channels, on which no account holds anything. No two rows list the same
    /// asset, there are fewer than 2^32 of them, and the id of each has a path of at most 8 junctions; no two rates name the same asset,
    /// and each names a listed one; there are at most 64 pallets and 16 pools; the fee of a channel is an amount above 0 of a fungible asset that is
    /// listed; and only rows of fungible assets have a checking account.
    pub fn new(
        alloc: Global,
        settings: Settings,
        rates: &[Rate],
        queries: Vec<OpenQuery>,
        channels: Vec<Channel>,
    ) -> Result<ChainState, AllocError>
        requires distinct { IsDistinct (eq_by_cmp listed_cmp) (listing settings.rows) }
        requires few { length settings.rows < 2 ^ 32 }
        requires paths { IsTrue (have_paths (path_of_site settings.site) settings.rows) }
        requires once { NameEachOnce rates.now }
        requires rates { IsTrue (are_rates_listed (listing settings.rows) (new_lines rates.now)) }
        requires few_pallets { length settings.pallets ≤ 64 }
        requires few_pools { length settings.pools ≤ 16 }
        requires prices { IsTrue (have_prices (map opened channels.items)) }
        requires fees { IsTrue (are_fees_listed (listing settings.rows)
            (map opened channels.items)) }
        requires checkings { IsTrue (may_have_checkings settings.rows) }
        ensures fresh { IfOk result (λ chain. part_of chain
            ≡ fresh settings rates.now queries.items channels.items) }
    {
        let ledger = Ledger::open(alloc, places(alloc, settings.rows.items())?)?;
        let listed = ids(alloc, settings.rows.items())?;
        let book = BurnBook::new(alloc, listed.as_slice())?;
        let checking = checking_accounts(alloc, settings.rows.items())?;
        let fees = FeeRows::open(alloc, listed.as_slice())?;
        let trader = Trader::new(alloc, rates)?;
        let spare = Trader::new(alloc, rates)?;
        let queues = Queues::open(alloc, channels)?;
        let parked = Vec::with_capacity(alloc, 4)?;
        let locked = LockBook::new(alloc);
        Ok(ChainState {
            sender: settings.site.chain,
            settings,
            ledger,
            traps: TrapStore::new(alloc),
            trader,
            spare,
            fee_slot: AssetBundle::empty(alloc).set_down(),
            fees,
            parked,
            book,
            checking,
            locked,
            queries,
            queues,
            cargo: Cargo::Nothing,
            events: Vec::new(alloc),
            pending_events: Vec::new(alloc),
        })
    }

    /// Makes an asset, which is no amount of 0, in an account: what is there when the network opens. `Err` is an amount that would
    /// pass 2^128-1, an instance that has an owner, or out of memory; the account is then as it was.
    pub fn place(&mut self, who: &[u8; 32], asset: Asset) -> Result<(), DepositFault>
        requires some { IsFalse (is_zero asset) }
        requires listed { IsTrue (lists (listing (part_of self.old).rows)
            (listed_of (unit_of asset))) }
        ensures placed { OnOk result (part_of self.new
            ≡ record (part_of self.old) {
              held = (Deposited who.now (bundle_of (asset ∷ []))
                  (accounts_of (part_of self.old))).held;
            }) }
        ensures fault { IfErr result (λ fault. IsDepositFault (part_of self.old).held who.now
            (held_assets (bundle_of (asset ∷ []))) fault) }
        ensures free { OnOk result (barred (part_of self.old).held who.now
            (held_assets (bundle_of (asset ∷ []))) ≡ None) }
        ensures kept { OnErr result (part_of self.new ≡ part_of self.old) }
    {
        let list = [asset];
        if let Some(fault) = self.ledger.barred(who, &list) {
            return Err(fault);
        }
        let goods = AssetBundle::mint(*self.events.allocator(), &list)?;
        match self.ledger.deposit_checked(who, goods) {
            Ok(()) => Ok(()),
            Err(goods) => {
                goods.melt();
                Err(DepositFault::Memory)
            }
        }
    }

    /// The chain as its entry of the document says it, with accounts that hold nothing.
    fn bare(alloc: Global, spec: &NetworkSpec, entry: &ChainSpec) -> Result<ChainState, AllocError>
        requires chain { IsOpenableChain spec.now.network entry.now }
        requires prices { IsTrue (have_prices (bare_part spec.now entry.now).channels) }
        requires fees { IsTrue (are_fees_listed (listing entry.now.assets)
            (bare_part spec.now entry.now).channels) }
        ensures { IfOk result (λ chain. part_of chain ≡ bare_part spec.now entry.now) }
    {
        let rows = entry.assets.share()?;
        let pallets = copied_pallets(alloc, entry.pallets.items())?;
        let pools = copied_pools(alloc, entry.pools.items())?;
        let settings = Settings {
            site: Site {
                network: spec.network,
                chain: entry.chain,
            },
            rows,
            pallets: Listed::from_vec(pallets),
            fee_account: entry.fee_account,
            calls: entry.calls,
            locks: entry.locks,
            pools: Listed::from_vec(pools),
        };
        let queries = open_queries(alloc, entry.chain, entry.queries.items())?;
        let channels = channels_from(alloc, entry.chain, spec.channels.items())?;
        ChainState::new(alloc, settings, entry.rates.items(), queries, channels)
    }

    /// Places what the document says that an account holds, which the conditions on it never refuse.
    fn place_balance(&mut self, balance: &Balance) -> Result<(), AllocError>
        requires some { IsFalse (is_zero balance.now.asset) }
        requires listed { IsTrue (lists (listing (part_of self.old).rows)
            (listed_of (unit_of balance.now.asset))) }
        requires free { barred (part_of self.old).held balance.now.who
            (held_assets (bundle_of (balance.now.asset ∷ []))) ≡ None }
        ensures placed { OnOk result (part_of self.new
            ≡ record (part_of self.old) {
              held = with_balance (part_of self.old).held
                  balance.now;
            }) }
        ensures kept { OnErr result (part_of self.new ≡ part_of self.old) }
    {
        match self.place(&balance.who, balance.asset.copy()) {
            Ok(()) => Ok(()),
            Err(DepositFault::Memory) => Err(AllocError),
            Err(_) => unreachable!(),
        }
    }

    /// Makes what accounts hold when the chain opens, where none holds anything yet. Each asset is of
    /// a row, and an amount above 0 or an instance; no account has a fungible asset twice, and an
    /// instance is there once. An `Err` is out of memory, and then the first of them are there.
    pub fn place_all(&mut self, balances: &[Balance]) -> Result<(), AllocError>
        requires empty { (part_of self.old).held ≡ empty }
        requires balances { IsTrue (list_all (is_placeable (part_of self.old).rows) balances.now) }
        requires once { IsDistinct same_holding balances.now }
        ensures placed { OnOk result (part_of self.new
            ≡ record (part_of self.old) { held = with_balances empty balances.now }) }
        ensures left { OnErr result ((k : ℕ)
            × (part_of self.new
            ≡ record (part_of self.old) {
              held = with_balances empty (take k balances.now);
            })) }
    {
        for balance in balances {
            let _amount = balance.asset.amount(); // For the prover alone: it is below 2^128.
            self.place_balance(balance)?;
        }
        Ok(())
    }

    /// The chain as the network opens: just what the document says of it, and what its accounts hold by the document.
    pub fn open(alloc: Global, spec: &NetworkSpec, chain: ChainId) -> Result<ChainState, AllocError>
        requires openable { IsOpenable spec.now }
        requires listed { IsTrue (has_chain spec.now.chains chain) }
        ensures opened { IfOk result
            (λ state. IsSomeAnd (find (λ (c : ChainSpec). same_chain c.chain chain) spec.now.chains)
            (λ c. part_of state ≡ part_at spec.now c)) }
    {
        let Some(entry) = entry_of(spec.chains.items(), chain) else {
            unreachable!();
        };
        let mut state = ChainState::bare(alloc, spec, entry)?;
        state.place_all(entry.accounts.items())?;
        Ok(state)
    }
}
