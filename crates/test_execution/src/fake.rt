//! A chain state that has no channels.
ghost use Rattle.std.specs.Prelude.{◌≡◌, ◌<◌, ◌^◌, length, map, min, IsTrue, IfOk};
ghost use Rattle.std.specs.Ordering.{eq_by_cmp};
ghost use Rattle.std.specs.List.{IsDistinct, list_all};
ghost use Rattle.amounts.specs.Amounts.{amount};
ghost use Rattle.asset_lists.specs.Units.{unit_of};
ghost use Rattle.asset_lists.specs.Listed.{listed_cmp};
ghost use Rattle.asset_bundles.specs.Books.{most_burned};
ghost use Rattle.asset_bundles.specs.Totals.{total_value};
ghost use Rattle.ledgers.specs.Holdings.{all_holdings};
ghost use Rattle.asset_bundles.specs.Traps.{trapped_amount};
ghost use Rattle.trust_tables.specs.Chains.{path_of_site};
ghost use Rattle.trust_tables.specs.Trust.{listing};
ghost use Rattle.exec_base.specs.Part.{book_of};
ghost use Rattle.network_spec.specs.Networks.{same_holding};
ghost use Rattle.network_steps.specs.Tests.{have_paths, is_placeable};
ghost use Rattle.test_execution.specs.PartOf.{fake_part_of};
ghost use Rattle.test_execution.specs.Opening.{have_no_checkings, balance_of, opened_part};

use asset_bundles::{BurnBook, Total};
use asset_lists::{Asset, AssetId, Kind};
use chain_state::ChainState;
use exec_base::{Event, Settings};
use ledgers::all_holdings;
use network_spec::Balance;
use operands::OpenQuery;
use plain_lists::{Listed, SharedList};
use std::alloc::{AllocError, Global};
use trust_tables::{AssetRow, Site};

/// A chain that opens with no rate, no channel, no pallet and no checking account, and has
/// neither calls nor locks nor pools.
#[derive(Drop)]
pub struct FakeHost {
    pub(crate) chain: ChainState,
    alloc: Global,
}

/// What accounts hold, as balances.
fn balances_of(alloc: Global, accounts: Vec<([u8; 32], Asset)>) -> Result<Vec<Balance>, AllocError>
    ensures { IfOk result (λ balances. balances.items ≡ map balance_of accounts.items) }
{
    let mut balances = Vec::with_capacity(alloc, accounts.len())?;
    for (who, asset) in accounts {
        balances.push(Balance { who, asset })?;
    }
    Ok(balances)
}

impl FakeHost {
    /// A chain with these rows and open queries, on whose accounts just this is: each an
    /// account's 32 bytes, and an asset that it has. No two rows list the same asset, there are fewer
    /// than 2^32 of them, the id of each has a path of at most 8 junctions, and none has a checking
    /// account. Each asset is of a row, and an amount above 0 or an instance; no account has a
    /// fungible asset twice, and an instance is there once. An `Err` is out of memory.
    #[tactic(auto, using(crate::proofs::Unchecked::unchecked_may))]
    pub fn new(
        alloc: Global,
        site: Site,
        rows: Vec<AssetRow>,
        accounts: Vec<([u8; 32], Asset)>,
        queries: Vec<OpenQuery>,
    ) -> Result<FakeHost, AllocError>
        requires distinct { IsDistinct (eq_by_cmp listed_cmp) (listing rows.items) }
        requires few { length rows.items < 2 ^ 32 }
        requires paths { IsTrue (have_paths (path_of_site site) rows.items) }
        requires unchecked { IsTrue (have_no_checkings rows.items) }
        requires balances { IsTrue (list_all (is_placeable rows.items)
            (map balance_of accounts.items)) }
        requires once { IsDistinct same_holding (map balance_of accounts.items) }
        ensures opened { IfOk result (λ host. fake_part_of host
            ≡ opened_part site rows.items accounts.items queries.items) }
    {
        let balances = balances_of(alloc, accounts)?;
        let settings = Settings {
            site,
            rows: SharedList::from_vec(alloc, rows)?,
            pallets: Listed::from_vec(Vec::new(alloc)),
            fee_account: [0; 32],
            calls: false,
            locks: false,
            pools: Listed::from_vec(Vec::new(alloc)),
        };
        let mut chain = ChainState::new(alloc, settings, &[], queries, Vec::new(alloc))?;
        chain.place_all(balances.as_slice())?;
        Ok(FakeHost { chain, alloc })
    }

    /// What an account has of an asset's unit: the amount of a fungible asset in its smallest unit,
    /// and 1 of an instance that it has.
    pub fn amount(&self, who: &[u8; 32], a: &Asset) -> u128
        ensures { result ≡ amount (fake_part_of self.now).held (who.now, unit_of a.now) }
    {
        self.chain.ledger().held_of(who, a)
    }

    /// All that accounts hold: accounts by their bytes, and each one's assets in holding order. An
    /// `Err` is out of memory.
    pub fn accounts(&self) -> Result<Vec<([u8; 32], Asset)>, AllocError>
        ensures { IfOk result (λ list. list.items ≡ all_holdings (fake_part_of self.now).held) }
    {
        all_holdings(self.alloc, self.chain.ledger())
    }

    /// The amount of a fungible asset in all traps, in its smallest unit, or the number of instances
    /// of a class. It saturates at 2^160-1.
    pub fn trapped(&self, id: &AssetId, kind: Kind) -> Total
        ensures { total_value result ≡ min
            (trapped_amount id.now kind (fake_part_of self.now).traps.traps) most_burned }
    {
        self.chain.traps().total(id, kind)
    }

    /// What was told, oldest first.
    pub fn events(&self) -> &[Event]
        ensures { result.now ≡ (fake_part_of self.now).events }
    {
        self.chain.trace()
    }

    /// What was burned.
    pub fn burns(&self) -> &BurnBook
        ensures { result.now ≡ book_of (fake_part_of self.now) }
    {
        self.chain.burns()
    }
}
