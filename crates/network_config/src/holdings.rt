//! The accounts of a chain, looked at beside one another: each of an asset's row and an account, or of an instance.
ghost use Rattle.std.specs.Prelude.{◌≡◌, ◌||◌, [], true, map, IfOk, OnOk, if◌then◌else◌, not};
ghost use Rattle.std.specs.Ordering.{eq_by_cmp};
ghost use Rattle.std.specs.List.{IsDistinct};
ghost use Rattle.asset_lists.specs.Listed.{listed_cmp};
ghost use Rattle.ledgers.specs.Ledgers.{listed_pair};
ghost use Rattle.trust_tables.specs.Trust.{listing};
ghost use Rattle.document_entries.specs.Answers.{Answers};
ghost use Rattle.document_entries.specs.declared.fault.Section.TheVariants as sections;
ghost use Rattle.network_config.specs.References.{flaw_at, each_in, account_flaws};
ghost use Rattle.network_config.specs.Holdings.{HoldingKey, holding_key_cmp, is_held, flaws_beside, is_of_holding, listed_number};
ghost use Rattle.network_config.specs.Holdings as spec;

use asset_lists::{Fun, Instance, Kind};
use document_entries::{NetworkFault, Place, Section, Stop};
use ledgers::{AccountKey, AssetTable};
use locations::Location;
use network_spec::Balance;
use std::alloc::{AllocError, Global};
use std::collections::BTreeSet;
use trust_tables::AssetRow;

/// The number of an asset's row with an account, or the number and an instance.
type Holding = ((u32, Option<AccountKey>), Option<Instance>);

/// What an entry whose asset has this row is of.
fn holding_of(row: u32, balance: &Balance) -> Holding
    ensures { result ≡ spec.holding_key_of row balance.now }
{
    match balance.asset.fun {
        Fun::Fungible(_) => ((row, Some(AccountKey::of(&balance.who))), None),
        Fun::NonFungible(instance) => ((row, None), Some(instance)),
    }
}

/// The assets that the rows list, by their locations.
fn places(alloc: Global, rows: &[AssetRow]) -> Result<Vec<(Location, Kind)>, AllocError>
    ensures { IfOk result (λ list. map listed_pair list.items ≡ listing rows.now) }
{
    let mut list = Vec::with_capacity(alloc, rows.len())?;
    for row in rows {
        AssetTable::push_listed(&mut list, &row.id, row.kind);
    }
    Ok(list)
}

/// The table of the assets that the rows list. A row's number is its index.
fn row_table(alloc: Global, rows: &[AssetRow]) -> Result<AssetTable, AllocError>
    requires distinct { IsDistinct (eq_by_cmp listed_cmp) (listing rows.now) }
    ensures { IfOk result (λ table. table ≡ listing rows.now) }
{
    let list = places(alloc, rows)?;
    // A table has fewer than 2^32 assets, and so many rows pass all memory.
    if list.len() > u32::MAX as usize {
        return Err(AllocError);
    }
    AssetTable::open(alloc, list)
}

/// The number of the row that lists the entry's asset.
fn listed_number(table: &AssetTable, balance: &Balance) -> Option<u32>
    ensures { result ≡ listed_number table.now balance.now }
{
    table.number_of(&balance.asset.id, balance.asset.kind())
}

/// Adds a holding, and says whether it wasn't one of them.
fn add(held: &mut BTreeSet<Holding>, holding: Holding) -> Result<bool, AllocError>
    ensures is_new { IfOk result (λ is_new. is_new ≡ not (is_held held.old.keys holding)) }
    ensures added { OnOk result ((q : HoldingKey) → is_held held.new.keys q
        ≡ (if eq_by_cmp holding_key_cmp holding q then true else is_held held.old.keys q)) }
{
    let is_new = held.insert(holding)?;
    Ok(is_new)
}

/// Adds what an entry is of, and refuses one whose asset no row lists, or that says anew what an earlier one has said.
fn add_account(
    held: &mut BTreeSet<Holding>,
    table: &AssetTable,
    place: Place,
    balance: &Balance,
) -> Result<(), Stop>
    ensures flaws { Answers result (flaw_at place
        (flaws_beside (listed_number table.now balance.now) held.old.keys balance.now)) }
    ensures added { OnOk result ((q : HoldingKey) → is_held held.new.keys q
        ≡ (is_of_holding (listed_number table.now balance.now) balance.now q
        || is_held held.old.keys q)) }
{
    let Some(row) = listed_number(table, balance) else {
        return Err(Stop::Fault(NetworkFault::BadValue(place)));
    };
    let holding = holding_of(row, balance);
    match add(held, holding) {
        Ok(true) => Ok(()),
        Ok(false) => Err(Stop::Fault(NetworkFault::Repeated(place))),
        Err(_) => Err(Stop::Memory),
    }
}

/// Refuses the accounts of a chain with these assets by the first of their entries that has a flaw.
pub(crate) fn check_accounts(
    alloc: Global,
    chain: Option<u32>,
    rows: &[AssetRow],
    accounts: &[Balance],
) -> Result<(), Stop>
    requires distinct { IsDistinct (eq_by_cmp listed_cmp) (listing rows.now) }
    ensures { Answers result (each_in (account_flaws rows.now) chain sections.Accounts 0 []
        accounts.now) }
{
    let table = row_table(alloc, rows)?;
    let mut held: BTreeSet<Holding> = BTreeSet::new(alloc);
    let mut index: u32 = 0;
    for balance in accounts {
        let place = Place {
            chain,
            section: Section::Accounts,
            index,
        };
        add_account(&mut held, &table, place, balance)?;
        index = index.saturating_add(1);
    }
    Ok(())
}
