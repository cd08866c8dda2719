//! The audit of a network.
ghost use Rattle.std.specs.Prelude.{◌≡◌, min, map, find, option_map, slice_get, Some, None};
ghost use Rattle.std.specs.Option.{option_copied};
ghost use Rattle.asset_bundles.specs.Books.{most_burned};
ghost use Rattle.asset_bundles.specs.Totals.{total_value};
ghost use Rattle.locations.specs.Chains.{path_of};
ghost use Rattle.chain_ids.specs.Chains.{same_chain};
ghost use Rattle.chain_state.specs.PartOf.{part_of};
ghost use Rattle.law_coherence.specs.Networks.{asset_of_row};
ghost use Rattle.supply_audit.specs.Places.{figure, over_rows, total_sent, chain_table};
ghost use Rattle.supply_audit.specs.Supply.{supply_at_homes, teleports_in_flight, burned_at_homes, at_homes, chain_at, debt_at, debt_by, debt_of_row, held_at_reserve, owed_by, of_debt};
ghost use Rattle.supply_audit.specs.Covering.{CoversBy};

use crate::figures::{Carried, Figure};
use crate::messages::{are_idle, same_chain};
use crate::places::{if_home, over_rows};
use crate::totals::none;
use crate::{Backing, Supply};
use asset_bundles::Total;
use asset_lists::Kind;
use chain_ids::ChainId;
use chain_state::ChainState;
use locations::{Junctions, Location};
use network_coherence::sovereign_account;
use trust_tables::{AssetRole, AssetRow};

/// A figure of an asset over all its homes. It saturates at 2^160-1.
fn at_homes(
    which: Figure,
    chains: &[ChainState],
    home: &Junctions,
    id: &Location,
    kind: Kind,
) -> Total
    ensures { total_value result
        ≡ min (at_homes which (path_of home.now id.now, kind) (map part_of chains.now))
        most_burned }
{
    let mut total = none();
    for chain in chains {
        total = total.sum(if_home(which, chain, home, id, kind));
    }
    total
}

/// What the chains have of the asset of a path and a kind: at its homes, on its way as teleports that homes sent, and burned at its homes.
/// What is at a chain is read from running totals. It takes no memory.
pub fn supply(chains: &[ChainState], path: &Junctions, kind: Kind) -> Supply
    ensures home { total_value result.home
        ≡ min (supply_at_homes (path.now, kind) (map part_of chains.now)) most_burned }
    ensures flight { total_value result.flight
        ≡ min (teleports_in_flight (path.now, kind) (map part_of chains.now)) most_burned }
    ensures burned { total_value result.burned
        ≡ min (burned_at_homes (path.now, kind) (map part_of chains.now)) most_burned }
{
    let root = Junctions::empty();
    let id = Location {
        parents: 0,
        interior: path.copy(),
    };
    let teleports = Figure::Sent(Carried::Teleports, None);
    let home = at_homes(Figure::Placed, chains, &root, &id, kind);
    let flight = at_homes(teleports, chains, &root, &id, kind);
    let burned = at_homes(Figure::Burned, chains, &root, &id, kind);
    Supply {
        home,
        flight,
        burned,
    }
}

/// Which chain it is.
pub(crate) fn name_of(chain: &ChainState) -> ChainId
    ensures { result ≡ (part_of chain.now).site.chain }
{
    chain.site().chain
}

/// The first chain of this name.
fn find_chain(chains: &[ChainState], chain: ChainId) -> Option<&ChainState>
    ensures { option_copied result
        ≡ find (λ c. same_chain (part_of c).site.chain chain) chains.now }
{
    chains.iter().find(|c| same_chain(name_of(c), chain))
}

/// The chain of this name.
fn chain_at(chains: &[ChainState], chain: ChainId) -> Option<&ChainState>
    ensures { option_map part_of (option_copied result) ≡ chain_at (map part_of chains.now) chain }
{
    find_chain(chains, chain)
}

/// A figure of one chain, of the asset in another chain's row.
fn of_row(which: Figure, at: &ChainState, here: &ChainState, row: &AssetRow) -> Total
    ensures { total_value result
        ≡ min (over_rows (part_of at.now) (asset_of_row (chain_table (part_of here.now)) row.now)
        (figure which (part_of at.now))) most_burned }
{
    over_rows(which, at, &here.site().path(), &row.id, row.kind)
}

/// What a chain has sent to another of the asset in a row. Where no message waits, the rows aren't looked at.
fn sent_of_row(
    what: Carried,
    to: ChainId,
    at: &ChainState,
    here: &ChainState,
    row: &AssetRow,
) -> Total
    ensures { total_value result
        ≡ min (over_rows (part_of at.now) (asset_of_row (chain_table (part_of here.now)) row.now)
        (total_sent what (Some to) (part_of at.now).channels)) most_burned }
{
    if are_idle(Some(to), at.queues()) {
        return none();
    }
    of_row(Figure::Sent(what, Some(to)), at, here, row)
}

/// What the account of a derivative's chain has at the reserve.
fn held(here: &ChainState, there: &ChainState, row: &AssetRow) -> Total
    ensures { total_value result
        ≡ min (held_at_reserve (record {
          here = part_of here.now;
          there = part_of there.now;
          row = row.now;
        })) most_burned }
{
    let who = sovereign_account(name_of(there), name_of(here));
    of_row(Figure::Account(who), there, here, row)
}

/// What a derivative's chain has, with what is on its way to it as deposits and what is on its way back as withdrawals.
fn owed(here: &ChainState, there: &ChainState, row: &AssetRow) -> Total
    ensures { total_value result
        ≡ min (owed_by (record {
          here = part_of here.now;
          there = part_of there.now;
          row = row.now;
        })) most_burned }
{
    let placed = of_row(Figure::Placed, here, here, row);
    let coming = sent_of_row(Carried::Deposits, name_of(here), there, here, row);
    let leaving = sent_of_row(Carried::Withdrawals, name_of(there), here, here, row);
    placed.sum(coming).sum(leaving)
}

/// How a derivative is covered.
fn covering(here: &ChainState, there: &ChainState, row: &AssetRow) -> Backing
    ensures { CoversBy result
        (Some (record { here = part_of here.now; there = part_of there.now; row = row.now })) }
{
    Backing {
        held: held(here, there, row),
        owed: owed(here, there, row),
    }
}

/// Where there is no derivative.
fn nothing() -> Backing
    ensures { CoversBy result None }
{
    Backing {
        held: none(),
        owed: none(),
    }
}

/// How a row is covered, by its role.
fn row_backing(chains: &[ChainState], here: &ChainState, row: &AssetRow) -> Backing
    ensures { CoversBy result
        (debt_by (map part_of chains.now) (part_of here.now) row.now row.now.role) }
{
    match &row.role {
        AssetRole::Native { .. } => nothing(),
        AssetRole::Derivative { reserve } => match chain_at(chains, *reserve) {
            None => nothing(),
            Some(there) => covering(here, there, row),
        },
    }
}

/// How the row at this index of a chain's list is covered.
fn place_backing(chains: &[ChainState], here: &ChainState, row: usize) -> Backing
    ensures { CoversBy result
        (debt_of_row (map part_of chains.now) (part_of here.now)
        (slice_get (part_of here.now).rows row)) }
{
    match here.rows().get(row) {
        None => nothing(),
        Some(row) => row_backing(chains, here, row),
    }
}

/// The same in the list of the chain of this name.
fn chain_backing(chains: &[ChainState], chain: ChainId, row: usize) -> Backing
    ensures { CoversBy result (debt_at (map part_of chains.now) chain row) }
{
    match chain_at(chains, chain) {
        None => nothing(),
        Some(here) => place_backing(chains, here, row),
    }
}

/// How the derivative in a chain's row is covered: what the chain's account at the reserve has, and what is owed: what the chain has, what
/// is on its way to it as deposits, and what is on its way back as withdrawals. `row` is the index in the chain's list, from 0. Both are 0
/// where the chain, the row or its reserve isn't there, or the row is native. What is at a chain is read from running totals. It takes
/// no memory.
pub fn backing(chains: &[ChainState], chain: ChainId, row: usize) -> Backing
    ensures held { total_value result.held
        ≡ min (of_debt held_at_reserve (debt_at (map part_of chains.now) chain row)) most_burned }
    ensures owed { total_value result.owed
        ≡ min (of_debt owed_by (debt_at (map part_of chains.now) chain row)) most_burned }
{
    chain_backing(chains, chain, row)
}
