//! What the rows at positions count for.
ghost use Rattle.std.specs.Prelude.{◌≡◌, IfOk, min, map, Some, option_map, slice_get};
ghost use Rattle.std.specs.Option.{option_copied};
ghost use Rattle.asset_bundles.specs.Books.{most_burned};
ghost use Rattle.asset_bundles.specs.Totals.{total_value};
ghost use Rattle.chain_state.specs.PartOf.{part_of};
ghost use Rattle.trust_tables.specs.Accounts.{sovereign_account};
ghost use Rattle.supply_audit.specs.declared.figures.Carried.TheVariants.{Teleports};
ghost use Rattle.supply_audit.specs.declared.figures.Figure.TheVariants.{Account, Burned, Placed, Sent};
ghost use Rattle.asset_lists.specs.declared.units.AssetId.TheVariants.{Concrete};
ghost use Rattle.supply_audit.specs.Places as places;
ghost use Rattle.supply_audit.specs.Found.{IsRightOf};
ghost use Rattle.supply_audit.specs.Held.{IsHeldRight};
ghost use Rattle.supply_audit.specs.Supplies.{HasSums};
ghost use Rattle.supply_audit.specs.RowPlaces.{over_places, placed_over, flight_over, burned_over, place_share, share_in};
ghost use Rattle.supply_audit.specs.RowPlaces as at;

use crate::Place;
use crate::figures::{Carried, Figure};
use crate::last_found::LastFound;
use crate::last_held::LastHeld;
use crate::places::{figure, placed};
use crate::table::row_supply;
use crate::totals::{no_supply, none, sum};
use asset_bundles::Total;
use asset_lists::{AssetId, Kind};
use chain_ids::ChainId;
use chain_state::ChainState;
use ledgers::Supply;
use locations::Location;
use std::alloc::AllocError;

/// The chain of this number.
pub(crate) fn chain_of(chains: &[ChainState], number: usize) -> Option<&ChainState>
    ensures { option_map part_of (option_copied result)
        ≡ slice_get (map part_of chains.now) number }
{
    chains.get(number)
}

/// A figure of the row at this index of a chain's list.
fn row_share(name: &mut AssetId, which: Figure, chain: &ChainState, row: usize) -> Total
    ensures { total_value result ≡ min (share_in which row (Some (part_of chain.now))) most_burned }
{
    match chain.rows().get(row) {
        None => none(),
        Some(row) => figure(name, which, chain, &row.id, row.kind),
    }
}

/// A figure of the row at a position.
fn place_share(name: &mut AssetId, which: Figure, chains: &[ChainState], place: Place) -> Total
    ensures { total_value result
        ≡ min (place_share which (map part_of chains.now) place) most_burned }
{
    match chain_of(chains, place.chain) {
        None => none(),
        Some(chain) => row_share(name, which, chain, place.row),
    }
}

/// A figure of the rows at these positions. It saturates at 2^160-1. `name` has room for an id.
pub(crate) fn over_places(
    name: &mut AssetId,
    which: Figure,
    chains: &[ChainState],
    places: &[Place],
) -> Total
    ensures { total_value result
        ≡ min (over_places which (map part_of chains.now) places.now) most_burned }
{
    let mut total = none();
    for place in places {
        total = total.sum(place_share(name, which, chains, *place));
    }
    total
}

/// What was sent to a chain from these positions. It saturates at 2^160-1. Messages from one chain are looked at once for all of its positions. An
/// `Err` is out of memory.
pub(crate) fn sent_over(
    found: &mut LastFound,
    what: Carried,
    to: ChainId,
    chains: &[ChainState],
    places: &[Place],
) -> Result<Total, AllocError>
    requires { IsRightOf found.old what (map part_of chains.now) }
    ensures right { IsRightOf found.new what (map part_of chains.now) }
    ensures sent { IfOk result (λ total. total_value total
        ≡ min (at.over_places (Sent what (Some to)) (map part_of chains.now) places.now)
        most_burned) }
{
    let mut total = none();
    for place in places {
        total = total.sum(found.sum(what, chains, *place, Some(to))?);
    }
    Ok(total)
}

/// What the account of the second chain at the first has at these positions. It saturates at 2^160-1. The account is looked at once for all of
/// them. An `Err` is out of memory.
pub(crate) fn held_over(
    found: &mut LastHeld,
    there: ChainId,
    here: ChainId,
    chains: &[ChainState],
    places: &[Place],
) -> Result<Total, AllocError>
    requires { IsHeldRight found.old (map part_of chains.now) }
    ensures right { IsHeldRight found.new (map part_of chains.now) }
    ensures held { IfOk result (λ total. total_value total
        ≡ min (at.over_places (Account (sovereign_account there here))
        (map part_of chains.now) places.now) most_burned) }
{
    let mut total = none();
    for place in places {
        total = total.plus(found.amount(chains, *place, there, here)?);
    }
    Ok(total)
}

/// What is held under the row at this index of a chain's list, what was sent from there as teleports and what was burned there.
fn row_supply_at(chain: &ChainState, row: usize) -> Supply
    ensures { HasSums result (λ f. share_in f row (Some (part_of chain.now))) }
{
    match chain.rows().get(row) {
        None => no_supply(),
        Some(row) => row_supply(chain, row),
    }
}

/// What is at a position, what was sent from there as teleports and what was burned there.
fn place_supply(chains: &[ChainState], place: &Place) -> Supply
    ensures { HasSums result (λ f. at.place_share f (map part_of chains.now) place.now) }
{
    match chain_of(chains, place.chain) {
        None => no_supply(),
        Some(chain) => row_supply_at(chain, place.row),
    }
}

/// What is at a chain under an id, and what was burned under it. `name` has room for the id.
fn stock_under(name: &mut AssetId, chain: &ChainState, id: &Location, kind: Kind) -> (Total, Total)
    ensures home { total_value result.0
        ≡ min (places.figure Placed (part_of chain.now) (Concrete id.now) kind) most_burned }
    ensures burned { total_value result.1
        ≡ min (places.figure Burned (part_of chain.now) (Concrete id.now) kind) most_burned }
{
    name.assign_place(id);
    let home = placed(chain, name, kind);
    let burned = chain.burns().burned(name, kind);
    (home, burned)
}

/// The same of the row at this index of a chain's list.
fn row_stock(name: &mut AssetId, chain: &ChainState, row: usize) -> (Total, Total)
    ensures home { total_value result.0
        ≡ min (share_in Placed row (Some (part_of chain.now))) most_burned }
    ensures burned { total_value result.1
        ≡ min (share_in Burned row (Some (part_of chain.now))) most_burned }
{
    match chain.rows().get(row) {
        None => (none(), none()),
        Some(row) => stock_under(name, chain, &row.id, row.kind),
    }
}

/// The same of the row at a position.
fn place_stock(name: &mut AssetId, chains: &[ChainState], place: Place) -> (Total, Total)
    ensures home { total_value result.0
        ≡ min (at.place_share Placed (map part_of chains.now) place) most_burned }
    ensures burned { total_value result.1
        ≡ min (at.place_share Burned (map part_of chains.now) place) most_burned }
{
    match chain_of(chains, place.chain) {
        None => (none(), none()),
        Some(chain) => row_stock(name, chain, place.row),
    }
}

/// What is at a position, what was sent from there as teleports and what was burned there. The messages of a chain are looked at once for all of its
/// positions that are asked for one after another.
fn stock_of(
    found: &mut LastFound,
    name: &mut AssetId,
    chains: &[ChainState],
    place: Place,
) -> Result<Supply, AllocError>
    requires { IsRightOf found.old Teleports (map part_of chains.now) }
    ensures right { IsRightOf found.new Teleports (map part_of chains.now) }
    ensures supply { IfOk result (λ supply.
        HasSums supply (λ f. at.place_share f (map part_of chains.now) place)) }
{
    let (home, burned) = place_stock(name, chains, place);
    let flight = found.sum(Carried::Teleports, chains, place, None)?;
    Ok(Supply {
        home,
        flight,
        burned,
    })
}

/// The figures of these positions, as `supply_at` finds them. The messages of a chain are looked at once. An `Err` is out of memory.
pub(crate) fn supply_over(
    found: &mut LastFound,
    name: &mut AssetId,
    chains: &[ChainState],
    places: &[Place],
) -> Result<Supply, AllocError>
    requires { IsRightOf found.old Teleports (map part_of chains.now) }
    ensures right { IsRightOf found.new Teleports (map part_of chains.now) }
    ensures supply { IfOk result (λ supply.
        HasSums supply (λ f. at.over_places f (map part_of chains.now) places.now)) }
{
    let mut total = no_supply();
    for place in places {
        let more = stock_of(found, name, chains, *place)?;
        total = sum(total, more);
    }
    Ok(total)
}

/// The figures of these positions.
fn summed(chains: &[ChainState], places: &[Place]) -> Supply
    ensures { HasSums result (λ f. at.over_places f (map part_of chains.now) places.now) }
{
    let mut total = no_supply();
    for place in places {
        total = sum(total, place_supply(chains, place));
    }
    total
}

/// What is at these positions, what was sent from there as teleports and what was burned there. Each total saturates at 2^160-1.
pub fn supply_at(chains: &[ChainState], places: &[Place]) -> Supply
    ensures home { total_value result.home
        ≡ min (placed_over (map part_of chains.now) places.now) most_burned }
    ensures flight { total_value result.flight
        ≡ min (flight_over (map part_of chains.now) places.now) most_burned }
    ensures burned { total_value result.burned
        ≡ min (burned_over (map part_of chains.now) places.now) most_burned }
{
    summed(chains, places)
}
