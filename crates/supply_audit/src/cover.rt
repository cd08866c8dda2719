//! The positions of a derivative and of what covers it.
ghost use Rattle.std.specs.Prelude.{◌≡◌, ◌+◌, min, map, IfOk, IsTrue, Some, None, option_map, position, slice_get};
ghost use Rattle.std.specs.Option.{option_copied};
ghost use Rattle.asset_bundles.specs.Books.{most_burned};
ghost use Rattle.asset_bundles.specs.Totals.{total_value};
ghost use Rattle.trust_tables.specs.Chains.{path_of_site};
ghost use Rattle.chain_ids.specs.Chains.{same_chain};
ghost use Rattle.network_steps.specs.Tests.{has_path};
ghost use Rattle.chain_state.specs.PartOf.{part_of};
ghost use Rattle.supply_audit.specs.Places.{chain_table};
ghost use Rattle.supply_audit.specs.declared.figures.Carried.TheVariants.{Deposits, Withdrawals};
ghost use Rattle.supply_audit.specs.declared.figures.Figure.TheVariants.{Placed, Sent};
ghost use Rattle.supply_audit.specs.RowPlaces as places;
ghost use Rattle.supply_audit.specs.AssetPlaces.{ArePlaces, HavePlacesOf};
ghost use Rattle.supply_audit.specs.Covers.{cover_at, cover_between, cover_by, cover_of_row, cover_of_chain, number_of, of_cover, held_at, owed_at, coming_at, standing_at, own_touched, kept_touched};
ghost use Rattle.supply_audit.specs.Found.{IsRightOf};
ghost use Rattle.supply_audit.specs.Held.{IsHeldRight};

use crate::asset_places::{AssetPlaces, places_at};
use crate::audit::name_of;
use crate::figures::{Carried, Figure};
use crate::last_found::LastFound;
use crate::last_held::LastHeld;
use crate::messages::same_chain;
use crate::network_asset::NetworkAsset;
use crate::over_places::{chain_of, held_over, over_places, sent_over};
use crate::places::no_name;
use crate::stale::are_touched;
use crate::totals::none;
use crate::{Backing, Place};
use asset_bundles::Total;
use asset_lists::AssetId;
use chain_ids::ChainId;
use chain_state::ChainState;
use network_coherence::sovereign_account;
use std::alloc::{AllocError, Global};
use std::marker::Model;
use trust_tables::{AssetRole, AssetRow};

/// The positions of the rows of a derivative's asset, at its chain and at its reserve. Contracts see it as `Covered`.
#[derive(Drop)]
pub struct Cover {
    here: ChainId,
    there: ChainId,
    own: Vec<Place>,
    kept: Vec<Place>,
}

impl Model for Cover {
    ghost use Rattle.supply_audit.specs.Covered.{Covered};

    ghost Value = { Covered };

    ghost view = { λ c. record {
      here = c.here;
      there = c.there;
      own = c.own.items;
      kept = c.kept.items;
    } };
}

/// The index of the first chain of this name.
fn place_of(chains: &[ChainState], chain: ChainId) -> Option<usize>
    ensures { result ≡ position (λ c. same_chain (part_of c).site.chain chain) chains.now }
{
    chains.iter().position(|c| same_chain(name_of(c), chain))
}

/// The number of the first chain of this name, or how many chains there are.
pub fn number_of(chains: &[ChainState], chain: ChainId) -> usize
    ensures { result ≡ number_of (map chain_table (map part_of chains.now)) chain }
{
    place_of(chains, chain).unwrap_or(chains.len())
}

/// The chain of this number.
fn listed_chain(chains: &[ChainState], number: usize) -> Option<&ChainState>
    ensures { option_map (λ c. chain_table (part_of c)) (option_copied result)
        ≡ slice_get (map chain_table (map part_of chains.now)) number }
{
    chain_of(chains, number)
}

impl Cover {
    /// The positions of the derivative in a chain's row and of what covers it, by those of all rows of these chains. `row` is the index in the
    /// chain's list, from 0. There is nothing where the chain, the row or its reserve isn't there, or the row is native. An `Err` is out of
    /// memory.
    pub fn of(
        alloc: Global,
        chains: &[ChainState],
        index: &AssetPlaces,
        chain: ChainId,
        row: usize,
    ) -> Result<Option<Cover>, AllocError>
        requires { ArePlaces index.now.places.entries (map chain_table (map part_of chains.now)) }
        ensures { IfOk result (λ cover. cover
            ≡ cover_at (map chain_table (map part_of chains.now)) chain row) }
    {
        let number = number_of(chains, chain);
        match listed_chain(chains, number) {
            None => Ok(None),
            Some(here) => place_cover(alloc, chains, index, number, here, row),
        }
    }

    /// What the chain's account at the reserve has.
    fn held(&self, name: &mut AssetId, chains: &[ChainState]) -> Total
        ensures { total_value result ≡ min (held_at (map part_of chains.now) self.now) most_burned }
    {
        let who = sovereign_account(self.there, self.here);
        over_places(name, Figure::Account(who), chains, self.kept.as_slice())
    }

    /// What is on its way to the chain as deposits. An `Err` is out of memory.
    fn coming(&self, found: &mut LastFound, chains: &[ChainState]) -> Result<Total, AllocError>
        requires { IsRightOf found.old Deposits (map part_of chains.now) }
        ensures right { IsRightOf found.new Deposits (map part_of chains.now) }
        ensures sent { IfOk result (λ total. total_value total
            ≡ min (coming_at (map part_of chains.now) self.now) most_burned) }
    {
        let kept = self.kept.as_slice();
        sent_over(found, Carried::Deposits, self.here, chains, kept)
    }

    /// What the chain has, with what is on its way back as withdrawals. An `Err` is out of memory.
    fn standing(
        &self,
        found: &mut LastFound,
        name: &mut AssetId,
        chains: &[ChainState],
    ) -> Result<Total, AllocError>
        requires { IsRightOf found.old Withdrawals (map part_of chains.now) }
        ensures right { IsRightOf found.new Withdrawals (map part_of chains.now) }
        ensures standing { IfOk result (λ total. total_value total
            ≡ min (standing_at (map part_of chains.now) self.now) most_burned) }
    {
        standing_over(found, name, chains, self.there, self.own.as_slice())
    }

    /// What the chain has, with what is on its way to it and back.
    fn owed(&self, chains: &[ChainState]) -> Total
        ensures { total_value result ≡ min (owed_at (map part_of chains.now) self.now) most_burned }
    {
        let own = self.own.as_slice();
        let kept = self.kept.as_slice();
        owed_over(chains, self.here, self.there, own, kept)
    }
}

/// What is at a chain's own positions, with what is on its way to it as deposits and what is on its way back as withdrawals.
fn owed_over(
    chains: &[ChainState],
    here: ChainId,
    there: ChainId,
    own: &[Place],
    kept: &[Place],
) -> Total
    ensures { total_value result
        ≡ min (owed_at (map part_of chains.now)
        (record { here = here; there = there; own = own.now; kept = kept.now })) most_burned }
{
    let mut name = no_name();
    let deposits = Figure::Sent(Carried::Deposits, Some(here));
    let withdrawals = Figure::Sent(Carried::Withdrawals, Some(there));
    let placed = over_places(&mut name, Figure::Placed, chains, own);
    let coming = over_places(&mut name, deposits, chains, kept);
    let leaving = over_places(&mut name, withdrawals, chains, own);
    placed.sum(coming).sum(leaving)
}

/// What is at a chain's own positions, with what is on its way back to the reserve as withdrawals. An `Err` is out of memory.
fn standing_over(
    found: &mut LastFound,
    name: &mut AssetId,
    chains: &[ChainState],
    there: ChainId,
    own: &[Place],
) -> Result<Total, AllocError>
    requires { IsRightOf found.old Withdrawals (map part_of chains.now) }
    ensures right { IsRightOf found.new Withdrawals (map part_of chains.now) }
    ensures standing { IfOk result (λ total. total_value total ≡ min
        (places.over_places Placed (map part_of chains.now) own.now
        + places.over_places (Sent Withdrawals (Some there)) (map part_of chains.now) own.now)
        most_burned) }
{
    let placed = over_places(name, Figure::Placed, chains, own);
    let leaving = sent_over(found, Carried::Withdrawals, there, chains, own)?;
    Ok(placed.sum(leaving))
}

/// How a derivative is covered, by where it is: what the chain's account at the reserve has, and what is owed: what the chain has, what
/// is on its way to it as deposits, and what is on its way back as withdrawals. Both are 0 where there is none. It takes no memory.
pub fn backing_at(chains: &[ChainState], cover: &Option<Cover>) -> Backing
    ensures held { total_value result.held
        ≡ min (of_cover (held_at (map part_of chains.now)) cover.now) most_burned }
    ensures owed { total_value result.owed
        ≡ min (of_cover (owed_at (map part_of chains.now)) cover.now) most_burned }
{
    match cover {
        None => Backing {
            held: none(),
            owed: none(),
        },
        Some(cover) => Backing {
            held: cover.held(&mut no_name(), chains),
            owed: cover.owed(chains),
        },
    }
}

/// Whether a derivative's own positions, or those at its reserve, are at a chain that has changed, by a flag for each chain.
pub fn touched(stale: &[bool], cover: &Option<Cover>) -> (bool, bool)
    ensures own { result.0 ≡ own_touched stale.now cover.now }
    ensures kept { result.1 ≡ kept_touched stale.now cover.now }
{
    match cover {
        None => (false, false),
        Some(cover) => (
            are_touched(stale, cover.own.as_slice()),
            are_touched(stale, cover.kept.as_slice()),
        ),
    }
}

/// What the chain of a derivative has, with what is on its way back as withdrawals; 0 where there is none. An `Err` is out of memory.
pub(crate) fn standing(
    found: &mut LastFound,
    name: &mut AssetId,
    chains: &[ChainState],
    cover: &Option<Cover>,
) -> Result<Total, AllocError>
    requires { IsRightOf found.old Withdrawals (map part_of chains.now) }
    ensures right { IsRightOf found.new Withdrawals (map part_of chains.now) }
    ensures standing { IfOk result (λ total. total_value total
        ≡ min (of_cover (standing_at (map part_of chains.now)) cover.now) most_burned) }
{
    match cover {
        None => Ok(none()),
        Some(cover) => cover.standing(found, name, chains),
    }
}

/// What the account of a derivative's chain has at the reserve; 0 where there is none. An `Err` is out of memory.
pub(crate) fn held(
    found: &mut LastHeld,
    chains: &[ChainState],
    cover: &Option<Cover>,
) -> Result<Total, AllocError>
    requires { IsHeldRight found.old (map part_of chains.now) }
    ensures right { IsHeldRight found.new (map part_of chains.now) }
    ensures held { IfOk result (λ total. total_value total
        ≡ min (of_cover (held_at (map part_of chains.now)) cover.now) most_burned) }
{
    match cover {
        None => Ok(none()),
        Some(cover) => held_over(found, cover.there, cover.here, chains, &cover.kept),
    }
}

/// What is on its way to the chain of a derivative as deposits; 0 where there is none. An `Err` is out of memory.
pub(crate) fn coming(
    found: &mut LastFound,
    chains: &[ChainState],
    cover: &Option<Cover>,
) -> Result<Total, AllocError>
    requires { IsRightOf found.old Deposits (map part_of chains.now) }
    ensures right { IsRightOf found.new Deposits (map part_of chains.now) }
    ensures sent { IfOk result (λ total. total_value total
        ≡ min (of_cover (coming_at (map part_of chains.now)) cover.now) most_burned) }
{
    match cover {
        None => Ok(none()),
        Some(cover) => cover.coming(found, chains),
    }
}

/// What a derivative's line is made of. Each figure depends on one chain alone. It saturates at 2^160-1.
#[derive(Clone, Copy, Debug)]
pub struct CoverFigures {
    /// What the chain's account at the reserve has.
    pub held: Total,
    /// What is on its way to the chain as deposits, which the reserve sent.
    pub coming: Total,
    /// What the chain has, with what is on its way back as withdrawals.
    pub standing: Total,
}

/// The cover of a row with its reserve.
fn covering(
    alloc: Global,
    index: &AssetPlaces,
    number: usize,
    here: &ChainState,
    row: &AssetRow,
    other: usize,
    there: &ChainState,
) -> Result<Option<Cover>, AllocError>
    requires path { IsTrue (has_path (path_of_site (part_of here.now).site) row.now) }
    requires own { HavePlacesOf index.now.places.entries (number, chain_table (part_of here.now)) }
    requires kept { HavePlacesOf index.now.places.entries (other, chain_table (part_of there.now)) }
    ensures { IfOk result (λ cover. cover
        ≡ cover_between (number, chain_table (part_of here.now)) row.now other
        (Some (chain_table (part_of there.now)))) }
{
    let asset = NetworkAsset::listed_at(here.site(), row);
    let all = index.of_asset(&asset);
    let own = places_at(alloc, all, number)?;
    let kept = places_at(alloc, all, other)?;
    Ok(Some(Cover {
        here: name_of(here),
        there: name_of(there),
        own,
        kept,
    }))
}

/// The cover of a row, by its role.
fn row_cover(
    alloc: Global,
    chains: &[ChainState],
    index: &AssetPlaces,
    number: usize,
    here: &ChainState,
    row: &AssetRow,
) -> Result<Option<Cover>, AllocError>
    requires path { IsTrue (has_path (path_of_site (part_of here.now).site) row.now) }
    requires index { ArePlaces index.now.places.entries (map chain_table (map part_of chains.now)) }
    requires own { HavePlacesOf index.now.places.entries (number, chain_table (part_of here.now)) }
    ensures { IfOk result (λ cover. cover
        ≡ cover_by (map chain_table (map part_of chains.now))
        (number, chain_table (part_of here.now)) row.now row.now.role) }
{
    match &row.role {
        AssetRole::Native { .. } => Ok(None),
        AssetRole::Derivative { reserve } => {
            let other = number_of(chains, *reserve);
            match listed_chain(chains, other) {
                None => Ok(None),
                Some(there) => covering(alloc, index, number, here, row, other, there),
            }
        }
    }
}

/// The cover of the row at this index of a chain's list.
fn place_cover(
    alloc: Global,
    chains: &[ChainState],
    index: &AssetPlaces,
    number: usize,
    here: &ChainState,
    row: usize,
) -> Result<Option<Cover>, AllocError>
    requires index { ArePlaces index.now.places.entries (map chain_table (map part_of chains.now)) }
    requires own { HavePlacesOf index.now.places.entries (number, chain_table (part_of here.now)) }
    ensures { IfOk result (λ cover. cover
        ≡ cover_of_row (map chain_table (map part_of chains.now)) (number, chain_table (part_of here.now))
        (slice_get (part_of here.now).rows row)) }
{
    match here.rows().get(row) {
        None => Ok(None),
        Some(row) => row_cover(alloc, chains, index, number, here, row),
    }
}
