//! The figures of assets and derivatives, read one after another.
ghost use Rattle.std.specs.Prelude.{◌≡◌, IfOk, map, min};
ghost use Rattle.asset_bundles.specs.Books.{most_burned};
ghost use Rattle.asset_bundles.specs.Totals.{total_value};
ghost use Rattle.chain_state.specs.PartOf.{part_of};
ghost use Rattle.supply_audit.specs.declared.figures.Carried.TheVariants.{Deposits, Teleports, Withdrawals};
ghost use Rattle.supply_audit.specs.Found.{IsRightOf};
ghost use Rattle.supply_audit.specs.Held.{IsHeldRight};
ghost use Rattle.supply_audit.specs.Renewed.{HasFigures, IsRenewed};
ghost use Rattle.supply_audit.specs.RowPlaces.{placed_over, flight_over, burned_over};

use crate::Place;
use crate::cover::{Cover, CoverFigures, coming, held, standing, touched};
use crate::last_found::LastFound;
use crate::last_held::LastHeld;
use crate::over_places::supply_over;
use crate::places::no_name;
use asset_lists::AssetId;
use chain_state::ChainState;
use ledgers::Supply;
use std::alloc::{AllocError, Global};

/// Chains whose figures are read, and what was found last of the messages between them and of an account at one: for assets of one chain, and for
/// derivatives of one chain and one reserve, these are looked at once.
#[derive(Drop)]
pub struct FigureReader<'a> {
    /// The chains.
    pub chains: &'a [ChainState],
    held: LastHeld,
    coming: LastFound,
    leaving: LastFound,
    teleports: LastFound,
    name: AssetId,
    ghost held_right: { IsHeldRight held (map part_of chains.now) },
    ghost coming_right: { IsRightOf coming Deposits (map part_of chains.now) },
    ghost leaving_right: { IsRightOf leaving Withdrawals (map part_of chains.now) },
    ghost teleports_right: { IsRightOf teleports Teleports (map part_of chains.now) },
}

impl<'a> FigureReader<'a> {
    /// A reader of these chains.
    pub fn of(alloc: Global, chains: &'a [ChainState]) -> FigureReader<'a>
        ensures { result.chains.now ≡ chains.now }
    {
        FigureReader {
            chains,
            held: LastHeld::nothing(alloc),
            coming: LastFound::nothing(alloc),
            leaving: LastFound::nothing(alloc),
            teleports: LastFound::nothing(alloc),
            name: no_name(),
        }
    }

    /// What is at these positions, what was sent from there as teleports and what was burned there. Each total saturates at 2^160-1. An `Err` is out of
    /// memory.
    pub fn supply(&mut self, places: &[Place]) -> Result<Supply, AllocError>
        ensures chains { self.new.chains.now ≡ self.old.chains.now }
        ensures home { IfOk result (λ supply. total_value supply.home
            ≡ min (placed_over (map part_of self.old.chains.now) places.now) most_burned) }
        ensures flight { IfOk result (λ supply. total_value supply.flight
            ≡ min (flight_over (map part_of self.old.chains.now) places.now) most_burned) }
        ensures burned { IfOk result (λ supply. total_value supply.burned
            ≡ min (burned_over (map part_of self.old.chains.now) places.now) most_burned) }
    {
        supply_over(&mut self.teleports, &mut self.name, self.chains, places)
    }

    /// The figures of a derivative; all are 0 where there is none. An `Err` is out of memory.
    pub fn figures(&mut self, cover: &Option<Cover>) -> Result<CoverFigures, AllocError>
        ensures chains { self.new.chains.now ≡ self.old.chains.now }
        ensures figures { IfOk result (λ figures. HasFigures figures
            (map part_of self.old.chains.now) cover.now) }
    {
        let held = held(&mut self.held, self.chains, cover)?;
        let coming = coming(&mut self.coming, self.chains, cover)?;
        let standing = standing(&mut self.leaving, &mut self.name, self.chains, cover)?;
        Ok(CoverFigures {
            held,
            coming,
            standing,
        })
    }

    /// The figures of a derivative, of which `known` has those that are still right: of the chains that have changed, by a flag for each, they
    /// are read anew. An `Err` is out of memory.
    pub fn renewed(
        &mut self,
        stale: &[bool],
        cover: &Option<Cover>,
        known: CoverFigures,
    ) -> Result<CoverFigures, AllocError>
        ensures chains { self.new.chains.now ≡ self.old.chains.now }
        ensures figures { IfOk result (λ figures. IsRenewed stale.now
            (map part_of self.old.chains.now) cover.now known figures) }
    {
        let (own, kept) = touched(stale, cover);
        let mut figures = known;
        if kept {
            figures.held = held(&mut self.held, self.chains, cover)?;
            figures.coming = coming(&mut self.coming, self.chains, cover)?;
        }
        if own {
            figures.standing = standing(&mut self.leaving, &mut self.name, self.chains, cover)?;
        }
        Ok(figures)
    }
}
