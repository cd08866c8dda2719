//! The supply block, kept between steps.
ghost use Rattle.std.specs.Prelude.{◌≡◌, map, ℕ, true, List, IfOk, IsTrue, OnOk, string_bytes};
ghost use Rattle.chain_state.specs.PartOf.{part_of};
ghost use Rattle.supply_audit.specs.Places.{chain_table};
ghost use Rattle.supply_audit.specs.Covers.{number_of};
ghost use Rattle.supply_audit.specs.Stale.{is_stale};
ghost use Rattle.exec_base.specs.Part.{ChainPart};
ghost use Rattle.report_text.specs.Block.{supply_block};
ghost use Rattle.report_text.specs.Plan.{plan_of};
ghost use Rattle.report_text.specs.Sheets.{IsWrittenOf, IsSheetOf, sheet_written};
ghost use Rattle.report_text.specs.Marks.{IsMarked};

use crate::SupplyPlan;
use crate::backing_lines::{
    BackingLine, are_backings_current, backing_lines, backings_length, push_backing_lines,
    renew_backings,
};
use crate::supply_lines::{
    SupplyLine, are_supplies_current, push_supply_lines, renew_supplies, supplies_length,
    supply_lines,
};
use chain_ids::ChainId;
use chain_state::ChainState;
use std::alloc::{AllocError, Global};
use std::marker::Model;
use supply_audit::number_of;

/// The lines of a supply block with the figures that they were written with, and for each chain whether it may have changed since: a block then
/// reads the figures of changed chains alone. Contracts see it as `Sheet`.
#[derive(Drop)]
pub struct SupplySheet {
    supplies: Vec<SupplyLine>,
    backings: Vec<BackingLine>,
    // A chain without a flag counts as changed.
    stale: Vec<bool>,
}

impl Model for SupplySheet {
    ghost use Rattle.report_text.specs.Kept.{Sheet};

    ghost Value = { Sheet };

    ghost view = { λ s. record {
      supplies = s.supplies.items;
      backings = s.backings.items;
      stale = s.stale.items;
    } };
}

/// A flag for each chain: none has changed.
fn no_changes(alloc: Global, chains: &[ChainState]) -> Result<Vec<bool>, AllocError> {
    let mut stale = Vec::new(alloc);
    for _ in chains {
        stale.push(false)?;
    }
    Ok(stale)
}

impl SupplySheet {
    /// The lines of a plan, with the figures of these chains. An `Err` is out of memory.
    pub fn of(
        alloc: Global,
        plan: SupplyPlan,
        chains: &[ChainState],
    ) -> Result<SupplySheet, AllocError>
        requires { plan ≡ plan_of (map chain_table (map part_of chains.now)) }
        ensures { IfOk result (λ sheet. IsWrittenOf (map part_of chains.now) sheet) }
    {
        let (supplies, backings) = plan.entries();
        let supplies = supply_lines(alloc, chains, supplies)?;
        let backings = backing_lines(alloc, chains, backings)?;
        let stale = no_changes(alloc, chains)?;
        Ok(SupplySheet {
            supplies,
            backings,
            stale,
        })
    }

    /// From now on the chain of this name counts as changed.
    pub fn mark(&mut self, chains: &[ChainState], chain: ChainId)
        ensures { IsMarked (number_of (map chain_table (map part_of chains.now)) chain)
            self.old self.new }
    {
        let number = number_of(chains, chain);
        if number < self.stale.len() {
            self.stale[number] = true;
        }
    }

    /// From now on every chain counts as changed.
    pub fn mark_all(&mut self)
        ensures supplies { self.new.supplies ≡ self.old.supplies }
        ensures backings { self.new.backings ≡ self.old.backings }
        ensures all { (chain : ℕ) → is_stale self.new.stale chain ≡ true }
    {
        self.stale.clear();
    }

    /// Reads the figures of changed chains anew, and writes those lines anew whose figures are others. It takes time in proportion to the lines,
    /// and for each that depends on a changed chain as its figures take. An `Err` is out of memory.
    pub fn renew(&mut self, alloc: Global, chains: &[ChainState]) -> Result<(), AllocError>
        requires { IsSheetOf (map part_of chains.now) self.old }
        ensures { OnOk result (IsWrittenOf (map part_of chains.now) self.new) }
    {
        let stale = self.stale.as_slice();
        renew_supplies(self.supplies.as_mut_slice(), alloc, chains, stale)?;
        renew_backings(self.backings.as_mut_slice(), alloc, chains, stale)?;
        self.stale = no_changes(alloc, chains)?;
        Ok(())
    }

    /// Whether no line depends on a chain that counts as changed: the lines are then those of the chains as they are.
    pub fn is_current(&self) -> bool
        ensures { IsTrue result → (parts : List ChainPart) → IsSheetOf parts self.now
            → IsWrittenOf parts self.now }
    {
        let stale = self.stale.as_slice();
        are_supplies_current(self.supplies.as_slice(), stale)
            && are_backings_current(self.backings.as_slice(), stale)
    }

    /// The lines, one after the other: the supply block of the chains of which they have the figures.
    pub fn text(&self, alloc: Global) -> Result<String, AllocError>
        ensures { IfOk result (λ text. (parts : List ChainPart) → IsWrittenOf parts self.now
            → string_bytes text ≡ supply_block parts) }
    {
        self.lines(alloc)
    }

    /// The lines, one after the other.
    fn lines(&self, alloc: Global) -> Result<String, AllocError>
        ensures { IfOk result (λ text. string_bytes text ≡ sheet_written self.now) }
    {
        let supplies = supplies_length(self.supplies.as_slice());
        let backings = backings_length(self.backings.as_slice());
        let mut text = String::with_capacity(alloc, supplies.saturating_add(backings))?;
        push_supply_lines(&mut text, self.supplies.as_slice())?;
        push_backing_lines(&mut text, self.backings.as_slice())?;
        Ok(text)
    }
}
