//! The plan of a supply block.
ghost use Rattle.std.specs.Prelude.{◌≡◌, map, IfOk, string_bytes};
ghost use Rattle.chain_state.specs.PartOf.{part_of};
ghost use Rattle.supply_audit.specs.Places.{chain_table};
ghost use Rattle.report_text.specs.Block.{supply_block};
ghost use Rattle.report_text.specs.Plan.{plan_of, planned_block};

use crate::backings::{BackingEntry, plan_backings, push_backings};
use crate::natives::native_assets;
use crate::supplies::{SupplyEntry, plan_supplies, push_supplies};
use chain_state::ChainState;
use std::alloc::{AllocError, Global};
use std::marker::Model;

/// What a supply block says before any figure is known, and where its figures are found: for each line its beginning, and the positions of
/// the rows that count for it. It stays right while chains list what they listed when it was made. Contracts see it as `Plan`.
#[derive(Drop)]
pub struct SupplyPlan {
    supplies: Vec<SupplyEntry>,
    backings: Vec<BackingEntry>,
}

impl Model for SupplyPlan {
    ghost use Rattle.report_text.specs.Planned.{Plan};

    ghost Value = { Plan };

    ghost view = { λ p. record { supplies = p.supplies.items; backings = p.backings.items } };
}

impl SupplyPlan {
    /// The plan of the supply block of these chains. It takes time in proportion to the rows of all chains and the logarithm of their number,
    /// and for each derivative in proportion to the chains. An `Err` is out of memory.
    pub fn of(alloc: Global, chains: &[ChainState]) -> Result<SupplyPlan, AllocError>
        ensures { IfOk result (λ plan. plan ≡ plan_of (map chain_table (map part_of chains.now))) }
    {
        let natives = native_assets(alloc, chains)?;
        let supplies = plan_supplies(alloc, chains, &natives)?;
        let backings = plan_backings(alloc, chains)?;
        Ok(SupplyPlan { supplies, backings })
    }

    /// The supply block of these chains, which list what they listed when the plan was made: a line for each asset that some chain lists as
    /// native, by path, fungible first, and then for each chain in order a line for each derivative in listed order. A sum passes 2^128-1
    /// where its line has `over`. No row is searched for.
    pub fn block(&self, alloc: Global, chains: &[ChainState]) -> Result<String, AllocError>
        requires { self.now ≡ plan_of (map chain_table (map part_of chains.now)) }
        ensures { IfOk result (λ text. string_bytes text ≡ supply_block (map part_of chains.now)) }
    {
        self.text(alloc, chains)
    }

    /// Its entries.
    pub(crate) fn entries(self) -> (Vec<SupplyEntry>, Vec<BackingEntry>)
        ensures supplies { result.0.items ≡ self.supplies }
        ensures backings { result.1.items ≡ self.backings }
    {
        (self.supplies, self.backings)
    }

    /// The lines of the plan, with the figures of these chains.
    fn text(&self, alloc: Global, chains: &[ChainState]) -> Result<String, AllocError>
        ensures { IfOk result (λ text. string_bytes text
            ≡ planned_block (map part_of chains.now) self.now) }
    {
        let mut text = String::new(alloc);
        push_supplies(&mut text, chains, self.supplies.as_slice())?;
        push_backings(&mut text, chains, self.backings.as_slice())?;
        Ok(text)
    }
}
