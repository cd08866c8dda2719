//! The block.
ghost use Rattle.std.specs.Prelude.{◌≡◌, map, IfOk, string_bytes};
ghost use Rattle.chain_state.specs.PartOf.{part_of};
ghost use Rattle.report_text.specs.Block.{supply_block};

use crate::SupplyPlan;
use chain_state::ChainState;
use std::alloc::{AllocError, Global};

/// The supply block of a network: a line for each asset that some chain lists as native, by path, fungible first, and then for each chain
/// in order a line for each derivative in listed order. A sum passes 2^128-1 where its line has `over`.
pub fn supply_block(alloc: Global, chains: &[ChainState]) -> Result<String, AllocError>
    ensures { IfOk result (λ text. string_bytes text ≡ supply_block (map part_of chains.now)) }
{
    let plan = SupplyPlan::of(alloc, chains)?;
    plan.block(alloc, chains)
}
