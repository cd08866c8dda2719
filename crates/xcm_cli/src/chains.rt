//! The blocks of `balances` and `traps`, which are written a chain at a time.

ghost use Rattle.std.specs.Prelude.{◌≡◌, flat_map};
ghost use Rattle.chain_net.specs.Nets.{world_of};
ghost use Rattle.chain_state.specs.declared.state.ChainState.{ChainState};
ghost use Rattle.chain_state.specs.PartOf.{part_of};
ghost use Rattle.step_text.specs.Blocks.{balances_of, chain_traps_text};
ghost use Rattle.report_blocks.specs.Reads.{balances_block, traps_block};
ghost use Rattle.xcm_cli.specs.Pieces.{WritesInPieces};

use chain_net::Net;
use chain_state::ChainState;
use line_serving::{Status, write_text};
use report_text::{chain_balances, chain_traps};
use std::alloc::{AllocError, Global};
use xcm_io::Sink;

/// Writes what accounts hold, the checking accounts, and the locks, chain by chain.
pub(crate) fn write_balances<O: Sink>(
    alloc: Global,
    net: &Net,
    out: &mut O,
) -> Result<Option<Status>, AllocError>
    ensures { WritesInPieces (balances_block (world_of net.now))
        (O.written out.old) (O.written out.new) (O.faults out.old) (O.faults out.new) result }
{
    write_all_balances(alloc, net.chains(), out)
}

/// Writes those of these chains.
fn write_all_balances<O: Sink>(
    alloc: Global,
    chains: &[ChainState],
    out: &mut O,
) -> Result<Option<Status>, AllocError>
    ensures { WritesInPieces
        (flat_map (λ (c : ChainState). balances_of (part_of c)) chains.now)
        (O.written out.old) (O.written out.new) (O.faults out.old) (O.faults out.new) result }
{
    for chain in chains {
        match write_chain_balances(alloc, chain, out) {
            Ok(None) => {}
            Ok(Some(status)) => return Ok(Some(status)),
            Err(refused) => return Err(refused),
        }
    }
    Ok(None)
}

/// Writes those of a chain.
fn write_chain_balances<O: Sink>(
    alloc: Global,
    chain: &ChainState,
    out: &mut O,
) -> Result<Option<Status>, AllocError>
    ensures { WritesInPieces (balances_of (part_of chain.now))
        (O.written out.old) (O.written out.new) (O.faults out.old) (O.faults out.new) result }
{
    match chain_balances(alloc, chain) {
        Ok(lines) => Ok(write_text(out, &lines, None)),
        Err(refused) => Err(refused),
    }
}

/// Writes what is trapped, chain by chain.
pub(crate) fn write_traps<O: Sink>(
    alloc: Global,
    net: &Net,
    out: &mut O,
) -> Result<Option<Status>, AllocError>
    ensures { WritesInPieces (traps_block (world_of net.now))
        (O.written out.old) (O.written out.new) (O.faults out.old) (O.faults out.new) result }
{
    write_all_traps(alloc, net.chains(), out)
}

/// Writes what is trapped at these chains.
fn write_all_traps<O: Sink>(
    alloc: Global,
    chains: &[ChainState],
    out: &mut O,
) -> Result<Option<Status>, AllocError>
    ensures { WritesInPieces
        (flat_map (λ (c : ChainState). chain_traps_text (part_of c)) chains.now)
        (O.written out.old) (O.written out.new) (O.faults out.old) (O.faults out.new) result }
{
    for chain in chains {
        match write_chain_traps(alloc, chain, out) {
            Ok(None) => {}
            Ok(Some(status)) => return Ok(Some(status)),
            Err(refused) => return Err(refused),
        }
    }
    Ok(None)
}

/// Writes what is trapped at a chain.
fn write_chain_traps<O: Sink>(
    alloc: Global,
    chain: &ChainState,
    out: &mut O,
) -> Result<Option<Status>, AllocError>
    ensures { WritesInPieces (chain_traps_text (part_of chain.now))
        (O.written out.old) (O.written out.new) (O.faults out.old) (O.faults out.new) result }
{
    match chain_traps(alloc, chain) {
        Ok(lines) => Ok(write_text(out, &lines, None)),
        Err(refused) => Err(refused),
    }
}
