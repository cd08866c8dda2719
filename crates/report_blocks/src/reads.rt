//! What is read of a network for its report.
ghost use Rattle.std.specs.Prelude.{◌≡◌, IfOk, OnOk, Some, List, string_bytes};
ghost use Rattle.network_steps.specs.Genesis.{order_of};
ghost use Rattle.chain_net.specs.Nets.{world_of, spec_of};
ghost use Rattle.exec_base.specs.Part.{ChainPart};
ghost use Rattle.report_text.specs.Block as supply;
ghost use Rattle.report_text.specs.Sheets.{IsWrittenOf};
ghost use Rattle.report_blocks.specs.Tables.{IsKeptOf};
ghost use Rattle.report_blocks.specs.Reads as reads;

use chain_net::Net;
use network_coherence::coherent;
use report_text::{SupplySheet, balances_text, queues_text, traps_text};
use std::alloc::{AllocError, Global};
use step_text::opening_line;

/// The line that says whether the network is coherent, or else the first cause why not.
pub(crate) fn coherence_line(alloc: Global, net: &Net) -> Result<String, AllocError>
    ensures { IfOk result (λ text. string_bytes text ≡ reads.coherence_line (spec_of net.now)) }
{
    match coherent(net.spec()) {
        Ok(()) => opening_line(alloc, None),
        Err(found) => opening_line(alloc, Some(found)),
    }
}

/// What the accounts of all chains hold, their checking accounts, and their locks.
pub(crate) fn balances_block(alloc: Global, net: &Net) -> Result<String, AllocError>
    ensures { IfOk result (λ text. string_bytes text ≡ reads.balances_block (world_of net.now)) }
{
    balances_text(alloc, net.chains())
}

/// What is trapped at all chains.
pub(crate) fn traps_block(alloc: Global, net: &Net) -> Result<String, AllocError>
    ensures { IfOk result (λ text. string_bytes text ≡ reads.traps_block (world_of net.now)) }
{
    traps_text(alloc, net.chains())
}

/// What waits, channel by channel in the order of the document.
pub(crate) fn queues_block(alloc: Global, net: &Net) -> Result<String, AllocError>
    ensures { IfOk result (λ text. string_bytes text
        ≡ reads.queues_block (order_of (spec_of net.now)) (world_of net.now)) }
{
    queues_text(alloc, net.spec().channels.items(), net.chains())
}

/// What the network has of each asset that is native somewhere, and what backs each derivative; by what is kept of it, where no chain has changed.
pub(crate) fn first_supply_block(
    alloc: Global,
    net: &Net,
    kept: &Option<SupplySheet>,
) -> Result<String, AllocError>
    requires { IsKeptOf kept.now (world_of net.now) }
    ensures { IfOk result
        (λ text. string_bytes text ≡ reads.world_supply_block (world_of net.now)) }
{
    if let Some(sheet) = kept {
        if sheet.is_current() {
            return sheet.text(alloc);
        }
    }
    report_text::supply_block(alloc, net.chains())
}

/// The lines of a sheet, which are those of the network; the sheet is kept.
fn written(
    alloc: Global,
    kept: &mut Option<SupplySheet>,
    sheet: SupplySheet,
) -> Result<String, AllocError>
    ensures text { IfOk result (λ text. (parts : List ChainPart) → IsWrittenOf parts sheet
        → string_bytes text ≡ supply.supply_block parts) }
    ensures kept { OnOk result (kept.new ≡ Some sheet) }
{
    let text = sheet.text(alloc)?;
    *kept = Some(sheet);
    Ok(text)
}

/// The same by what is kept of the block, whose lines are then those of the network as it is.
pub(crate) fn supply_block(
    alloc: Global,
    net: &Net,
    kept: &mut Option<SupplySheet>,
) -> Result<String, AllocError>
    requires { IsKeptOf kept.old (world_of net.now) }
    ensures text { IfOk result
        (λ text. string_bytes text ≡ reads.world_supply_block (world_of net.now)) }
    ensures kept { OnOk result (IsKeptOf kept.new (world_of net.now)) }
{
    match kept.take() {
        None => report_text::supply_block(alloc, net.chains()),
        Some(mut sheet) => {
            sheet.renew(alloc, net.chains())?;
            written(alloc, kept, sheet)
        }
    }
}
