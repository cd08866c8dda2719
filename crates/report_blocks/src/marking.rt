//! Chains that a step may change.
ghost use Rattle.std.specs.Prelude.{ℕ};
ghost use Rattle.network_steps.specs.Worlds.{World};
ghost use Rattle.supply_audit.specs.Covers.{number_of};
ghost use Rattle.chain_net.specs.Nets.{world_of};
ghost use Rattle.report_blocks.specs.Tables.{world_tables, IsKeptOf, CountsAsChanged};

use chain_ids::ChainId;
use chain_net::Net;
use report_text::SupplySheet;

/// The chain of this name counts as changed from now on.
pub(crate) fn mark(kept: &mut Option<SupplySheet>, net: &Net, chain: ChainId)
    ensures kept { (w : World) → IsKeptOf kept.old w → IsKeptOf kept.new w }
    ensures others { (number : ℕ) → CountsAsChanged kept.old number
        → CountsAsChanged kept.new number }
    ensures marked { CountsAsChanged kept.new (number_of (world_tables (world_of net.now)) chain) }
{
    if let Some(sheet) = kept {
        sheet.mark(net.chains(), chain);
    }
}

/// Every chain counts as changed from now on.
pub(crate) fn mark_all(kept: &mut Option<SupplySheet>)
    ensures kept { (w : World) → IsKeptOf kept.old w → IsKeptOf kept.new w }
    ensures marked { (number : ℕ) → CountsAsChanged kept.new number }
{
    if let Some(sheet) = kept {
        sheet.mark_all();
    }
}
