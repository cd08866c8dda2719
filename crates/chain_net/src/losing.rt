//! A cargo that no instruction took, at its sender.
ghost use Rattle.std.specs.Prelude.{◌≡◌, IfOk};
ghost use Rattle.trust_tables.specs.Trust.{listing};
ghost use Rattle.network_steps.specs.Acting.{lost_of, booking_lost, lost_lines};
ghost use Rattle.chain_state.specs.PartOf.{part_of};
ghost use Rattle.chain_net.specs.Sound.{IsListedCargo};

use asset_bundles::Way;
use chain_queues::Cargo;
use chain_state::ChainState;
use exec_base::Event;
use std::alloc::{AllocError, Global};

/// The lines of what is lost of the cargo, under the sender's names.
pub(crate) fn lines_of_loss(
    alloc: Global,
    sender: &ChainState,
    left: &Cargo,
) -> Result<Vec<Event>, AllocError>
    requires listed { IsListedCargo (listing (part_of sender.now).rows) left.now }
    ensures { IfOk result (λ lines. lines.items
        ≡ lost_lines (lost_of left.now) (part_of sender.now)) }
{
    match left {
        Cargo::Away(shipment) => match shipment.way() {
            Way::Teleport => sender.lost_lines(shipment),
            Way::Withdrawal => Ok(Vec::new(alloc)),
        },
        _ => Ok(Vec::new(alloc)),
    }
}

/// Ends the cargo: its sender books what is lost of it. It takes no memory.
pub(crate) fn lose(sender: &mut ChainState, left: Cargo)
    requires listed { IsListedCargo (listing (part_of sender.old).rows) left }
    ensures { part_of sender.new ≡ booking_lost (lost_of left) (part_of sender.old) }
{
    if let Cargo::Away(shipment) = left {
        sender.lose(shipment);
    }
}
