//! The lines of shipments that are lost.
ghost use Rattle.std.specs.Prelude.{◌≡◌, ◌++◌, IfOk, OnOk, OnErr};
ghost use Rattle.asset_bundles.specs.Books.{AreListed};
ghost use Rattle.asset_bundles.specs.declared.book.Cause.TheVariants.{LostTeleport};
ghost use Rattle.trust_tables.specs.Trust.{listing};
ghost use Rattle.exec_base.specs.Host.{burned_lines};
ghost use Rattle.chain_state.specs.PartOf.{part_of};

use crate::ChainState;
use asset_bundles::{Cause, Shipment};
use exec_base::Event;
use std::alloc::AllocError;

impl ChainState {
    /// The lines of a shipment that is lost, under the names of this chain.
    pub fn lost_lines(&self, shipment: &Shipment) -> Result<Vec<Event>, AllocError>
        requires listed { AreListed (listing (part_of self.now).rows) shipment.now.units }
        ensures lines { IfOk result (λ lines. lines.items ≡ burned_lines (part_of self.now)
            (λ unit. LostTeleport) shipment.now.units) }
    {
        let assets = shipment.list()?;
        self.lines(assets.as_slice(), Some(Cause::LostTeleport))
    }

    /// Tells these lines, after what was told.
    pub fn tell_lines(&mut self, mut lines: Vec<Event>) -> Result<(), AllocError>
        ensures told { OnOk result (part_of self.new
            ≡ record (part_of self.old) { events = (part_of self.old).events ++ lines.items }) }
        ensures kept { OnErr result (part_of self.new ≡ part_of self.old) }
    {
        self.events.append(&mut lines)
    }
}
