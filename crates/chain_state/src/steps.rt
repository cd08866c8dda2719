//! The beginning and the end of a step at the chain.
ghost use Rattle.std.specs.Prelude.{◌≡◌, [], option_map};
ghost use Rattle.asset_bundles.specs.Books.{AreListed};
ghost use Rattle.asset_bundles.specs.Losing.{book_after_loss};
ghost use Rattle.trust_tables.specs.Trust.{listing};
ghost use Rattle.channel_parts.specs.declared.cargo.Cargo.{Cargo};
ghost use Rattle.chain_queues.specs.Queues.{waiting_of, oldest_to, popped};
ghost use Rattle.exec_base.specs.Part.{book_of};
ghost use Rattle.chain_state.specs.PartOf.{part_of};

use crate::ChainState;
use asset_bundles::Shipment;
use chain_ids::ChainId;
use chain_queues::{Cargo, Queued};
use std::mem::replace;

impl ChainState {
    /// Takes the oldest message that waits for the chain; `None` where no channel leads there, or where none waits. It takes no memory.
    pub fn take(&mut self, to: ChainId) -> Option<Queued>
        ensures oldest { option_map waiting_of result ≡ oldest_to to (part_of self.old).channels }
        ensures rest { part_of self.new
            ≡ record (part_of self.old) { channels = popped to (part_of self.old).channels } }
    {
        self.queues.pop(to)
    }

    /// Begins a step: nothing was told in it, and the message that is delivered came from that chain with that cargo. A local execution
    /// comes from the chain itself, with nothing. It takes no memory.
    pub fn begin(&mut self, from: ChainId, cargo: Cargo)
        requires none { (part_of self.old).cargo.cargo ≡ Cargo.Nothing }
        ensures begun { part_of self.new
            ≡ record (part_of self.old) {
              cargo = record { sender = from; cargo = cargo };
              events = [];
            } }
    {
        self.events.clear();
        self.sender = from;
        self.cargo = cargo;
    }

    /// Ends a step, and hands back the cargo that no call has ended. It takes no memory.
    pub fn finish(&mut self) -> Cargo
        ensures cargo { result ≡ (part_of self.old).cargo.cargo }
        ensures finished { part_of self.new
            ≡ record (part_of self.old) {
              cargo = record {
                sender = (part_of self.old).cargo.sender;
                cargo = Cargo.Nothing;
              };
            } }
    {
        replace(&mut self.cargo, Cargo::Nothing)
    }

    /// Ends a shipment that came nowhere: a teleport is booked as lost, under the ids of this chain. It takes no memory.
    pub fn lose(&mut self, shipment: Shipment)
        requires listed { AreListed (listing (part_of self.old).rows) shipment.units }
        ensures lost { part_of self.new
            ≡ record (part_of self.old) {
              burns = (book_after_loss shipment.way shipment.units
                  (book_of (part_of self.old))).burns;
            } }
    {
        shipment.lose(&mut self.book);
    }
}
