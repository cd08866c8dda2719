//! The channels that lead from the chain, by location.
ghost use Rattle.std.specs.Prelude.{◌≡◌, is_some, IfSome, find};
ghost use Rattle.std.specs.Option.{option_copied, option_map};
ghost use Rattle.trust_tables.specs.Trust.{is_location_of};
ghost use Rattle.exec_base.specs.Host.{fee_to, IsPrice};
ghost use Rattle.exec_base.specs.Sending.{channel_to_location};
ghost use Rattle.chain_queues.specs.declared.queues.Queue.{Queue};
ghost use Rattle.chain_queues.specs.Queues.{outgoing_of};
ghost use Rattle.chain_state.specs.PartOf.{part_of};

use crate::ChainState;
use asset_lists::Asset;
use chain_ids::ChainId;
use chain_queues::Queue;
use locations::Location;
use trust_tables::lies_at;

/// The first channel that leads to just that location.
fn queue_at<'a>(queues: &'a [Queue], here: ChainId, dest: &Location) -> Option<&'a Queue>
    ensures { option_copied result ≡ find (λ (q : Queue). is_location_of here q.channel.to dest.now)
        queues.now }
{
    queues
        .iter()
        .find(|queue| lies_at(queue.channel.to, here, dest))
}

impl ChainState {
    /// The channel that leads to just that location, with what waits in it.
    pub(crate) fn queue_to(&self, dest: &Location) -> Option<&Queue>
        ensures { option_map outgoing_of (option_copied result)
            ≡ channel_to_location (part_of self.now) dest.now }
    {
        queue_at(self.queues.channels(), self.settings.site.chain, dest)
    }

    /// Whether a channel leads to just that location.
    pub(crate) fn routes(&self, dest: &Location) -> bool
        ensures { result ≡ is_some (channel_to_location (part_of self.now) dest.now) }
    {
        self.queue_to(dest).is_some()
    }

    /// Whether a channel leads there and has a fee.
    pub(crate) fn has_fee(&self, dest: &Location) -> bool
        ensures { result ≡ is_some (fee_to (part_of self.now) dest.now) }
    {
        match self.queue_to(dest) {
            Some(queue) => queue.channel.fee.is_some(),
            None => false,
        }
    }

    /// The fee of the channel that leads there, if there is one and it has one: an amount above 0 of a fungible asset.
    pub(crate) fn fee_of(&self, dest: &Location) -> Option<Asset>
        ensures fee { result ≡ fee_to (part_of self.now) dest.now }
        ensures price { IfSome result IsPrice }
    {
        let queue = self.queue_to(dest)?;
        match &queue.channel.fee {
            None => None,
            Some(fee) => Some(fee.copy()),
        }
    }
}
