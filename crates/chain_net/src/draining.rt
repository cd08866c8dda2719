//! The next channel, and drains.
ghost use Rattle.std.specs.Prelude.{◌≡◌, ◌≤◌, ◌^◌, ◌-◌, min, false, true, length, None, find, IfOk, OnOk, OnErr};
ghost use Rattle.std.specs.Option.{option_copied};
ghost use Rattle.network_steps.specs.Sends.{deliveries_left};
ghost use Rattle.network_steps.specs.Steps.{next_channel, drain, world_behind};
ghost use Rattle.network_steps.specs.Genesis.{order_of};
ghost use Rattle.chain_net.specs.Nets.{world_of, spec_of, is_stopped};
ghost use Rattle.chain_net.specs.Links.{waits_at};
ghost use Rattle.law_steps.specs.Shapes.{AllShaped};
ghost use Rattle.law_steps.specs.Kept.{IsCoherent};
ghost use Rattle.law_nets.specs.Promises.{KeepsAssets, PaysInFull, StopsWithAuthority};
ghost use Rattle.law_authority.specs.Speakers.{HaveAuthority};
ghost use Rattle.law_nets.specs.Stops.{DrainStops};

use crate::Net;
use crate::laws::law_of_reached_nets;
use crate::links::Link;
use chain_ids::ChainId;
use law_nets::{law_of_networks_with_pasts, law_of_stopped_messages};
use law_steps::law_of_drains_that_end;
use std::alloc::AllocError;

impl Net {
    /// Whether a message waits where the channel is.
    fn waits(&self, link: &Link) -> bool
        ensures { result ≡ waits_at self.now.chains.items link.now }
    {
        let Some(sender) = self.chains.get(link.sender) else {
            return false;
        };
        let Some(queue) = sender.queues().channels().get(link.channel) else {
            return false;
        };
        !queue.waiting.is_empty()
    }

    /// The first channel on which a message waits, with its position.
    fn first_waiting(&self) -> Option<&Link>
        ensures { option_copied result
            ≡ find (waits_at self.now.chains.items) self.now.links.items }
    {
        self.links.iter().find(|link| self.waits(link))
    }

    /// The first channel, in the order of the document, on which a message waits.
    pub fn next_channel(&self) -> Option<(ChainId, ChainId)>
        ensures { result ≡ next_channel (order_of (spec_of self.now)) (world_of self.now) }
    {
        let link = self.first_waiting()?;
        Some((link.from, link.to))
    }

    /// Delivers on the next channel until no message waits, and answers the number of deliveries, which saturates at 2^64-1. There are at
    /// most as many as messages wait and may still be sent. `Err` is out of memory: then the network is stopped.
    pub fn drain(&mut self) -> Result<u64, AllocError>
        requires running { is_stopped self.old ≡ false }
        ensures count { IfOk result (λ count. count
            ≡ min (length (drain (order_of (spec_of self.old)) (world_of self.old)))
            (2 ^ 64 - 1)) }
        ensures few { IfOk result (λ count. count ≤ deliveries_left (world_of self.old)) }
        ensures world { OnOk result (world_of self.new
            ≡ world_behind (world_of self.old)
            (drain (order_of (spec_of self.old)) (world_of self.old))) }
        ensures drained { OnOk result (next_channel (order_of (spec_of self.new))
            (world_of self.new) ≡ None) }
        ensures running { OnOk result (is_stopped self.new ≡ false) }
        ensures stopped { OnErr result (is_stopped self.new ≡ true) }
        ensures stops { OnErr result (DrainStops (order_of (spec_of self.old)) (world_of self.old)
            (world_of self.new)) }
        ensures spec { spec_of self.new ≡ spec_of self.old }
        // Whether the call answers or is out of memory: a coherent network keeps each asset, backs each derivative and
        // burns nothing in excess, and in every network each message that waits has one of the seven shapes.
        ensures kept { IsCoherent (spec_of self.old)
            → KeepsAssets (spec_of self.old) (world_of self.new) }
        ensures shaped { AllShaped (world_of self.new) }
        // Each delivery lowers no account but the sending chain's at the receiver, or a pool's, whose product doesn't fall.
        ensures authorized { OnOk result (HaveAuthority (world_of self.old)
            (drain (order_of (spec_of self.old)) (world_of self.old))) }
        ensures stops_authorized { OnErr result (StopsWithAuthority
            (order_of (spec_of self.old)) (world_of self.old) (world_of self.new)) }
        // In a coherent network what a delivery would take is paid, now and in the next drain.
        ensures paid { OnOk result (IsCoherent (spec_of self.old)
            → PaysInFull (spec_of self.old) (world_of self.new)) }
    {
        // For the prover alone.
        law_of_drains_that_end();
        law_of_reached_nets();
        law_of_networks_with_pasts();
        law_of_stopped_messages();
        let mut count: u64 = 0;
        'deliveries: while let Some((from, to)) = self.next_channel() {
            self.deliver(from, to)?;
            count = count.saturating_add(1);
        }
        Ok(count)
    }
}
