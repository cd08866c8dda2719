//! What a network keeps, read.
ghost use Rattle.std.specs.Prelude.{◌≡◌, map};
ghost use Rattle.chain_state.specs.PartOf.{part_of};
ghost use Rattle.network_steps.specs.Worlds.{parts_of};
ghost use Rattle.chain_net.specs.Nets.{world_of, spec_of, is_stopped, trace_of};

use crate::Net;
use chain_state::ChainState;
use exec_base::Event;
use network_spec::NetworkSpec;

impl Net {
    /// The network document that the network was opened with.
    pub fn spec(&self) -> &NetworkSpec
        ensures { result.now ≡ spec_of self.now }
    {
        &self.spec
    }

    /// The chains, in the order of the document.
    pub fn chains(&self) -> &[ChainState]
        ensures { map part_of result.now ≡ parts_of (world_of self.now) }
    {
        self.chains.as_slice()
    }

    /// Whether a call has answered that memory was refused. Such a network is read, and not stepped any more.
    pub fn stopped(&self) -> bool
        ensures { result ≡ is_stopped self.now }
    {
        self.stopped
    }

    /// What the last step told, at the chain that acted; nothing where the step was refused.
    pub fn trace(&self) -> &[Event]
        ensures { result.now ≡ trace_of self.now }
    {
        let Some(place) = self.acted else {
            return &[];
        };
        match self.chains.get(place) {
            Some(chain) => chain.trace(),
            None => &[],
        }
    }
}
