//! Chains by their numbers.
ghost use Rattle.std.specs.Prelude.{◌≡◌, ◌<◌, length, IsTrue, IfSome};
ghost use Rattle.std.specs.List.{position};
ghost use Rattle.chain_ids.specs.Chains.{same_chain};
ghost use Rattle.network_steps.specs.Worlds.{place_of};
ghost use Rattle.chain_net.specs.Order.{are_in_order};
ghost use Rattle.chain_net.specs.Nets.{world_of};

use crate::Net;
use chain_ids::ChainId;

/// The index of the chain among these, which rise; `None` where it isn't one of them. It takes no memory.
pub(crate) fn place_in(names: &[ChainId], chain: ChainId) -> Option<usize>
    requires order { IsTrue (are_in_order names.now) }
    ensures { result ≡ position (λ name. same_chain name chain) names.now }
{
    match names.binary_search(&chain) {
        Ok(place) => Some(place),
        Err(_) => None,
    }
}

impl Net {
    /// The index of the chain of that number; `None` where the network has no such chain. It takes no memory.
    pub(crate) fn place(&self, chain: ChainId) -> Option<usize>
        ensures place { result ≡ place_of (world_of self.now) chain }
        ensures there { IfSome result (λ place. place < length self.now.chains.items) }
    {
        place_in(self.names.as_slice(), chain)
    }
}
