//! The chains of a network, and where each is.
ghost use Rattle.std.specs.Prelude.{◌≡◌, ◌≢◌, ◌<◌, ◌++◌, [], ◌∷◌, length, Some};
ghost use Rattle.trust_tables.specs.Chains as chains;
ghost use Rattle.trust_tables.specs.Chains.{path_of_site};

use chain_ids::ChainId;
use locations::{Junction, Junctions, Location, NetworkId};

/// Where a chain is: its network, and which chain of it.
#[derive(Clone, Copy, Debug, PartialEq, Eq)]
pub struct Site {
    /// The network that the chain belongs to.
    pub network: NetworkId,
    /// Which chain of it.
    pub chain: ChainId,
}

impl Site {
    /// The junctions from the root of all networks to the chain. It takes no memory.
    pub fn path(&self) -> Junctions
        ensures { result ≡ path_of_site self.now }
    {
        let mut path = Junctions::empty();
        add(&mut path, Junction::GlobalConsensus(self.network));
        if let ChainId::Para(number) = self.chain {
            add(&mut path, Junction::Parachain(number));
        }
        path
    }
}

/// How the chain `from` names the chain `to`: up to the relay chain, down to a parachain, or up and down
/// between parachains. It takes no memory.
pub fn location_of(from: ChainId, to: ChainId) -> Location
    requires { from ≢ to }
    ensures { Some result ≡ chains.location_of from to }
{
    let parents = match from {
        ChainId::Relay => 0,
        ChainId::Para(_) => 1,
    };
    let mut location = Location {
        parents,
        interior: Junctions::empty(),
    };
    if let ChainId::Para(number) = to {
        add(&mut location.interior, Junction::Parachain(number));
    }
    location
}

/// One junction more, where there are fewer than eight.
fn add(junctions: &mut Junctions, junction: Junction)
    requires { length junctions.old < 8 }
    ensures { junctions.new ≡ junctions.old ++ junction ∷ [] }
{
    match junctions.push(junction) {
        Ok(()) => {}
        Err(_) => unreachable!(),
    }
}
