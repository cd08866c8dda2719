//! A channel from one chain to another.
ghost use Rattle.std.specs.Prelude.{◌≡◌};

use asset_lists::Asset;
use asset_wire::Version;
use chain_ids::ChainId;

/// A channel from a chain to another, as the network document says it.
#[derive(Drop)]
pub struct Channel {
    /// The chain that it leads to.
    pub to: ChainId,
    /// The version in which its messages are spelled.
    pub version: Version,
    /// How many messages it holds at most.
    pub capacity: u32,
    /// How long a message may be, in bytes.
    pub max_size: u32,
    /// What a message costs its sender, in a fungible asset under the sender's id; `None` where it costs nothing.
    pub fee: Option<Asset>,
}

impl Channel {
    /// The same channel. It takes no memory.
    pub fn copy(&self) -> Channel
        ensures same { result ≡ self.now }
    {
        let fee = match &self.fee {
            None => None,
            Some(fee) => Some(fee.copy()),
        };
        Channel {
            to: self.to,
            version: self.version,
            capacity: self.capacity,
            max_size: self.max_size,
            fee,
        }
    }
}
