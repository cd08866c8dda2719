//! A network of chains.
use crate::ChainSpec;
use chain_ids::ChainId;
use channel_parts::Channel;
use locations::NetworkId;
use plain_lists::Listed;

/// A channel, and the chain that it leads from.
#[derive(Drop)]
pub struct ChannelSpec {
    /// The chain that sends on it.
    pub from: ChainId,
    /// Where it leads to, and what it takes.
    pub channel: Channel,
}

/// A network: the relay chain, then its parachains rising by number, and the channels between them.
#[derive(Drop)]
pub struct NetworkSpec {
    /// The consensus network that the chains belong to.
    pub network: NetworkId,
    /// The chains, the relay chain first.
    pub chains: Listed<ChainSpec>,
    /// The channels, in listed order.
    pub channels: Listed<ChannelSpec>,
}
