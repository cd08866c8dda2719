//! The names that a location is made of: networks, bodies and junctions.
ghost use Rattle.std.specs.Prelude.{◌≡◌, fold};
ghost use Rattle.locations.specs.Hashing.{junction_input};

use std::hash::Hasher;

/// A consensus network, in the order of the XCM format.
#[derive(Clone, Copy, Debug, PartialEq, Eq, PartialOrd, Ord)]
pub enum NetworkId {
    /// The network whose first block has this hash.
    ByGenesis([u8; 32]),
    /// The network that left another one at this block.
    ByFork {
        /// The number of the first block of its own.
        block_number: u64,
        /// The hash of that block.
        block_hash: [u8; 32],
    },
    /// The Polkadot main network.
    Polkadot,
    /// The Kusama canary network.
    Kusama,
    /// The Westend test network.
    Westend,
    /// The Rococo test network.
    Rococo,
    /// The Wococo test network.
    Wococo,
    /// The Ethereum network of this chain id.
    Ethereum {
        /// The chain id, as EIP-155 defines it.
        chain_id: u64,
    },
    /// The Bitcoin network of Bitcoin Core.
    BitcoinCore,
    /// The Bitcoin Cash network.
    BitcoinCash,
}

/// A body of people that decides together.
#[derive(Clone, Copy, Debug, PartialEq, Eq, PartialOrd, Ord)]
pub enum BodyId {
    /// The only body of its chain.
    Unit,
    /// A body with a name of four bytes.
    Moniker([u8; 4]),
    /// A body with a number.
    Index(u32),
    /// The body that decides on behalf of all.
    Executive,
    /// The body of technical experts.
    Technical,
    /// The body that makes laws.
    Legislative,
    /// The body that judges.
    Judicial,
    /// The body that defends the system.
    Defense,
    /// The body that administers the system.
    Administration,
    /// The body that has the treasury.
    Treasury,
}

/// How much of a body speaks.
#[derive(Clone, Copy, Debug, PartialEq, Eq, PartialOrd, Ord)]
pub enum BodyPart {
    /// The body's own decision.
    Voice,
    /// This many members.
    Members {
        /// How many members.
        count: u32,
    },
    /// Just this part of it.
    Fraction {
        /// The part's numerator.
        nom: u32,
        /// The part's denominator.
        denom: u32,
    },
    /// At least this part of it.
    AtLeastProportion {
        /// The part's numerator.
        nom: u32,
        /// The part's denominator.
        denom: u32,
    },
    /// More than this part of it.
    MoreThanProportion {
        /// The part's numerator.
        nom: u32,
        /// The part's denominator.
        denom: u32,
    },
}

/// One step of a location, from a chain or a part of it to a part inside.
#[derive(Clone, Copy, Debug, PartialEq, Eq, PartialOrd, Ord)]
pub enum Junction {
    /// A parachain of the relay chain, by its number.
    Parachain(u32),
    /// An account of 32 bytes.
    AccountId32 {
        /// The network of the account, if it is named.
        network: Option<NetworkId>,
        /// The account's 32 bytes.
        id: [u8; 32],
    },
    /// An account by its number.
    AccountIndex64 {
        /// The network of the account, if it is named.
        network: Option<NetworkId>,
        /// The account's number.
        index: u64,
    },
    /// An account of 20 bytes.
    AccountKey20 {
        /// The network of the account, if it is named.
        network: Option<NetworkId>,
        /// The account's 20 bytes.
        key: [u8; 20],
    },
    /// A pallet of the chain, by its index in the runtime.
    PalletInstance(u8),
    /// A number whose meaning the location above it gives.
    GeneralIndex(u128),
    /// A key of which the first `length` bytes count.
    GeneralKey {
        /// How many bytes of the key count. Any byte is kept as it is.
        length: u8,
        /// The key's bytes, those that count first.
        key: [u8; 32],
    },
    /// The one child that a location is taken to have where the child's name isn't known.
    OnlyChild,
    /// A part of a body.
    Plurality {
        /// Which body.
        id: BodyId,
        /// How much of it.
        part: BodyPart,
    },
    /// A network, seen from the root of all.
    GlobalConsensus(NetworkId),
}

impl Junction {
    /// Hashes the number or the bytes that it says.
    pub(crate) fn feed<H: Hasher>(&self, state: &mut H)
        ensures { state.new ≡ fold H.write state.old (junction_input self.now) }
    {
        match self {
            Junction::Parachain(para) => state.write_u32(*para),
            Junction::AccountId32 { network: _, id } => state.write(id),
            Junction::AccountIndex64 { network: _, index } => state.write_u64(*index),
            Junction::AccountKey20 { network: _, key } => state.write(key),
            Junction::PalletInstance(index) => state.write_u8(*index),
            Junction::GeneralIndex(index) => state.write_u128(*index),
            Junction::GeneralKey { length: _, key } => state.write(key),
            Junction::OnlyChild => {}
            Junction::Plurality { id: _, part: _ } => {}
            Junction::GlobalConsensus(_) => {}
        }
    }
}

/// What fills a slot that has no junction.
impl Default for Junction {
    ghost use Rattle.std.specs.Prelude.{◌≡◌};
    ghost use Rattle.locations.specs.declared.grammar.Junction.TheVariants.{Parachain};

    ghost is_default = { λ junction. junction ≡ Parachain 0 };

    fn default() -> Junction {
        Junction::Parachain(0)
    }
}
