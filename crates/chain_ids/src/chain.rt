//! The name of a chain, and its text.
ghost use Rattle.std.specs.Prelude.{Some};
ghost use Rattle.chain_ids.specs.Texts.{chain_text};

use std::fmt;

/// A chain of a network: the relay chain, or one of its parachains. Its text is `relay`, or the parachain's number in decimal.
#[derive(Clone, Copy, Debug, PartialEq, Eq, PartialOrd, Ord, Hash)]
pub enum ChainId {
    /// The relay chain.
    Relay,
    /// The parachain of this number.
    Para(u32),
}

impl fmt::Display for ChainId {
    ghost output = { λ c. Some (chain_text c) };

    fn fmt<W: fmt::Write>(&self, f: &mut fmt::Formatter<W>) -> fmt::Result {
        match self {
            ChainId::Relay => write!(f, "relay"),
            ChainId::Para(number) => write!(f, "{number}"),
        }
    }
}
