//! Why a network isn't coherent.
ghost use Rattle.std.specs.Prelude.{Some};
ghost use Rattle.network_coherence.specs.Texts.{cause_text, incoherent_text};

use chain_ids::ChainId;
use std::fmt;

/// What makes a network incoherent, in the order in which it is looked for.
#[derive(Clone, Copy, Debug, PartialEq, Eq)]
pub enum IncoherentCause {
    /// Two rows of a chain have the same path.
    PathTwice,
    /// An asset's id isn't the shortest name of its location.
    IdNotNormal,
    /// A partner doesn't list the asset as native with this chain as partner.
    PartnerUnlisted,
    /// The reserve doesn't list the asset as native.
    ReserveUnlisted,
    /// An instance has an owner at two chains where it is at home.
    InstanceTwice,
    /// The chain's account at the reserve has less than the chain's accounts, or not one of their instances.
    NotBacked,
    /// A checking account is below what the asset's other homes hold.
    CheckingShort,
}

/// Why a network isn't coherent: the first cause, and the two chains that it is found at. Its text is the cause and the two chains.
#[derive(Clone, Copy, Debug, PartialEq, Eq)]
pub struct Incoherent {
    /// The cause.
    pub cause: IncoherentCause,
    /// The chain whose row or instance it is.
    pub first: ChainId,
    /// The partner, the reserve or the other home; the same chain where the cause is of one chain.
    pub second: ChainId,
}

impl fmt::Display for IncoherentCause {
    ghost output = { λ c. Some (cause_text c) };

    fn fmt<W: fmt::Write>(&self, f: &mut fmt::Formatter<W>) -> fmt::Result {
        match self {
            IncoherentCause::PathTwice => write!(f, "PathTwice"),
            IncoherentCause::IdNotNormal => write!(f, "IdNotNormal"),
            IncoherentCause::PartnerUnlisted => write!(f, "PartnerUnlisted"),
            IncoherentCause::ReserveUnlisted => write!(f, "ReserveUnlisted"),
            IncoherentCause::InstanceTwice => write!(f, "InstanceTwice"),
            IncoherentCause::NotBacked => write!(f, "NotBacked"),
            IncoherentCause::CheckingShort => write!(f, "CheckingShort"),
        }
    }
}

impl fmt::Display for Incoherent {
    ghost output = { λ i. Some (incoherent_text i) };

    fn fmt<W: fmt::Write>(&self, f: &mut fmt::Formatter<W>) -> fmt::Result {
        let cause = self.cause;
        let first = self.first;
        let second = self.second;
        write!(f, "{cause} {first} {second}")
    }
}
