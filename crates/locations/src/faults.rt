//! Why a call on locations is refused.
use thiserror::Error;

/// A location holds no more than eight junctions.
#[derive(Clone, Copy, Debug, PartialEq, Eq, Error)]
#[error("more than eight junctions")]
pub struct Full;

/// Why a location can't be prefixed with another one, or seen from another chain.
#[derive(Clone, Copy, Debug, PartialEq, Eq, Error)]
pub enum LocationFault {
    /// It would have more than eight junctions, or the way back would.
    #[error("more than eight junctions")]
    Full,
    /// It would have more than 255 parents.
    #[error("more than 255 parents")]
    TooHigh,
}

impl From<Full> for LocationFault {
    ghost use Rattle.std.specs.Prelude.{◌≡◌};
    ghost use Rattle.locations.specs.declared.faults.LocationFault.TheVariants.{Full as full};

    ghost from_gives = { λ _ fault. fault ≡ full };

    fn from(_: Full) -> Self {
        LocationFault::Full
    }
}

/// Why a location has no path at a chain.
#[derive(Clone, Copy, Debug, PartialEq, Eq, Error)]
pub enum PathFault {
    /// It has more parents than the chain's context has junctions.
    #[error("more parents than the context has junctions")]
    PastRoot,
    /// The path would have more than eight junctions.
    #[error("a path of more than eight junctions")]
    Full,
}
