//! Why instructions fail.

ghost use Rattle.std.specs.Prelude.{Some};
ghost use Rattle.operands.specs.Texts.{error_text};

use std::fmt;

/// Why an instruction failed (XCM format: `Error`, in the order of its indices). Its text is its name; that of `Trap`
/// has the code after it, as `Trap(5)`.
#[derive(Clone, Copy, Debug, PartialEq, Eq)]
pub enum XcmError {
    /// A number went past the range of its type.
    Overflow,
    /// The instruction isn't supported.
    Unimplemented,
    /// The location isn't trusted as a reserve of the asset.
    UntrustedReserveLocation,
    /// The location isn't trusted for teleports of the asset.
    UntrustedTeleportLocation,
    /// A location would have more junctions than one can hold.
    LocationFull,
    /// The location can't be seen from its other end.
    LocationNotInvertible,
    /// The origin register doesn't allow the instruction.
    BadOrigin,
    /// The location is none that the instruction can be about.
    InvalidLocation,
    /// The chain doesn't list the asset.
    AssetNotFound,
    /// An account couldn't give or take the asset.
    FailedToTransactAsset,
    /// The asset can't be withdrawn.
    NotWithdrawable,
    /// The location can't hold the asset.
    LocationCannotHold,
    /// The message would be larger than one can be.
    ExceedsMaxMessageSize,
    /// The destination can't take messages of this form.
    DestinationUnsupported,
    /// The channel to the destination takes no further message.
    Transport,
    /// No channel leads to the destination.
    Unroutable,
    /// No trap has these assets for this origin.
    UnknownClaim,
    /// The call of a Transact can't be decoded.
    FailedToDecode,
    /// The call of a Transact weighs more than was said.
    MaxWeightInvalid,
    /// The holding doesn't have the fees.
    NotHoldingFees,
    /// The fees don't pay for the weight.
    TooExpensive,
    /// A Trap instruction, with its code.
    Trap(u64),
    /// What the program expects isn't so.
    ExpectationFalse,
    /// No pallet has the index.
    PalletNotFound,
    /// The pallet has another name.
    NameMismatch,
    /// The pallet's version doesn't serve.
    VersionIncompatible,
    /// The holding would have more kinds of assets than it can.
    HoldingWouldOverflow,
    /// The message couldn't be exported.
    ExportError,
    /// A location can't be seen from the destination.
    ReanchorFailed,
    /// No exchange on these terms.
    NoDeal,
    /// The fees for the delivery weren't paid.
    FeesNotMet,
    /// A lock couldn't be set, noted or lifted.
    LockError,
    /// The origin may not do this.
    NoPermission,
    /// A location isn't anchored where it has to be.
    Unanchored,
    /// The asset can't be deposited.
    NotDepositable,
}

impl fmt::Display for XcmError {
    ghost output = { λ e. Some (error_text e) };

    fn fmt<W: fmt::Write>(&self, f: &mut fmt::Formatter<W>) -> fmt::Result {
        match self {
            XcmError::Overflow => write!(f, "Overflow"),
            XcmError::Unimplemented => write!(f, "Unimplemented"),
            XcmError::UntrustedReserveLocation => write!(f, "UntrustedReserveLocation"),
            XcmError::UntrustedTeleportLocation => write!(f, "UntrustedTeleportLocation"),
            XcmError::LocationFull => write!(f, "LocationFull"),
            XcmError::LocationNotInvertible => write!(f, "LocationNotInvertible"),
            XcmError::BadOrigin => write!(f, "BadOrigin"),
            XcmError::InvalidLocation => write!(f, "InvalidLocation"),
            XcmError::AssetNotFound => write!(f, "AssetNotFound"),
            XcmError::FailedToTransactAsset => write!(f, "FailedToTransactAsset"),
            XcmError::NotWithdrawable => write!(f, "NotWithdrawable"),
            XcmError::LocationCannotHold => write!(f, "LocationCannotHold"),
            XcmError::ExceedsMaxMessageSize => write!(f, "ExceedsMaxMessageSize"),
            XcmError::DestinationUnsupported => write!(f, "DestinationUnsupported"),
            XcmError::Transport => write!(f, "Transport"),
            XcmError::Unroutable => write!(f, "Unroutable"),
            XcmError::UnknownClaim => write!(f, "UnknownClaim"),
            XcmError::FailedToDecode => write!(f, "FailedToDecode"),
            XcmError::MaxWeightInvalid => write!(f, "MaxWeightInvalid"),
            XcmError::NotHoldingFees => write!(f, "NotHoldingFees"),
            XcmError::TooExpensive => write!(f, "TooExpensive"),
            XcmError::Trap(code) => write!(f, "Trap({code})"),
            XcmError::ExpectationFalse => write!(f, "ExpectationFalse"),
            XcmError::PalletNotFound => write!(f, "PalletNotFound"),
            XcmError::NameMismatch => write!(f, "NameMismatch"),
            XcmError::VersionIncompatible => write!(f, "VersionIncompatible"),
            XcmError::HoldingWouldOverflow => write!(f, "HoldingWouldOverflow"),
            XcmError::ExportError => write!(f, "ExportError"),
            XcmError::ReanchorFailed => write!(f, "ReanchorFailed"),
            XcmError::NoDeal => write!(f, "NoDeal"),
            XcmError::FeesNotMet => write!(f, "FeesNotMet"),
            XcmError::LockError => write!(f, "LockError"),
            XcmError::NoPermission => write!(f, "NoPermission"),
            XcmError::Unanchored => write!(f, "Unanchored"),
            XcmError::NotDepositable => write!(f, "NotDepositable"),
        }
    }
}
