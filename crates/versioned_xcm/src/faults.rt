//! Why bytes are no message, and why a program has none.

ghost use Rattle.std.specs.Prelude.{◌≡◌, Some};
ghost use Rattle.versioned_xcm.specs.Message.{message_fault_text};
ghost use Rattle.versioned_xcm.specs.declared.faults.MessageFault.TheVariants as messages;
ghost use Rattle.versioned_xcm.specs.declared.faults.EncodeFault.TheVariants as refusals;

use std::alloc::AllocError;
use std::fmt;
use thiserror::Error;

/// Why bytes are no message. The causes come in this order; its text is what a report says of it.
#[derive(Clone, Copy, Debug, PartialEq, Eq)]
pub enum MessageFault {
    /// More than 65,536 bytes.
    TooLong,
    /// The first byte is neither 3 nor 4.
    UnknownVersion,
    /// Not one program in its one spelling, with at most 100 instructions and 8 levels, and nothing after.
    NotAMessage,
    /// The program names an asset by bytes, which version 4 can't say.
    NotConvertible,
    /// There is no memory.
    Memory,
}

impl fmt::Display for MessageFault {
    ghost output = { λ e. Some (message_fault_text e) };

    fn fmt<W: fmt::Write>(&self, f: &mut fmt::Formatter<W>) -> fmt::Result {
        match self {
            MessageFault::TooLong => write!(f, "too long"),
            MessageFault::UnknownVersion => write!(f, "unknown version"),
            MessageFault::NotAMessage => write!(f, "not a message"),
            MessageFault::NotConvertible => write!(f, "not convertible"),
            MessageFault::Memory => write!(f, "out of memory"),
        }
    }
}

impl From<AllocError> for MessageFault {
    ghost from_gives = { λ _ e. e ≡ messages.Memory };

    fn from(_e: AllocError) -> MessageFault {
        MessageFault::Memory
    }
}

/// Why a program has no message.
#[derive(Clone, Copy, Debug, PartialEq, Eq, Error)]
pub enum EncodeFault {
    /// More than 100 instructions, 8 levels or 65,536 bytes.
    #[error("more than 100 instructions, 8 levels or 65,536 bytes")]
    ExceedsLimits,
    /// There is no memory.
    #[error("out of memory")]
    Memory,
}

impl From<AllocError> for EncodeFault {
    ghost from_gives = { λ _ e. e ≡ refusals.Memory };

    fn from(_e: AllocError) -> EncodeFault {
        EncodeFault::Memory
    }
}
