//! Why a message isn't taken.
use thiserror::Error;

/// Why a channel doesn't take a message. This project's own rule, with the order of its causes.
#[derive(Clone, Copy, Debug, PartialEq, Eq, Error)]
pub enum PushFault {
    /// No channel leads to the chain.
    #[error("no channel leads there")]
    NoChannel,
    /// It is longer than the channel's messages may be.
    #[error("the message is too large")]
    TooLarge,
    /// As many messages wait as the channel holds.
    #[error("the channel is full")]
    Full,
}
