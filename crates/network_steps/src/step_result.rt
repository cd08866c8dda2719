//! What a step answers.
use operands::XcmError;
use versioned_xcm::MessageFault;
use xcm_program::Outcome;

/// What a step of the network answers. This project's own rule.
#[derive(Clone, Copy, Debug, PartialEq, Eq)]
pub enum StepResult {
    /// A program was handed to a chain: how its execution ended, or why it wasn't let in.
    Ran(Outcome),
    /// No message waits in the channel.
    Empty,
    /// The network has no such chain.
    NoSuchChain,
    /// No channel leads from the one chain to the other.
    NoSuchChannel,
    /// The account is that of a whole chain, which no caller has.
    SovereignCaller,
    /// The bytes are no message.
    Message(MessageFault),
    /// The message doesn't begin with ClaimAsset and ClearOrigin.
    NotAClaim,
    /// The claim was put into the channel, under this number.
    Sent(u64),
    /// The channel doesn't take the claim.
    Unsent(XcmError),
}
