//! Steps, as lines ask for them.

ghost use Rattle.std.specs.Prelude.{Some};
ghost use Rattle.input_lines.specs.Words.{step_words};

use chain_ids::ChainId;
use plain_lists::Listed;
use std::fmt::{self, Write};

/// What a line asks for that asks for a step. Its text is the words of its line, without accounts and messages.
#[derive(Debug, Drop)]
pub enum Step {
    /// The local execution of a message on behalf of an account.
    Exec {
        /// Where the message is executed.
        chain: ChainId,
        /// The account.
        account: [u8; 32],
        /// The message's bytes. Contracts see them as their list.
        message: Listed<u8>,
    },
    /// The delivery of the oldest message of a channel.
    Deliver {
        /// The chain that sent it.
        from: ChainId,
        /// The chain that takes it.
        to: ChainId,
    },
    /// A claim that a chain sends in its own name.
    Claim {
        /// The chain that sends it.
        from: ChainId,
        /// The chain that it goes to.
        to: ChainId,
        /// The message's bytes. Contracts see them as their list.
        message: Listed<u8>,
    },
    /// Deliveries until no message waits.
    Drain,
    /// What the accounts hold.
    Balances,
    /// What is trapped.
    Traps,
    /// What waits in the channels.
    Queues,
    /// What the assets sum to.
    Supply,
}

impl fmt::Display for Step {
    ghost output = { λ step. Some (step_words step) };

    fn fmt<W: fmt::Write>(&self, f: &mut fmt::Formatter<W>) -> fmt::Result {
        match self {
            Step::Exec { chain, .. } => write!(f, "exec {chain}"),
            Step::Deliver { from, to } => write!(f, "deliver {from} {to}"),
            Step::Claim { from, to, .. } => write!(f, "claim {from} {to}"),
            Step::Drain => write!(f, "drain"),
            Step::Balances => write!(f, "balances"),
            Step::Traps => write!(f, "traps"),
            Step::Queues => write!(f, "queues"),
            Step::Supply => write!(f, "supply"),
        }
    }
}
