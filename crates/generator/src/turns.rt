//! Turns: the steps that can be drawn.
ghost use Rattle.std.specs.Prelude.{◌≡◌, ◌≤◌};
ghost use Rattle.generator.specs.Turns.{drawn};

use crate::draws::Draws;

/// A step between the relay chain and a parachain.
#[derive(Clone, Copy, Debug)]
pub(crate) enum Turn {
    /// An account of the relay chain sends this much to the parachain.
    Send {
        /// How much.
        value: u32,
        /// The parachain's number.
        para: u32,
    },
    /// An account of the parachain sends this much back to the relay chain.
    Return {
        /// How much.
        value: u32,
        /// The parachain's number.
        para: u32,
    },
    /// The oldest message from the relay chain to the parachain is delivered.
    Down {
        /// The parachain's number.
        para: u32,
    },
    /// The oldest message from the parachain to the relay chain is delivered.
    Up {
        /// The parachain's number.
        para: u32,
    },
}

/// Draws a turn.
#[tactic(auto, unfolding(crate::specs::Turns::drawn))]
pub(crate) fn draw(draws: &mut Draws) -> Turn
    ensures state { draws.new.state ≡ (drawn draws.old.state).0 }
    ensures drawn { result ≡ (drawn draws.old.state).1 }
{
    let kind = draws.below(4);
    let para = 2000 + draws.below(2);
    match kind {
        0 => Turn::Send {
            value: 1 + draws.below(1000),
            para,
        },
        1 => Turn::Return {
            value: 1 + draws.below(1000),
            para,
        },
        2 => Turn::Down { para },
        _ => Turn::Up { para },
    }
}
