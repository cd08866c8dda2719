//! What led to a network, and which of its calls may be swapped: laws, as the contracts of functions that do nothing.
ghost use Rattle.std.specs.Prelude.{◌≡◌, false};
ghost use Rattle.law_independence.specs.Acts.{Act, acts_at};
ghost use Rattle.law_independence.specs.Freedom.{TakesFreely};
ghost use Rattle.chain_net.specs.declared.net.Net.{Net};
ghost use Rattle.law_steps.specs.Shapes.{AllShaped};
ghost use Rattle.law_nets.specs.Runs.{HasPast};
ghost use Rattle.chain_net.specs.Nets.{world_of, spec_of, is_stopped};
ghost use Rattle.chain_net.specs.Calls.{AreCalled, AreSwapped};

use law_independence::law_of_independence;
use law_nets::{law_of_networks_with_pasts, law_of_pasts_through_steps};

/// To every network that isn't stopped, whoever hands it over, steps led from the first world of its document (`reached`): so what `law_nets` says
/// holds of it, and each message that waits has one of the seven shapes (`shaped`).
pub fn law_of_reached_nets()
    ensures reached { (n : Net) → is_stopped n ≡ false → HasPast (spec_of n) (world_of n) }
    ensures shaped { (n : Net) → is_stopped n ≡ false → AllShaped (world_of n) }
{
    law_of_pasts_through_steps();
    law_of_networks_with_pasts();
}

/// Two calls of `exec`, `deliver` or `claim` that act at different chains may be swapped: from networks of one world, both orders
/// give each call the same answer and the same trace, and lead to the same world. Where one of them delivers from a channel of the other's
/// chain, that channel must not be empty, and no send of the other on it may answer Transport.
pub fn law_of_swapped_calls()
    ensures { (s t : Act) (first second : Net) (a : AreCalled s t first) (b : AreCalled t s second)
        → world_of second ≡ world_of first
        → (acts_at s ≡ acts_at t → ⊥)
        → TakesFreely (world_of first) s t → TakesFreely (world_of first) t s → AreSwapped a b }
{
    law_of_independence();
}
