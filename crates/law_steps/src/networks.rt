//! What holds of every world of a coherent network document: a law, as the contract of a function that does nothing.
ghost use Rattle.std.specs.Prelude.{◌≡◌, ◌≤◌, ℕ, List, Some, length, slice_get};
ghost use Rattle.network_spec.specs.declared.network.NetworkSpec.{NetworkSpec};
ghost use Rattle.network_steps.specs.Genesis.{first_world};
ghost use Rattle.network_steps.specs.Openable.{IsOpenable};
ghost use Rattle.network_steps.specs.Worlds.{Member, World};
ghost use Rattle.network_steps.specs.Steps.{Link, Step, last_world};
ghost use Rattle.law_steps.specs.Shapes.{NothingWaits};
ghost use Rattle.law_steps.specs.Worlds.{IsFirst};
ghost use Rattle.law_steps.specs.Drained.{by_deliveries};
ghost use Rattle.law_steps.specs.Kept.{IsCoherent, NetworkKept, NetworkKeptBetween, NetworkSound, NetworkRunsKept, NetworkAccountsRise, NetworkShaped};

use crate::{law_of_conserved_worlds, law_of_kept_runs, law_of_seven_message_shapes};

/// A network that can be opened and in which no cause is found begins as the laws of conserved worlds ask; so every world is conserved and backed,
/// whatever the steps; no chain has 2^127 or more of a listed asset, nor an instance twice; each checking account is at least what there is at
/// other homes and under way, and with what its chain has of the asset is no more than at first, and stays below 2^128-1. So it is of any two
/// worlds, the earlier taken as the first: no derivative's cover shrinks in between. Each unit, wherever it is, and each burn belongs to a
/// listed row.
pub fn law_of_conserved_networks()
    ensures first { (spec : NetworkSpec) → IsCoherent spec → IsFirst (first_world spec) }
    ensures kept { (spec : NetworkSpec) (steps : List Step)
        → IsCoherent spec → NetworkKept spec steps }
    ensures between { (spec : NetworkSpec) (steps : List Step)
        → IsCoherent spec → NetworkKeptBetween spec steps }
    ensures sound { (spec : NetworkSpec) (steps : List Step)
        → IsCoherent spec → NetworkSound spec steps }
{
    law_of_seven_message_shapes();
    law_of_conserved_worlds();
}

/// So is every moment inside a run of such a network: of a local execution wherever it comes, of a delivery after its first instruction, and
/// where memory is refused to one; and in none of them would a checking account pass its maximum, so `NotDepositable` never comes.
pub fn law_of_kept_network_runs()
    ensures kept { (spec : NetworkSpec) (steps : List Step)
        → IsCoherent spec → NetworkRunsKept spec steps }
    ensures rising { (spec : NetworkSpec) (steps : List Step)
        → IsCoherent spec → NetworkAccountsRise spec steps }
{
    law_of_conserved_networks();
    law_of_kept_runs();
}

/// In every network, coherent or not, each message that waits has one of the seven shapes, whatever the steps.
pub fn law_of_shaped_networks()
    ensures { (spec : NetworkSpec) (steps : List Step) → NetworkShaped spec steps }
{
    law_of_seven_message_shapes();
}

/// As a network opens nothing waits in its channels, and where it can open no chain has more than 16 pools.
pub fn law_of_opened_networks()
    ensures quiet { (spec : NetworkSpec) → NothingWaits (first_world spec) }
    ensures pools { (spec : NetworkSpec) (place : ℕ) (m : Member) → IsOpenable spec
        → slice_get (first_world spec) place ≡ Some m → length m.part.pools ≤ 16 }
{}

/// Steps with each drain as the deliveries that it makes lead to the world to which the steps lead; so the worlds of these are those of the steps,
/// and between them those of each drain.
pub fn law_of_single_deliveries()
    ensures { (order : List Link) (w : World) (steps : List Step)
        → last_world order w (by_deliveries order w steps) ≡ last_world order w steps }
{}
