//! The sums that a report prints are the sums that are conserved: a law, as the contract of a function that does nothing.
ghost use Rattle.std.specs.Prelude.{List};
ghost use Rattle.std.specs.List.{AllByRecursion};
ghost use Rattle.network_spec.specs.declared.network.NetworkSpec.{NetworkSpec};
ghost use Rattle.network_steps.specs.Genesis.{first_world, order_of};
ghost use Rattle.network_steps.specs.Steps.{Step, worlds};
ghost use Rattle.law_steps.specs.Kept.{IsCoherent};
ghost use Rattle.law_audits.specs.Printed.{IsPrinted};

use law_steps::{law_of_conserved_networks, law_of_premises_of_conservation};

/// In a network that can be opened and in which no cause is found, whatever the steps, in every world what
/// is printed of an asset as home, flight and burned is together what it was at first, and below 2^127; and
/// of each derivative no more is printed as owed than as held, and that is below 2^127 too.
pub fn law_of_printed_networks()
    ensures { (spec : NetworkSpec) (steps : List Step) → IsCoherent spec
        → AllByRecursion (IsPrinted (first_world spec))
        (worlds (order_of spec) (first_world spec) steps) }
{
    law_of_premises_of_conservation();
    law_of_conserved_networks();
}
