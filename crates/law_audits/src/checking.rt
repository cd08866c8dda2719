//! What holds of checking accounts: a law, as the contract of a function that does nothing.
ghost use Rattle.std.specs.Prelude.{List};
ghost use Rattle.network_spec.specs.declared.network.NetworkSpec.{NetworkSpec};
ghost use Rattle.network_steps.specs.Genesis.{first_world, order_of};
ghost use Rattle.network_steps.specs.Openable.{IsOpenable};
ghost use Rattle.network_steps.specs.Steps.{Step};
ghost use Rattle.law_audits.specs.Ends.{StayBelowEnd};

use asset_bundles::law_of_traps;
use exec_rules::law_of_orderly_instructions;
use law_steps::law_of_opened_networks;
use ledgers::law_of_ledgers;
use versioned_xcm::law_of_messages;
use weight_trader::law_of_conserved_payments;

/// In every network that may open, coherent or not, whatever the steps: each checking account, with all that its chain
/// has of the asset, is below 2^128-1, in every world, inside each run with what it holds, and where memory is refused.
/// So no instruction is ever refused because a checking account would pass its maximum: `NotDepositable` never comes.
pub fn law_of_checking_accounts()
    ensures { (spec : NetworkSpec) (steps : List Step) → IsOpenable spec
        → StayBelowEnd (order_of spec) (first_world spec) steps }
{
    law_of_ledgers();
    law_of_conserved_payments();
    law_of_traps();
    law_of_orderly_instructions();
    law_of_messages();
    law_of_opened_networks();
}
