//! What holds of the networks of inputs and of their reports: a law, as the contract of a function that does nothing.
ghost use Rattle.xcm_cli.specs.Promise.{ReadNetworksAreLawful, CoherentNetworksAreSecure, DrawnStepsAreLawful, DrawnStepsAreSecure};
ghost use Rattle.xcm_cli.specs.Told.{ReportsTellOfSteps};

use generator::law_of_document;
use law_audits::{law_of_checking_accounts, law_of_printed_networks};
use law_authority::{
    law_of_accounts_left_alone, law_of_authority, law_of_kept_worlds, law_of_permanent_burns,
    law_of_pool_products,
};
use law_nets::{
    law_of_lowered_accounts, law_of_paid_messages, law_of_stopped_messages, law_of_stopped_nets,
    law_of_unbarred_deposits, law_of_unsaturated_worlds,
};
use law_steps::{
    law_of_conserved_networks, law_of_kept_network_runs, law_of_opened_networks,
    law_of_shaped_networks,
};
use network_validity::law_of_read_networks;

/// What holds of every network holds of each that a document describes, whatever the steps; and so does what holds of coherent networks, where
/// none of the seven causes is found in it, as in the network of the steps that are drawn. And the report of an input is told by its steps.
pub(crate) fn law_of_inputs()
    ensures lawful { ReadNetworksAreLawful }
    ensures kept { CoherentNetworksAreSecure }
    ensures drawn_lawful { DrawnStepsAreLawful }
    ensures drawn_kept { DrawnStepsAreSecure }
    ensures told { ReportsTellOfSteps }
{
    law_of_read_networks();
    law_of_document();
    law_of_opened_networks();
    law_of_shaped_networks();
    law_of_authority();
    law_of_pool_products();
    law_of_accounts_left_alone();
    law_of_permanent_burns();
    law_of_kept_worlds();
    law_of_checking_accounts();
    law_of_conserved_networks();
    law_of_kept_network_runs();
    law_of_paid_messages();
    law_of_lowered_accounts();
    law_of_unsaturated_worlds();
    law_of_unbarred_deposits();
    law_of_printed_networks();
    law_of_stopped_nets();
    law_of_stopped_messages();
}
