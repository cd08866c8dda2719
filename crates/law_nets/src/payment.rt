//! What is paid in every world of a coherent network: laws, as the contracts of functions that do nothing.
ghost use Rattle.std.specs.Prelude.{List};
ghost use Rattle.network_spec.specs.declared.network.NetworkSpec.{NetworkSpec};
ghost use Rattle.network_steps.specs.Genesis.{first_world, order_of};
ghost use Rattle.network_steps.specs.Worlds.{World};
ghost use Rattle.network_steps.specs.Steps.{Link, Step};
ghost use Rattle.law_steps.specs.Worlds.{IsFirst};
ghost use Rattle.law_steps.specs.Kept.{IsCoherent};
ghost use Rattle.law_authority.specs.Floors.{NoneSovereign};
ghost use Rattle.law_nets.specs.Paid.{HaveRoom, WithdrawalsPaid, TeleportsReceived, NoneLost};
ghost use Rattle.law_nets.specs.Covered.{ExecutionsCovered, DeliveriesCovered, AllCovered};

use law_authority::law_of_sovereign_locks;
use law_steps::{
    law_of_conserved_networks, law_of_matched_cargoes, law_of_premises_of_conservation,
};
use network_steps::law_of_constant_settings;

/// From a first world whose chains have room for a message's list and no locks on a whole chain's account, whatever the steps, each withdrawal
/// that its reserve admits is paid from its sender's account, and each teleport that its receiver admits is received, so that nothing of it is
/// lost.
pub fn law_of_paid_deliveries()
    ensures withdrawal { (order : List Link) (w : World) (steps : List Step)
        → IsFirst w → HaveRoom w → NoneSovereign w → WithdrawalsPaid order w steps }
    ensures teleport { (order : List Link) (w : World) (steps : List Step)
        → IsFirst w → HaveRoom w → TeleportsReceived order w steps }
    ensures lost { (order : List Link) (w : World) (steps : List Step)
        → IsFirst w → HaveRoom w → NoneLost order w steps }
{
    law_of_premises_of_conservation();
    law_of_matched_cargoes();
    law_of_constant_settings();
    law_of_sovereign_locks();
}

/// In a coherent network, whatever the steps, each withdrawal that its reserve admits is paid from its sender's account: what was lowered at the
/// sender to be redeemed is redeemed, unless the reserve doesn't admit the message. And each teleport that its receiver admits is received, also
/// where the asset has a checking account there; so where memory isn't refused only a teleport that isn't admitted is lost.
pub fn law_of_paid_messages()
    ensures withdrawal { (spec : NetworkSpec) (steps : List Step)
        → IsCoherent spec → WithdrawalsPaid (order_of spec) (first_world spec) steps }
    ensures teleport { (spec : NetworkSpec) (steps : List Step)
        → IsCoherent spec → TeleportsReceived (order_of spec) (first_world spec) steps }
    ensures lost { (spec : NetworkSpec) (steps : List Step)
        → IsCoherent spec → NoneLost (order_of spec) (first_world spec) steps }
{
    law_of_conserved_networks();
    law_of_paid_deliveries();
}

/// `NotWithdrawable` never comes: no instruction is refused because a checking account is below the amount, wherever the run of a local execution
/// is, from any world, or that of a delivered message, from a first world, whatever the steps; so neither is in a coherent network. Only
/// ReceiveTeleportedAsset can be refused so: where an admitted message begins with it, each account has as much as its list says; elsewhere there is no
/// origin, or it is no other chain, and no asset is trusted from it.
pub fn law_of_lowered_accounts()
    ensures executions { (order : List Link) (w : World) (steps : List Step)
        → ExecutionsCovered order w steps }
    ensures deliveries { (order : List Link) (w : World) (steps : List Step)
        → IsFirst w → DeliveriesCovered order w steps }
    ensures networks { (spec : NetworkSpec) (steps : List Step)
        → IsCoherent spec → AllCovered (order_of spec) (first_world spec) steps }
{
    law_of_premises_of_conservation();
    law_of_conserved_networks();
}
