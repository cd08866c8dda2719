//! That nothing overflows in a coherent network: laws, as the contracts of functions that do nothing.
ghost use Rattle.std.specs.Prelude.{◌≡◌, ℕ, List, Ok};
ghost use Rattle.weight_trader.specs.Purchases.{no_weight};
ghost use Rattle.xcm_program.specs.declared.instruction.Instruction.{Instruction};
ghost use Rattle.exec_base.specs.Part.{ChainPart};
ghost use Rattle.exec_rules.specs.Run.{Stage, machine_of, Reaches};
ghost use Rattle.exec_rules.specs.Instructions.{xcm};
ghost use Rattle.exec_rules.specs.declared.admission.Admitted.{Admitted};
ghost use Rattle.exec_rules.specs.Admission.{admitted};
ghost use Rattle.exec_rules.specs.Execution.{first_stage, IsAbandoned};
ghost use Rattle.network_spec.specs.declared.network.NetworkSpec.{NetworkSpec};
ghost use Rattle.network_steps.specs.Genesis.{first_world, order_of};
ghost use Rattle.network_steps.specs.Worlds.{World, chain_of};
ghost use Rattle.network_steps.specs.Acting.{caller};
ghost use Rattle.network_steps.specs.Steps.{name_at, Link, Step};
ghost use Rattle.law_steps.specs.Worlds.{IsFirst, IsExecution, begins, IsDelivery, arrives, StopsAt};
ghost use Rattle.law_steps.specs.Kept.{IsCoherent};
ghost use Rattle.law_nets.specs.Barring.{NothingBarred, NeverBarred};
ghost use Rattle.law_nets.specs.Excess.{NoExcess, NoExcessIn, NoExcessEver};

use law_steps::{law_of_conserved_networks, law_of_premises_of_conservation};

/// From a first world, whatever the steps, wherever the run of a local execution or of a delivered message is, every account can take in what is
/// held and what another account gives. So no deposit passes 2^128-1, none is of an instance that has an owner, and none is refused where the
/// location has an account. So it is in every coherent network: `Overflow` and `InstanceExists` never come.
pub fn law_of_unbarred_deposits()
    ensures executions { (order : List Link) (w : World) (steps : List Step) (account : List ℕ)
        (program : List Instruction) (x : IsExecution order w steps account program) (a : Admitted)
        (g : Stage) → IsFirst w
        → admitted x.member.rules (caller account) x.member.rules.limit (begins x.member).queries
        program ≡ Ok a
        → Reaches xcm (first_stage x.member.rules (caller account) a (begins x.member)) g
        → NothingBarred (machine_of g) }
    ensures deliveries { (order : List Link) (w : World) (steps : List Step)
        (d : IsDelivery order w steps) (a : Admitted) (g : Stage) → IsFirst w
        → admitted d.receiver.rules (name_at (chain_of d.receiver) (chain_of d.sender)) no_weight
        (arrives d.sender d.receiver d.message).queries d.message.program ≡ Ok a
        → Reaches xcm (first_stage d.receiver.rules
        (name_at (chain_of d.receiver) (chain_of d.sender)) a
        (arrives d.sender d.receiver d.message)) g → NothingBarred (machine_of g) }
    ensures networks { (spec : NetworkSpec) (steps : List Step)
        → IsCoherent spec → NeverBarred (order_of spec) (first_world spec) steps }
{
    law_of_premises_of_conservation();
    law_of_conserved_networks();
}

/// No burn is ever booked because an amount passes its maximum or because an instance is there already: in no world that any steps lead to, from a first
/// world without such burns, nor from the first world of a coherent network document.
pub fn law_of_unsaturated_worlds()
    ensures worlds { (order : List Link) (w : World) (steps : List Step)
        → IsFirst w → NoExcessIn w → NoExcessEver order w steps }
    ensures networks { (spec : NetworkSpec) (steps : List Step)
        → IsCoherent spec → NoExcessEver (order_of spec) (first_world spec) steps }
{
    law_of_premises_of_conservation();
    law_of_conserved_networks();
}

/// Nor is it in the book of the chain that runs, inside a local execution or a delivery, wherever its run is, and where memory is refused to it.
pub fn law_of_unsaturated_runs()
    ensures executions { (order : List Link) (w : World) (steps : List Step) (account : List ℕ)
        (program : List Instruction) (x : IsExecution order w steps account program) (a : Admitted)
        (g : Stage) → IsFirst w → NoExcessIn w
        → admitted x.member.rules (caller account) x.member.rules.limit (begins x.member).queries
        program ≡ Ok a
        → Reaches xcm (first_stage x.member.rules (caller account) a (begins x.member)) g
        → NoExcess (machine_of g).part.burns }
    ensures stopped_executions { (order : List Link) (w : World) (steps : List Step)
        (account : List ℕ) (program : List Instruction)
        (x : IsExecution order w steps account program) (now : ChainPart) → IsFirst w → NoExcessIn w
        → IsAbandoned x.member.rules (caller account) x.member.rules.limit program (begins x.member)
        now → NoExcess now.burns }
    ensures deliveries { (order : List Link) (w : World) (steps : List Step)
        (d : IsDelivery order w steps) (a : Admitted) (g : Stage) → IsFirst w → NoExcessIn w
        → admitted d.receiver.rules (name_at (chain_of d.receiver) (chain_of d.sender)) no_weight
        (arrives d.sender d.receiver d.message).queries d.message.program ≡ Ok a
        → Reaches xcm (first_stage d.receiver.rules
        (name_at (chain_of d.receiver) (chain_of d.sender)) a
        (arrives d.sender d.receiver d.message)) g → NoExcess (machine_of g).part.burns }
    ensures stopped_deliveries { (order : List Link) (w : World) (steps : List Step)
        (d : IsDelivery order w steps) (now : ChainPart) → IsFirst w
        → NoExcessIn w → StopsAt d.sender d.receiver d.message now → NoExcess now.burns }
{
    law_of_premises_of_conservation();
}
