//! What holds of every world of a coherent network: laws, as the contracts of functions that do nothing.
ghost use Rattle.std.specs.Prelude.{◌≡◌, ℕ, List, Ok};
ghost use Rattle.weight_trader.specs.Purchases.{no_weight};
ghost use Rattle.xcm_program.specs.declared.instruction.Instruction.{Instruction};
ghost use Rattle.exec_base.specs.Part.{ChainPart};
ghost use Rattle.exec_rules.specs.Run.{Stage, machine_of, Reaches, GoesOnTo};
ghost use Rattle.exec_rules.specs.Instructions.{xcm};
ghost use Rattle.exec_rules.specs.declared.admission.Admitted.{Admitted};
ghost use Rattle.exec_rules.specs.Admission.{admitted};
ghost use Rattle.exec_rules.specs.Execution.{first_stage, IsAbandoned};
ghost use Rattle.network_steps.specs.Worlds.{World, chain_of};
ghost use Rattle.network_steps.specs.Acting.{caller};
ghost use Rattle.network_steps.specs.Steps.{name_at, Link, Step};
ghost use Rattle.law_coherence.specs.Headline.{IsKept};
ghost use Rattle.law_steps.specs.Soundness.{LawsBelow};
ghost use Rattle.law_steps.specs.Stepping.{ShapeLaws};
ghost use Rattle.law_steps.specs.Reading.{Decodes};
ghost use Rattle.law_steps.specs.Views.{views};
ghost use Rattle.law_steps.specs.Worlds.{IsFirst, AllKept, KeptBetween, IsExecution, begins, while_running, where_stopped, IsDelivery, arrives, while_delivered, StopsAt, where_delivery_stopped, AccountsMayRise, AllSound, RunsKept, AccountsAlwaysRise};

use crate::{law_of_admitted_messages, law_of_seven_message_shapes};
use asset_bundles::law_of_traps;
use exec_rules::{law_of_admission, law_of_orderly_instructions, law_of_readiness};
use ledgers::law_of_ledgers;
use versioned_xcm::law_of_messages;
use weight_trader::law_of_conserved_payments;

/// What the laws of the crates below say together: what calls of a chain, instructions, purchases and claims move, what admission and the end
/// of a run keep, what shape the messages of a step have, and that what is sent is read again. The laws of coherent networks rest on it.
pub fn law_of_premises_of_conservation()
    ensures below { LawsBelow }
    ensures shapes { ShapeLaws }
    ensures decodes { Decodes }
{
    law_of_ledgers();
    law_of_conserved_payments();
    law_of_traps();
    law_of_readiness();
    law_of_orderly_instructions();
    law_of_admission();
    law_of_seven_message_shapes();
    law_of_admitted_messages();
    law_of_messages();
}

/// From a first world, whatever the steps, every world has each asset as before, at its homes, under way between them and burned there; every
/// derivative is covered by what its reserve keeps; no chain has 2^127 or more of a listed asset, nor an instance twice; each checking account
/// is at least what there is at other homes and under way, and with what its chain has of the asset is no more than at first, and stays below
/// 2^128-1. So it is of any two worlds, the earlier taken as the first: no derivative's cover shrinks in between. And each unit, wherever
/// it is, and each burn belongs to a listed row.
pub fn law_of_conserved_worlds()
    ensures kept { (order : List Link) (w : World) (steps : List Step)
        → IsFirst w → AllKept order w steps }
    ensures between { (order : List Link) (w : World) (steps : List Step)
        → IsFirst w → KeptBetween order w steps }
    ensures sound { (order : List Link) (w : World) (steps : List Step)
        → IsFirst w → AllSound order w steps }
{
    law_of_premises_of_conservation();
}

/// So it is inside a local execution, wherever its run comes, with what the run holds counted; and where memory is refused to it, with what is
/// parked counted.
pub fn law_of_conserved_executions()
    ensures inside { (order : List Link) (w : World) (steps : List Step) (account : List ℕ)
        (program : List Instruction) (x : IsExecution order w steps account program) (a : Admitted)
        (g : Stage) → IsFirst w
        → admitted x.member.rules (caller account) x.member.rules.limit (begins x.member).queries
        program ≡ Ok a
        → Reaches xcm (first_stage x.member.rules (caller account) a (begins x.member)) g
        → IsKept (views w) (while_running x.world x.place (machine_of g)) }
    ensures stopped { (order : List Link) (w : World) (steps : List Step) (account : List ℕ)
        (program : List Instruction) (x : IsExecution order w steps account program)
        (now : ChainPart) → IsFirst w
        → IsAbandoned x.member.rules (caller account) x.member.rules.limit program (begins x.member)
        now → IsKept (views w) (where_stopped x.world x.place now) }
{
    law_of_premises_of_conservation();
}

/// So it is inside a delivery, wherever its run comes after its first instruction: the message is out of its channel, what the run holds is
/// counted, and a teleported cargo that it didn't take counts as burned. And where memory is refused to it, in the first instruction too, with
/// what is parked counted: its teleport has landed, or is burned.
pub fn law_of_conserved_deliveries()
    ensures inside { (order : List Link) (w : World) (steps : List Step)
        (d : IsDelivery order w steps) (a : Admitted) (g : Stage) → IsFirst w
        → admitted d.receiver.rules (name_at (chain_of d.receiver) (chain_of d.sender)) no_weight
        (arrives d.sender d.receiver d.message).queries d.message.program ≡ Ok a
        → GoesOnTo xcm (first_stage d.receiver.rules
        (name_at (chain_of d.receiver) (chain_of d.sender)) a
        (arrives d.sender d.receiver d.message)) g
        → IsKept (views w) (while_delivered d.world d.from d.sender d.to d.receiver
        (machine_of g)) }
    ensures stopped { (order : List Link) (w : World) (steps : List Step)
        (d : IsDelivery order w steps) (now : ChainPart)
        → IsFirst w → StopsAt d.sender d.receiver d.message now
        → IsKept (views w) (where_delivery_stopped d.world d.from d.sender d.to d.receiver now) }
{
    law_of_premises_of_conservation();
}

/// So no teleport of what a run holds is refused because a checking account would pass its maximum, in a local execution or in a delivery:
/// `NotDepositable` never comes.
pub fn law_of_rising_accounts()
    ensures executions { (order : List Link) (w : World) (steps : List Step) (account : List ℕ)
        (program : List Instruction) (x : IsExecution order w steps account program) (a : Admitted)
        (g : Stage) → IsFirst w
        → admitted x.member.rules (caller account) x.member.rules.limit (begins x.member).queries
        program ≡ Ok a
        → Reaches xcm (first_stage x.member.rules (caller account) a (begins x.member)) g
        → AccountsMayRise (machine_of g) }
    ensures deliveries { (order : List Link) (w : World) (steps : List Step)
        (d : IsDelivery order w steps) (a : Admitted) (g : Stage) → IsFirst w
        → admitted d.receiver.rules (name_at (chain_of d.receiver) (chain_of d.sender)) no_weight
        (arrives d.sender d.receiver d.message).queries d.message.program ≡ Ok a
        → Reaches xcm (first_stage d.receiver.rules
        (name_at (chain_of d.receiver) (chain_of d.sender)) a
        (arrives d.sender d.receiver d.message)) g → AccountsMayRise (machine_of g) }
{
    law_of_conserved_worlds();
    law_of_conserved_executions();
    law_of_conserved_deliveries();
}

/// The same of all runs at once: every moment of a local execution is kept, and of a delivery after its first instruction, also where memory is
/// refused; and wherever either comes no checking account would pass its maximum.
pub fn law_of_kept_runs()
    ensures kept { (order : List Link) (w : World) (steps : List Step)
        → IsFirst w → RunsKept order w steps }
    ensures rising { (order : List Link) (w : World) (steps : List Step)
        → IsFirst w → AccountsAlwaysRise order w steps }
{
    law_of_conserved_executions();
    law_of_conserved_deliveries();
    law_of_rising_accounts();
}
