//! What each instruction and each run does, as conservation sees it: a law, as the contract of a function that does nothing.
ghost use Rattle.std.specs.Prelude.{◌≡◌, List, None};
ghost use Rattle.amounts.specs.Amounts.{empty};
ghost use Rattle.operands.specs.declared.weight.Weight.{Weight};
ghost use Rattle.xcm_program.specs.declared.instruction.Instruction.{Instruction};
ghost use Rattle.exec_rules.specs.Machine.{Machine, machine};
ghost use Rattle.exec_rules.specs.Run.{Stage, machine_of, Reaches};
ghost use Rattle.exec_rules.specs.Accounts.{IsBalanced};
ghost use Rattle.exec_rules.specs.Keeping.{IsAheadOf};
ghost use Rattle.exec_rules.specs.Outcome.{finished};
ghost use Rattle.exec_rules.specs.Instructions.{refusal_of, xcm};
ghost use Rattle.exec_rules.specs.Stopping.{leaves_on_oom};
ghost use Rattle.law_coherence.specs.Networks.{Table, Agrees};
ghost use Rattle.law_runs.specs.Safety.{AreLists, Safely};
ghost use Rattle.law_runs.specs.Runs.{IsSafeAt, Goes};

use asset_bundles::law_of_traps;
use exec_rules::{law_of_orderly_instructions, law_of_readiness};
use ledgers::law_of_ledgers;
use weight_trader::law_of_conserved_payments;

/// Where the chains agree, each accepted instruction is a safe change of its chain, with what the run holds counted, and leaves the run where the
/// next one is; so is a run, wherever it comes, and its end; and what is left where memory was refused inside an instruction.
pub fn law_of_safe_runs()
    ensures done { (n : List Table) (x : Instruction) (m : Machine)
        → Agrees n → AreLists x → refusal_of x m ≡ None → Goes n m (xcm.done x m) }
    ensures reached { (n : List Table) (most : Weight) (g h : Stage) → Agrees n → IsBalanced most g
        → IsAheadOf AreLists g → Reaches xcm g h → Goes n (machine_of g) (machine_of h) }
    ensures ended { (n : List Table) (m : Machine) → Agrees n
        → IsSafeAt n m → Safely m (machine (record m.regs { holding = empty }) (finished xcm m)) }
    ensures stopped { (n : List Table) (x : Instruction) (m now : Machine)
        → IsSafeAt n m → AreLists x → leaves_on_oom x m now → Safely m now }
{
    law_of_ledgers();
    law_of_conserved_payments();
    law_of_traps();
    law_of_readiness();
    law_of_orderly_instructions();
}
