//! Which steps may be swapped: laws, as the contracts of functions that do nothing.
ghost use Rattle.std.specs.Prelude.{◌≡◌, List, Some, None};
ghost use Rattle.asset_bundles.specs.Bundles.{Bundle};
ghost use Rattle.chain_ids.specs.declared.chain.ChainId.{ChainId};
ghost use Rattle.locations.specs.declared.relative.Location.{Location};
ghost use Rattle.operands.specs.declared.weight.Weight.{Weight};
ghost use Rattle.xcm_program.specs.declared.instruction.Instruction.{Instruction};
ghost use Rattle.channel_parts.specs.Channels.{Waiting};
ghost use Rattle.chain_queues.specs.Queues.{oldest_to};
ghost use Rattle.exec_base.specs.Part.{ChainPart};
ghost use Rattle.exec_rules.specs.declared.rules.ChainRules.{ChainRules};
ghost use Rattle.network_steps.specs.Acting.{acted};
ghost use Rattle.network_steps.specs.Steps.{next_world, Link};
ghost use Rattle.network_steps.specs.Worlds.{World};
ghost use Rattle.law_independence.specs.Acts.{Act, acts_at, step_of, stepped_by, takes_from};
ghost use Rattle.law_independence.specs.Freedom.{RunsCalmly, TakesFreely, AreFree};
ghost use Rattle.law_independence.specs.Beside.{beside, IsNotEmpty, RanBeside};

use network_steps::law_of_constant_settings;

/// A program comes to the same at a chain whether or not a delivery takes the oldest message of one of the chain's channels meanwhile and
/// books a teleport that it loses, where that channel isn't empty and no send of the program on it answers Transport. And whatever a program
/// sends, the oldest message of a channel stays the oldest.
pub fn law_of_runs_beside_deliveries()
    ensures ran { (to : ChainId) (lost : Bundle) (rules : ChainRules) (origin : Location)
        (credit : Weight) (program : List Instruction) (p : ChainPart)
        → IsNotEmpty to p → RunsCalmly to rules origin credit program p
        → RanBeside to lost (acted rules origin credit program p)
        (acted rules origin credit program (beside to lost p)) }
    ensures oldest { (to : ChainId) (rules : ChainRules) (origin : Location) (credit : Weight)
        (program : List Instruction) (p : ChainPart) (x : Waiting)
        → oldest_to to p.channels ≡ Some x
        → oldest_to to (acted rules origin credit program p).part.channels ≡ Some x }
{}

/// In every network, coherent or not, two steps that act at different chains may be swapped: both orders lead to the same world, and each
/// step has the same answer and the same trace in both. An execution acts at its chain, a delivery at its receiver, a claim at its sender.
/// Where one of them takes from a channel of the other's chain, it must not find that channel empty, and no send of the other on it may
/// answer Transport.
pub fn law_of_independence()
    ensures step { (order : List Link) (w : World) (t : Act)
        → next_world order w (step_of t) ≡ (stepped_by w t).world }
    ensures free { (w : World) (s t : Act)
        → (acts_at s ≡ acts_at t → ⊥) → TakesFreely w s t → TakesFreely w t s → AreFree w s t }
{
    law_of_constant_settings();
}

/// Executions and claims at different chains may be swapped, whatever they answer.
pub fn law_of_local_acts()
    ensures free { (w : World) (s t : Act)
        → (acts_at s ≡ acts_at t → ⊥) → takes_from s ≡ None → takes_from t ≡ None → AreFree w s t }
{
    law_of_independence();
}
