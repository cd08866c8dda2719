//! What the definitions of lines and steps amount to.

ghost use Rattle.std.specs.Prelude.{◌≡◌, ℕ, List, length, codes};
ghost use Rattle.hex.specs.Hex.{IsBytes};
ghost use Rattle.std.specs.List.{concat};
ghost use Rattle.input_lines.specs.Lines.{lines_of};
ghost use Rattle.input_lines.specs.Step.{read_line};
ghost use Rattle.input_lines.specs.Meaning.{AreLines, ChainFits, exec_line, deliver_line, claim_line};
ghost use Rattle.chain_ids.specs.declared.chain.ChainId.{ChainId};

use crate::line::Line;
use crate::step::Step;

/// The lines of some bytes are the one way to cut them after each line feed.
pub fn law_of_unique_lines()
    ensures lines { (bytes : List ℕ) → AreLines (lines_of bytes) }
    ensures whole { (bytes : List ℕ) → concat (lines_of bytes) ≡ bytes }
    ensures only { (lines : List (List ℕ)) → AreLines lines → lines_of (concat lines) ≡ lines }
{}

/// The text of a step, in lower-case digits, reads back as that step.
#[tactic(auto, unfolding(crate::specs::Step::read_line))]
pub fn law_of_step_lines()
    ensures exec { (chain : ChainId) (account message : List ℕ)
        → ChainFits chain → length account ≡ 32 → IsBytes account → IsBytes message
        → read_line (exec_line chain account message)
        ≡ Line.Step (Step.Exec chain account message) }
    ensures deliver { (from to : ChainId)
        → ChainFits from → ChainFits to
        → read_line (deliver_line from to) ≡ Line.Step (Step.Deliver from to) }
    ensures claim { (from to : ChainId) (message : List ℕ)
        → ChainFits from → ChainFits to → IsBytes message
        → read_line (claim_line from to message) ≡ Line.Step (Step.Claim from to message) }
    ensures drain { read_line (codes "drain") ≡ Line.Step Step.Drain }
    ensures balances { read_line (codes "balances") ≡ Line.Step Step.Balances }
    ensures traps { read_line (codes "traps") ≡ Line.Step Step.Traps }
    ensures queues { read_line (codes "queues") ≡ Line.Step Step.Queues }
    ensures supply { read_line (codes "supply") ≡ Line.Step Step.Supply }
{}
