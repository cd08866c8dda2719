//! What holds of the definitions themselves.

ghost use Rattle.std.specs.Prelude.{◌≡◌, IsTrue, Some};
ghost use Rattle.chain_ids.specs.declared.chain.ChainId.{ChainId};
ghost use Rattle.operands.specs.declared.version.Version.{Version};
ghost use Rattle.chain_queues.specs.Decoded.{decodes};
ghost use Rattle.chain_queues.specs.Queues.{outgoing_of, waiting_of};
ghost use Rattle.chain_queues.specs.declared.queues.Queue.{Queue};
ghost use Rattle.chain_queues.specs.declared.queues.Queued.{Queued};
ghost use Rattle.xcm_program.specs.Indices.{index};
ghost use Rattle.xcm_program.specs.Texts.{instruction_name};
ghost use Rattle.xcm_program.specs.declared.instruction.Instruction.{Instruction, out-Instruction};
ghost use Rattle.xcm_program.specs.Names.{instruction_name_at};
ghost use Rattle.step_text.specs.Blocks.{queued_line, waiting_line, queue_lines, channel_text, IsSpelledIn};

use versioned_xcm::law_of_messages;

/// The name in the line of an instruction that ran, found by its number, is the instruction's own.
pub fn law_of_names_by_number()
    ensures { (x : Instruction)
        → instruction_name_at (index (out-Instruction x)) ≡ instruction_name (out-Instruction x) }
{}

/// The line of the bytes of a message that waits is the line of the message that they mean, spelled in the version with which they begin.
pub fn law_of_queued()
    ensures { (v : Version) (from to : ChainId) (q : Queued)
        → IsTrue (decodes q.bytes.items) → IsSpelledIn v q.bytes.items
        → queued_line from to q ≡ waiting_line v from to (waiting_of q) }
{
    law_of_messages();
}

/// The lines of the bytes that a channel keeps are the lines of the messages that they mean.
pub fn law_of_queue_lines()
    ensures { (from : ChainId) (q : Queue)
        → queue_lines from (Some q) ≡ channel_text from (outgoing_of q) }
{
    law_of_queued();
}
