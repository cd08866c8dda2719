//! Instructions about channels. Each puts the fields after the number, in their order, into the slot for the instruction.

ghost use Rattle.std.specs.Prelude.{◌^◌};
ghost use Rattle.scale_codec.specs.Reading.{below_at, made1, made3};
ghost use Rattle.xcm_program.specs.declared.instruction.Instruction.TheOpen.{Instruction-F};
ghost use Rattle.instruction_reading.specs.Answers.{FilledHead};

use crate::inside::put;
use asset_wire::WireFault;
use scale_codec::Cursor;
use xcm_program::Instruction;

/// Who wants the channel, its greatest message, and how many may wait.
pub(crate) fn fill_hrmp_new_channel_open_request(
    c: &mut Cursor<'_>,
    slot: &mut Instruction,
) -> Result<(), WireFault>
    ensures { FilledHead result (made3 (below_at (2 ^ 32)) (below_at (2 ^ 32)) (below_at (2 ^ 32))
        Instruction-F.HrmpNewChannelOpenRequest c.old) slot.new c.new }
{
    let sender = c.compact_u32()?;
    let max_message_size = c.compact_u32()?;
    let max_capacity = c.compact_u32()?;
    put(
        slot,
        Instruction::HrmpNewChannelOpenRequest {
            sender,
            max_message_size,
            max_capacity,
        },
    );
    Ok(())
}

/// Who accepted it.
pub(crate) fn fill_hrmp_channel_accepted(
    c: &mut Cursor<'_>,
    slot: &mut Instruction,
) -> Result<(), WireFault>
    ensures { FilledHead result (made1 (below_at (2 ^ 32)) Instruction-F.HrmpChannelAccepted c.old)
        slot.new c.new }
{
    let recipient = c.compact_u32()?;
    put(slot, Instruction::HrmpChannelAccepted { recipient });
    Ok(())
}

/// Who closes it, its sender and its recipient.
pub(crate) fn fill_hrmp_channel_closing(
    c: &mut Cursor<'_>,
    slot: &mut Instruction,
) -> Result<(), WireFault>
    ensures { FilledHead result (made3 (below_at (2 ^ 32)) (below_at (2 ^ 32)) (below_at (2 ^ 32))
        Instruction-F.HrmpChannelClosing c.old) slot.new c.new }
{
    let initiator = c.compact_u32()?;
    let sender = c.compact_u32()?;
    let recipient = c.compact_u32()?;
    put(
        slot,
        Instruction::HrmpChannelClosing {
            initiator,
            sender,
            recipient,
        },
    );
    Ok(())
}
