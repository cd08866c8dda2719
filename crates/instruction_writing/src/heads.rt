//! The index, and the fields after it.

ghost use Rattle.std.specs.Prelude.{◌≡◌};
ghost use Rattle.scale_codec.specs.Answers.{Appends, Puts};
ghost use Rattle.xcm_program.specs.declared.instruction.Instruction.{Instruction, out-Instruction};
ghost use Rattle.xcm_format.specs.Programs.{head, FitsHead};
ghost use Rattle.xcm_program.specs.Conversions.{HasAmount};
ghost use Rattle.xcm_format.specs.Writable.{IsNamedHead};
ghost use Rattle.instruction_writing.specs.Fields.{instruction_fields};

use crate::group0::put_group0;
use crate::group1::put_group1;
use crate::group2::put_group2;
use crate::group3::put_group3;
use crate::group4::put_group4;
use crate::group5::put_group5;
use asset_wire::Version;
use scale_codec::Draft;
use std::alloc::AllocError;
use xcm_program::Instruction;

/// What follows the index, by the groups of the index.
fn put_fields(o: &mut Draft, i: &Instruction, v: Version) -> Result<(), AllocError>
    requires named { IsNamedHead v Instruction (out-Instruction i.now) }
    requires amount { HasAmount Instruction (out-Instruction i.now) }
    ensures { Appends result o.old o.new (instruction_fields v (out-Instruction i.now))
        (FitsHead v (out-Instruction i.now)) }
{
    match i.index() {
        0..=7 => put_group0(o, i, v),
        8..=15 => put_group1(o, i, v),
        16..=23 => put_group2(o, i, v),
        24..=31 => put_group3(o, i, v),
        32..=39 => put_group4(o, i, v),
        40..=47 => put_group5(o, i, v),
        _ => unreachable!(),
    }
}

/// Appends the one spelling of the instruction in the version to a draft, up to the program inside, which comes last. The version must
/// have one: it can say each asset id outside that program, and no amount is 0.
pub fn put_head(o: &mut Draft, i: &Instruction, v: Version) -> Result<(), AllocError>
    requires named { IsNamedHead v Instruction (out-Instruction i.now) }
    requires amount { HasAmount Instruction (out-Instruction i.now) }
    ensures { Puts (λ i. head v (out-Instruction i)) (λ i. FitsHead v (out-Instruction i)) i.now
        result o.old o.new }
{
    o.put_u8(i.index())?;
    put_fields(o, i, v)
}
