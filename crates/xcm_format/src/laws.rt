//! What the versions can say.

ghost use Rattle.std.specs.Prelude.{◌≡◌, ◌<◌, ◌^◌, ◌↔◌, true, List};
ghost use Rattle.std.specs.List.{AllByRecursion};
ghost use Rattle.operands.specs.declared.version.Version.{Version};
ghost use Rattle.operands.specs.declared.version.Version.TheVariants.{V3, V4};
ghost use Rattle.xcm_program.specs.declared.instruction.Instruction.{Instruction};
ghost use Rattle.xcm_program.specs.Measure.{deep_count};
ghost use Rattle.xcm_program.specs.Conversions.{is_convertible, HasAmounts};
ghost use Rattle.xcm_format.specs.Writable.{IsNamedOne, IsWritable};

/// A program is convertible just where version 4 can say each of its asset ids. Version 3 can say every one.
pub fn law_of_conversions()
    ensures version_4 { (program : List Instruction)
        → (is_convertible program ≡ true) ↔ AllByRecursion (IsNamedOne V4) program }
    ensures version_3 { (program : List Instruction) → AllByRecursion (IsNamedOne V3) program }
{}

/// A convertible program of fewer than 2^32 instructions, nested ones counted, in which no amount is 0 can be written in either version.
pub fn law_of_writable()
    ensures { (v : Version) (program : List Instruction) → deep_count program < 2 ^ 32
        → is_convertible program ≡ true → AllByRecursion HasAmounts program → IsWritable v program }
{}
