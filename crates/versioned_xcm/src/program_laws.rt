//! The laws of the spellings of programs, and of their reader.

ghost use Rattle.std.specs.Prelude.{◌≡◌, true, List};
ghost use Rattle.scale_codec.specs.Spelling.{HasOneSpelling, IsPrefixFree};
ghost use Rattle.scale_codec.specs.Reading.{Reads};
ghost use Rattle.operands.specs.declared.version.Version.{Version};
ghost use Rattle.xcm_format.specs.Programs.{instruction_spelling, FitsInstruction, program_spelling, FitsProgram};
ghost use Rattle.xcm_format.specs.Messages.{IsReadable};
ghost use Rattle.xcm_program.specs.Conversions.{is_convertible};
ghost use Rattle.xcm_format.specs.Writable.{IsWritable};
ghost use Rattle.xcm_program.specs.declared.instruction.Instruction.{Instruction};
ghost use Rattle.versioned_xcm.specs.Programs.{readable_at};

/// A program has at most one spelling in a version: by definition, since a spelling is a function of the program.
pub fn law_of_one_spelling()
    ensures { (v : Version) → HasOneSpelling (program_spelling v) (FitsProgram v) }
{}

/// No spelling of a program is a proper prefix of another in the same version, and no two programs have the same; and so for
/// instructions, with the programs inside. Whatever their size and depth.
pub fn law_of_no_prefix()
    ensures program { (v : Version) → IsPrefixFree (program_spelling v) (FitsProgram v) }
    ensures instruction { (v : Version)
        → IsPrefixFree (instruction_spelling v) (FitsInstruction v) }
{}

/// What was read in a version can be written in it, and in either version where both can say it.
pub fn law_of_writable()
    ensures same { (v : Version) (p : List Instruction) → IsReadable v p → IsWritable v p }
    ensures either { (v w : Version) (p : List Instruction)
        → IsReadable v p → is_convertible p ≡ true → IsWritable w p }
{}

/// The reader takes what is spelled so within the limits, whatever follows it, and nothing else.
pub fn law_of_readers()
    ensures { (v : Version) → Reads (program_spelling v) (IsReadable v) (readable_at v) }
{}
