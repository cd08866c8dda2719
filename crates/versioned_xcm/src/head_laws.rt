//! The laws of the heads of instructions: what comes before the program inside.

ghost use Rattle.std.specs.Prelude.{◌≡◌, ◌++◌, ℕ, List, [], Some};
ghost use Rattle.operands.specs.declared.version.Version.{Version};
ghost use Rattle.xcm_program.specs.declared.instruction.Instruction.{Instruction};
ghost use Rattle.xcm_program.specs.Measure.{with_inner};
ghost use Rattle.xcm_format.specs.Programs.{head, FitsHead};
ghost use Rattle.xcm_program.specs.Conversions.{HasAmount};
ghost use Rattle.xcm_format.specs.Writable.{IsNamedHead};
ghost use Rattle.instruction_reading.specs.Reading.{Layer, head_at};

/// The reader takes the head of each instruction that fits, whatever follows it, and nothing else. Instead of the program inside it
/// gives an empty one.
pub fn law_of_heads()
    ensures takes { (v : Version) (bytes : List ℕ) (l : Layer) (rest : List ℕ)
        → head_at v bytes ≡ Some (l, rest) → (bytes ≡ head v l ++ rest) × FitsHead v l }
    ensures again { (v : Version) (l : Layer) (rest : List ℕ)
        → FitsHead v l → head_at v (head v l ++ rest) ≡ Some (with_inner l [], rest) }
    ensures empty { (v : Version) (bytes : List ℕ) (l : Layer) (rest : List ℕ)
        → head_at v bytes ≡ Some (l, rest) → with_inner l [] ≡ l }
{}

/// No head is a proper prefix of another. Instructions with the same head are the same but for the program inside.
pub fn law_of_no_head_prefix()
    ensures { (v : Version) (l m : Layer) (a b : List ℕ) → FitsHead v l → FitsHead v m
        → head v l ++ a ≡ head v m ++ b
        → (with_inner l [] ≡ with_inner m []) × (head v l ≡ head v m) × (a ≡ b) }
{}

/// What has a head in a version can be written in it, and so what is read in a version.
pub fn law_of_writable_heads()
    ensures named { (v : Version) (l : Layer) → FitsHead v l → IsNamedHead v Instruction l }
    ensures amount { (v : Version) (l : Layer) → FitsHead v l → HasAmount Instruction l }
{}
