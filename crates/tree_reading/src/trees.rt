//! From the text of a tree to the message that it is the tree of.

ghost use Rattle.std.specs.Prelude.{◌≡◌, ◌<◌, ◌^◌, ◌++◌, List, ℕ, Some, MatchResult, decimal};
ghost use Rattle.operands.specs.declared.version.Version.{Version};
ghost use Rattle.xcm_program.specs.declared.instruction.Instruction.{Instruction};
ghost use Rattle.xcm_format.specs.Messages.{version_byte, message, IsSmall};
ghost use Rattle.message_text.specs.Lines.{line};
ghost use Rattle.message_text.specs.Messages.{program_text};
ghost use Rattle.tree_reading.specs.declared.expected.TreeFault.TheVariants.{Memory};
ghost use Rattle.tree_reading.specs.Programs.{HasTree};
ghost use Rattle.tree_reading.specs.Trees.{heading_words, tree_text, IsNumbered};

use crate::expected::{Expected, TreeFault};
use crate::lists::Form;
use crate::numbers::number_of;
use crate::programs::put_program;
use crate::rows::Rows;
use crate::splits::{after, at_space};
use operands::Version;
use scale_codec::Out;
use std::alloc::Global;

/// The most instructions of a message, those of programs inside counted too.
const MAX_INSTRUCTIONS: u32 = 100;

/// The most levels of programs.
const MAX_DEPTH: u32 = 8;

/// A message, and the number that its heading has.
#[derive(Debug, Drop)]
pub struct Numbered {
    /// The number of the heading.
    pub number: u64,
    /// The bytes of the message.
    pub bytes: Vec<u8>,
}

/// The version of this number.
fn version_of(text: &str) -> Option<Version>
    ensures { (v : Version) → text.now ≡ decimal (version_byte v) → result ≡ Some v }
{
    match text {
        "3" => Some(Version::V3),
        "4" => Some(Version::V4),
        _ => None,
    }
}

/// The number and the version of a heading.
fn heading_of(words: &str) -> Option<(u64, Version)>
    ensures { (n : ℕ) (v : Version) → n < 2 ^ 64 → words.now ≡ heading_words n v
        → result ≡ Some (n, v) }
{
    let (number, behind) = at_space(after(words, "message ")?)?;
    let number = number_of(number, u64::MAX)?;
    let version = version_of(after(behind, "version ")?)?;
    Some((number, version))
}

/// The number of a version, with which its messages begin.
fn version_byte(version: Version) -> u8
    ensures { result ≡ version_byte version }
{
    match version {
        Version::V3 => 3,
        Version::V4 => 4,
    }
}

/// Goes past a heading.
fn take_heading(rows: &mut Rows<'_>) -> Result<(u64, Version), TreeFault>
    ensures { (n : ℕ) (v : Version) (rest : List ℕ) → n < 2 ^ 64
        → rows.old.rest.now ≡ line 0 (heading_words n v) ++ rest
        → MatchResult result (λ x. (x ≡ (n, v)) × (rows.new.rest.now ≡ rest)) (λ _. ⊥) }
{
    let words = rows.take(0, Expected::Heading)?;
    match heading_of(words) {
        Some(heading) => Ok(heading),
        None => Err(rows.wrong(Expected::Heading)),
    }
}

/// The message of the program that the rows say.
fn message_in(form: Form, rows: &mut Rows<'_>) -> Result<Vec<u8>, TreeFault>
    ensures { (program : List Instruction) → HasTree form.version program → IsSmall program
        → rows.old.rest.now ≡ program_text 1 program
        → MatchResult result (λ bytes. bytes.items ≡ message form.version program)
        (λ stop. stop ≡ Memory) }
{
    let mut out = Out::new(form.alloc);
    out.put_u8(version_byte(form.version))?;
    let mut left = MAX_INSTRUCTIONS;
    put_program(form, rows, &mut out, &mut left, 1, MAX_DEPTH)?;
    if !rows.is_at_end() {
        return Err(rows.missing(Expected::End));
    }
    Ok(out.into_vec())
}

/// The message that a tree is the tree of, and the number of its heading; or the first row in which something else was expected. Other texts may be read
/// too, so whoever asks compares the tree with that of the message.
pub fn bytes_of_tree(alloc: Global, tree: &[u8]) -> Result<Numbered, TreeFault>
    ensures { (number : ℕ) (version : Version) (program : List Instruction) → number < 2 ^ 64
        → HasTree version program → IsSmall program → tree.now ≡ tree_text number version program
        → MatchResult result (IsNumbered number version program) (λ stop. stop ≡ Memory) }
{
    let mut rows = Rows {
        rest: tree,
        read: 0,
    };
    let (number, version) = take_heading(&mut rows)?;
    let bytes = message_in(Form { alloc, version }, &mut rows)?;
    Ok(Numbered { number, bytes })
}
