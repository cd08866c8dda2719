//! Where reading stops in bytes that are no message.

ghost use Rattle.std.specs.Prelude.{◌≡◌, Some, IfOk, is_some};
ghost use Rattle.xcm_program.specs.declared.instruction.Instruction.{out-Instruction};
ghost use Rattle.xcm_program.specs.Measure.{inner};
ghost use Rattle.xcm_explain.specs.Stops.{expected_text, walk_instruction, walk_program, walked_to, reading_stop};

use scale_codec::{Cursor, WireFault};
use std::alloc::{AllocError, Global};
use std::fmt;
use versioned_xcm::{MAX_DEPTH, MAX_INSTRUCTIONS, Version, read_head};
use xcm_program::{Instruction, inner};

/// What was expected where reading stopped. Its text is what an explanation says of it.
#[derive(Clone, Copy, Debug, PartialEq, Eq)]
pub(crate) enum Expected {
    /// One of the two versions.
    Version,
    /// How many instructions a program has, below 2^32.
    Count,
    /// An instruction.
    Instruction,
    /// Not more than 100 instructions.
    NoMore,
    /// Not more than 8 levels of programs.
    NoDeeper,
    /// Nothing.
    End,
}

impl fmt::Display for Expected {
    ghost output = { λ e. Some (expected_text e) };

    fn fmt<W: fmt::Write>(&self, f: &mut fmt::Formatter<W>) -> fmt::Result {
        match self {
            Expected::Version => write!(f, "version 3 or 4"),
            Expected::Count => write!(f, "a number of instructions"),
            Expected::Instruction => write!(f, "an instruction"),
            Expected::NoMore => write!(f, "at most 100 instructions"),
            Expected::NoDeeper => write!(f, "at most 8 levels"),
            Expected::End => write!(f, "the end"),
        }
    }
}

/// Where reading stops: after so many bytes.
#[derive(Clone, Copy, Debug)]
pub(crate) struct ReadingStop {
    pub(crate) at: usize,
    pub(crate) expected: Expected,
}

/// How far reading came: past all of it, with so many instructions that may still be, or up to where something else was expected.
#[derive(Clone, Copy, Debug)]
pub(crate) enum Walked {
    Past(u32),
    Stopped(Expected),
}

/// Whether the instruction has a program inside.
fn has_program(instruction: Instruction) -> bool
    ensures { result ≡ is_some (inner (out-Instruction instruction)) }
{
    inner(&instruction).is_some()
}

/// Past an instruction and the program inside.
#[cycle(walk)]
#[tactic(auto, unfolding(crate::specs::Stops::walk_instruction))]
fn walk_instruction(
    alloc: Global,
    c: &mut Cursor<'_>,
    v: Version,
    depth: u32,
    left: u32,
) -> Result<Walked, AllocError>
    ensures { IfOk result (λ walked. (walked, c.new)
        ≡ walk_instruction v (walk_program v depth) left c.old) }
{
    if left == 0 {
        return Ok(Walked::Stopped(Expected::NoMore));
    }
    match read_head(alloc, c, v) {
        Ok(instruction) => {
            if has_program(instruction) {
                return walk_program(alloc, c, v, depth, left - 1);
            }
            Ok(Walked::Past(left - 1))
        }
        Err(WireFault::NoSpelling) => Ok(Walked::Stopped(Expected::Instruction)),
        Err(WireFault::Memory) => Err(AllocError),
    }
}

/// Past a program, to a depth.
#[cycle(walk)]
fn walk_program(
    alloc: Global,
    c: &mut Cursor<'_>,
    v: Version,
    depth: u32,
    most: u32,
) -> Result<Walked, AllocError>
    ensures { IfOk result (λ walked. (walked, c.new) ≡ walk_program v depth most c.old) }
{
    if depth == 0 {
        return Ok(Walked::Stopped(Expected::NoDeeper));
    }
    let Ok(count) = c.compact_u32() else {
        return Ok(Walked::Stopped(Expected::Count));
    };
    let mut left = most;
    for _ in 0..count {
        match walk_instruction(alloc, c, v, depth - 1, left) {
            Ok(Walked::Past(after)) => left = after,
            Ok(Walked::Stopped(expected)) => return Ok(Walked::Stopped(expected)),
            Err(refused) => return Err(refused),
        }
    }
    Ok(Walked::Past(left))
}

/// Where reading stops in bytes that are no message: at the version, or at the first number of instructions or instruction that can't be read, or
/// after the program. `Err` is out of memory alone.
#[tactic(auto, unfolding(crate::specs::Stops::reading_stop))]
pub(crate) fn find_stop(alloc: Global, bytes: &[u8]) -> Result<ReadingStop, AllocError>
    ensures { IfOk result (λ stop. stop ≡ reading_stop bytes.now) }
{
    if bytes.is_empty() {
        return Ok(ReadingStop {
            at: 0,
            expected: Expected::Version,
        });
    }
    let version = match bytes[0] {
        3 => Version::V3,
        4 => Version::V4,
        _ => return Ok(ReadingStop {
            at: 0,
            expected: Expected::Version,
        }),
    };
    stop_in(alloc, &bytes[1..], version)
}

/// Where reading a program stops, after the version.
fn stop_in(alloc: Global, bytes: &[u8], v: Version) -> Result<ReadingStop, AllocError>
    ensures { IfOk result (λ stop. stop ≡ walked_to bytes.now (walk_program v 8 100 bytes.now)) }
{
    let mut c = Cursor::new(bytes);
    let expected = match walk_program(alloc, &mut c, v, MAX_DEPTH, MAX_INSTRUCTIONS)? {
        Walked::Past(_) => Expected::End,
        Walked::Stopped(expected) => expected,
    };
    let at = (bytes.len() + 1).saturating_sub(c.rest().len());
    Ok(ReadingStop { at, expected })
}
