//! From programs to bytes.

ghost use Rattle.std.specs.Prelude.{◌≡◌, ◌<◌, ◌≤◌, ◌^◌, ◌⊎◌, length, MatchResult, MatchBool};
ghost use Rattle.scale_codec.specs.Answers.{Puts};
ghost use Rattle.xcm_program.specs.Measure.{deep_count, depth};
ghost use Rattle.xcm_format.specs.Programs.{FitsProgram};
ghost use Rattle.xcm_format.specs.Messages.{version_byte, message, IsSmall, IsMessageIn};
ghost use Rattle.xcm_format.specs.Writable.{IsWritable};
ghost use Rattle.versioned_xcm.specs.Message.{forwarded, IsEncodeCause};
ghost use Rattle.versioned_xcm.specs.declared.faults.EncodeFault.TheVariants.{ExceedsLimits};

use crate::decoding::MAX_BYTES;
use crate::faults::EncodeFault;
use crate::writing::{put_instruction, put_program};
use crate::{MAX_DEPTH, MAX_INSTRUCTIONS};
use scale_codec::{Draft, Out};
use std::alloc::{AllocError, Global};
use xcm_format::Version;
use xcm_program::{Instruction, Program, deep_count, deep_count_one, depth, depth_one};

/// Room for most messages, in bytes.
const USUAL_BYTES: usize = 128;

fn version_byte(v: Version) -> u8
    ensures { result ≡ version_byte v }
{
    match v {
        Version::V3 => 3,
        Version::V4 => 4,
    }
}

/// The version, and the program.
#[tactic(auto, unfolding(xcm_format::specs::Messages::message))]
fn put_message(o: &mut Draft, program: &Program, v: Version) -> Result<(), AllocError>
    requires { IsWritable v program.now }
    ensures { Puts (message v) (FitsProgram v) program.now result o.old o.new }
{
    o.put_u8(version_byte(v))?;
    put_program(o, program, v)
}

/// What was written, where it is no longer than a message may be.
fn finished(out: Out) -> Result<Vec<u8>, EncodeFault>
    ensures { MatchResult result
        (λ bytes. (bytes.items ≡ out) × (length out ≤ 65536))
        (λ fault. (fault ≡ ExceedsLimits) × (65536 < length out)) }
{
    if out.bytes().len() > MAX_BYTES {
        return Err(EncodeFault::ExceedsLimits);
    }
    Ok(out.into_vec())
}

/// The message of a program in a version. The version must be able to say it: it can say each asset id, and no amount is 0; and the
/// program holds fewer than 2^32 instructions. `ExceedsLimits` comes exactly past 100 instructions, nested ones counted, 8 levels or
/// 65,536 bytes.
pub fn encode_message(alloc: Global, program: &Program, v: Version) -> Result<Vec<u8>, EncodeFault>
    requires { IsWritable v program.now }
    ensures { MatchResult result (λ bytes. IsMessageIn v bytes.items program.now)
        (IsEncodeCause v program.now) }
{
    if deep_count(program) > MAX_INSTRUCTIONS || depth(program) > MAX_DEPTH {
        return Err(EncodeFault::ExceedsLimits);
    }
    let mut out = Out::with_capacity(alloc, USUAL_BYTES)?;
    let mut draft = out.draft();
    let written = put_message(&mut draft, program, v);
    out.settle(draft, written)?;
    finished(out)
}

/// Whether the forwarded program has too many instructions or levels.
fn forwards_too_much(first: &Instruction, rest: &Program) -> bool
    requires { deep_count (forwarded first.now rest.now) < 2 ^ 32 }
    ensures { MatchBool result ((100 < deep_count (forwarded first.now rest.now))
        ⊎ (8 < depth (forwarded first.now rest.now))) (IsSmall (forwarded first.now rest.now)) }
{
    if deep_count_one(first) + 1 + deep_count(rest) > MAX_INSTRUCTIONS {
        return true;
    }
    depth_one(first) + 1 > MAX_DEPTH || depth(rest) > MAX_DEPTH
}

/// The version, how many instructions, and these.
fn put_forwarded(
    o: &mut Draft,
    first: &Instruction,
    rest: &Program,
    v: Version,
) -> Result<(), AllocError>
    requires { IsWritable v (forwarded first.now rest.now) }
    ensures { Puts (message v) (FitsProgram v) (forwarded first.now rest.now) result o.old o.new }
{
    let items = rest.items();
    o.put_u8(version_byte(v))?;
    o.put_compact(items.len() as u128 + 2)?;
    put_instruction(o, first, v)?;
    put_instruction(o, &Instruction::ClearOrigin, v)?;
    for i in items {
        put_instruction(o, i, v)?;
    }
    Ok(())
}

/// What `encode_message` answers for the program of `first`, `ClearOrigin` and the instructions of `rest`, without a copy of `rest`; its
/// conditions are those of `encode_message` for that program.
pub fn encode_forwarded(
    alloc: Global,
    first: &Instruction,
    rest: &Program,
    v: Version,
) -> Result<Vec<u8>, EncodeFault>
    requires { IsWritable v (forwarded first.now rest.now) }
    ensures { MatchResult result (λ bytes. IsMessageIn v bytes.items (forwarded first.now rest.now))
        (IsEncodeCause v (forwarded first.now rest.now)) }
{
    if forwards_too_much(first, rest) {
        return Err(EncodeFault::ExceedsLimits);
    }
    let mut out = Out::with_capacity(alloc, USUAL_BYTES)?;
    let mut draft = out.draft();
    let written = put_forwarded(&mut draft, first, rest, v);
    out.settle(draft, written)?;
    finished(out)
}
