//! Numbers, weights, flags and kinds of origin.

ghost use Rattle.std.specs.Prelude.{◌≡◌, ◌≤◌, ◌++◌, ◌∷◌, ℕ, Some, MatchOption, codes, decimal, ⊤};
ghost use Rattle.scale_codec.specs.Spelling.{byte, compact, flag};
ghost use Rattle.operands.specs.declared.origin.OriginKind.{OriginKind};
ghost use Rattle.operands.specs.Texts.{weight_text};
ghost use Rattle.xcm_format.specs.Parts.{weight, FitsWeight, weight_limit, FitsLimit, origin_kind};
ghost use Rattle.message_text.specs.Words.{flag_text, origin_kind_text, limit_text};
ghost use Rattle.tree_reading.specs.Puts.{PutsWords};

use crate::splits::{after, at_space};
use scale_codec::Out;
use std::alloc::AllocError;

/// The greatest number below 2^32.
pub(crate) const MAX_32: u64 = 4_294_967_295;

/// A number of at most so much.
pub(crate) fn number_of(text: &str, most: u64) -> Option<u64>
    ensures { (n : ℕ) → n ≤ most → text.now ≡ decimal n → result ≡ Some n }
{
    match text.parse::<u64>() {
        Ok(number) if number <= most => Some(number),
        _ => None,
    }
}

/// Appends a number of at most so much.
pub(crate) fn put_number(out: &mut Out, text: &str, most: u64) -> Result<bool, AllocError>
    ensures { PutsWords (λ n. n ≤ most) decimal compact text.now result out.old out.new }
{
    let Some(number) = number_of(text, most) else {
        return Ok(false);
    };
    out.put_compact(u128::from(number))?;
    Ok(true)
}

/// Appends a weight: both numbers with a space between.
pub(crate) fn put_weight(out: &mut Out, text: &str) -> Result<bool, AllocError>
    ensures { PutsWords FitsWeight weight_text weight text.now result out.old out.new }
{
    let Some((ref_time, proof_size)) = at_space(text) else {
        return Ok(false);
    };
    let done = put_number(out, ref_time, u64::MAX)?;
    if !done {
        return Ok(false);
    }
    put_number(out, proof_size, u64::MAX)
}

/// Appends the limit that a weight is.
fn put_limited(out: &mut Out, text: &str) -> Result<bool, AllocError>
    ensures { PutsWords FitsWeight (λ w. codes "Limited " ++ weight_text w) (λ w. 1 ∷ weight w)
        text.now result out.old out.new }
{
    let Some(weight) = after(text, "Limited ") else {
        return Ok(false);
    };
    out.put_u8(1)?;
    put_weight(out, weight)
}

/// Appends a limit of weights.
pub(crate) fn put_limit(out: &mut Out, text: &str) -> Result<bool, AllocError>
    ensures { PutsWords FitsLimit limit_text weight_limit text.now result out.old out.new }
{
    match text {
        "Unlimited" => {
            out.put_u8(0)?;
            Ok(true)
        }
        _ => put_limited(out, text),
    }
}

/// Appends true or false.
pub(crate) fn put_flag(out: &mut Out, text: &str) -> Result<bool, AllocError>
    ensures { PutsWords (λ _. ⊤) flag_text flag text.now result out.old out.new }
{
    match text {
        "true" => out.put_u8(1)?,
        "false" => out.put_u8(0)?,
        _ => return Ok(false),
    }
    Ok(true)
}

/// The index of a kind of origin.
fn origin_kind_index(text: &str) -> Option<u8>
    ensures { (kind : OriginKind) → text.now ≡ origin_kind_text kind
        → MatchOption result ⊥ (λ n. origin_kind kind ≡ byte n) }
{
    match text {
        "Native" => Some(0),
        "SovereignAccount" => Some(1),
        "Superuser" => Some(2),
        "Xcm" => Some(3),
        _ => None,
    }
}

/// Appends a kind of origin.
pub(crate) fn put_origin_kind(out: &mut Out, text: &str) -> Result<bool, AllocError>
    ensures { PutsWords (λ _. ⊤) origin_kind_text origin_kind text.now result out.old out.new }
{
    let Some(index) = origin_kind_index(text) else {
        return Ok(false);
    };
    out.put_u8(index)?;
    Ok(true)
}
