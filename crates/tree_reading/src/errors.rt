//! Errors, and where they came.

ghost use Rattle.std.specs.Prelude.{◌≡◌, ◌≢◌, ◌<◌, ◌^◌, ◌++◌, ◌∷◌, [], ℕ, List, Some, IfSome, MatchOption, get_or, codes, decimal};
ghost use Rattle.scale_codec.specs.Spelling.{fixed, optional};
ghost use Rattle.operands.specs.Texts.{error_text};
ghost use Rattle.xcm_format.specs.Parts.{xcm_error, FitsError, failure, FitsFailure};
ghost use Rattle.message_text.specs.Words.{failure_text};
ghost use Rattle.tree_reading.specs.Puts.{PutsWords};
ghost use Rattle.tree_reading.specs.Errors.{error_names, FitsPlainError, trap_code_text, some_failure_text};

use crate::numbers::number_of;
use crate::splits::{after, at_space, is_text};
use scale_codec::Out;
use std::alloc::AllocError;

/// How many kinds of errors there are.
const ERRORS: u8 = 35;

/// The name of the error of an index (XCM format).
fn error_name(index: u8) -> &'static str
    requires { index < 35 }
    ensures { result.now ≡ get_or error_names index [] }
{
    match index {
        0 => "Overflow",
        1 => "Unimplemented",
        2 => "UntrustedReserveLocation",
        3 => "UntrustedTeleportLocation",
        4 => "LocationFull",
        5 => "LocationNotInvertible",
        6 => "BadOrigin",
        7 => "InvalidLocation",
        8 => "AssetNotFound",
        9 => "FailedToTransactAsset",
        10 => "NotWithdrawable",
        11 => "LocationCannotHold",
        12 => "ExceedsMaxMessageSize",
        13 => "DestinationUnsupported",
        14 => "Transport",
        15 => "Unroutable",
        16 => "UnknownClaim",
        17 => "FailedToDecode",
        18 => "MaxWeightInvalid",
        19 => "NotHoldingFees",
        20 => "TooExpensive",
        21 => "Trap",
        22 => "ExpectationFalse",
        23 => "PalletNotFound",
        24 => "NameMismatch",
        25 => "VersionIncompatible",
        26 => "HoldingWouldOverflow",
        27 => "ExportError",
        28 => "ReanchorFailed",
        29 => "NoDeal",
        30 => "FeesNotMet",
        31 => "LockError",
        32 => "NoPermission",
        33 => "Unanchored",
        _ => "NotDepositable",
    }
}

/// The index of the error of a name.
fn error_index(text: &str) -> Option<u8>
    ensures { MatchOption result ((k : ℕ) → k < 35 → text.now ≢ get_or error_names k [])
        (λ n. (n < 35) × (text.now ≡ get_or error_names n [])) }
{
    for index in 0..ERRORS {
        if is_text(text, error_name(index)) {
            return Some(index);
        }
    }
    None
}

/// Appends the error of a name that says all of it.
fn put_named(out: &mut Out, text: &str) -> Result<bool, AllocError>
    ensures { PutsWords FitsPlainError error_text xcm_error text.now result out.old out.new }
{
    let Some(index) = error_index(text) else {
        return Ok(false);
    };
    out.put_u8(index)?;
    Ok(true)
}

/// Appends the code of a trap, as `5)`.
fn put_trap(out: &mut Out, text: &str) -> Result<bool, AllocError>
    ensures { PutsWords (λ n. n < 2 ^ 64) trap_code_text (λ n. 21 ∷ fixed 8 n) text.now result out.old
        out.new }
{
    let Some(digits) = text.strip_suffix(')') else {
        return Ok(false);
    };
    let Some(code) = number_of(digits, u64::MAX) else {
        return Ok(false);
    };
    out.put_u8(21)?;
    out.put_u64(code)?;
    Ok(true)
}

/// Appends an error.
fn put_error(out: &mut Out, text: &str) -> Result<bool, AllocError>
    ensures { PutsWords FitsError error_text xcm_error text.now result out.old out.new }
{
    match after(text, "Trap(") {
        Some(code) => put_trap(out, code),
        None => put_named(out, text),
    }
}

/// The index of an instruction.
pub(crate) fn index_of(text: &str) -> Option<u32>
    ensures { (n : ℕ) → n < 2 ^ 32 → text.now ≡ decimal n → result ≡ Some n }
{
    text.parse::<u32>().ok()
}

/// Appends an instruction's index and its error.
fn put_some_failure(out: &mut Out, text: &str) -> Result<bool, AllocError>
    ensures { PutsWords FitsFailure some_failure_text (λ f. 1 ∷ failure f) text.now result out.old
        out.new }
{
    let Some((index, error)) = at_space(text) else {
        return Ok(false);
    };
    let Some(index) = index_of(index) else {
        return Ok(false);
    };
    out.put_u8(1)?;
    out.put_u32(index)?;
    put_error(out, error)
}

/// Appends an instruction's index and its error, or none.
pub(crate) fn put_failure(out: &mut Out, text: &str) -> Result<bool, AllocError>
    ensures { PutsWords (λ o. IfSome o FitsFailure) failure_text (optional failure) text.now result
        out.old out.new }
{
    match text {
        "none" => {
            out.put_u8(0)?;
            Ok(true)
        }
        _ => put_some_failure(out, text),
    }
}
