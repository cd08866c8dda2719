//! Responses whose value is on the same row.

ghost use Rattle.std.specs.Prelude.{ℕ, ◌<◌, ◌^◌, ◌∷◌, decimal};
ghost use Rattle.scale_codec.specs.Spelling.{fixed};
ghost use Rattle.operands.specs.declared.version.Version.{Version};
ghost use Rattle.xcm_format.specs.Parts.{response};
ghost use Rattle.tree_reading.specs.Puts.{PutsWords};
ghost use Rattle.tree_reading.specs.Responses.{FitsValued, valued_text};

use crate::errors::{index_of, put_failure};
use crate::hexes::put_status;
use crate::splits::after;
use scale_codec::Out;
use std::alloc::{AllocError, Global};

/// Appends a version of the format.
fn put_version(out: &mut Out, text: &str) -> Result<bool, AllocError>
    ensures { PutsWords (λ n. n < 2 ^ 32) decimal (λ n. 3 ∷ fixed 4 n) text.now result out.old
        out.new }
{
    let Some(version) = index_of(text) else {
        return Ok(false);
    };
    out.put_u8(3)?;
    out.put_u32(version)?;
    Ok(true)
}

/// Appends a response whose value is on the same row.
pub(crate) fn put_valued(alloc: Global, out: &mut Out, text: &str) -> Result<bool, AllocError>
    ensures { (v : Version) → PutsWords FitsValued valued_text (response v) text.now result out.old
        out.new }
{
    if let Some(failed) = after(text, "ExecutionResult ") {
        out.put_u8(2)?;
        return put_failure(out, failed);
    }
    if let Some(version) = after(text, "Version ") {
        return put_version(out, version);
    }
    match after(text, "DispatchResult ") {
        Some(status) => {
            out.put_u8(5)?;
            put_status(alloc, out, status)
        }
        None => Ok(false),
    }
}
