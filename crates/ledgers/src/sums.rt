//! Running sums over all accounts.
ghost use Rattle.std.specs.Prelude.{◌≡◌, ℕ, length, slice_get, Some, IfOk};
ghost use Rattle.asset_bundles.specs.Totals.{wide_value};
ghost use Rattle.asset_bundles.specs.declared.wide_sum.WideSum.{WideSum};

use asset_bundles::WideSum;
use std::alloc::{AllocError, Global};

/// So many sums of nothing.
pub(crate) fn zero_sums(alloc: Global, count: usize) -> Result<Vec<WideSum>, AllocError>
    ensures count { IfOk result (λ sums. length sums.items ≡ count) }
    ensures zero { IfOk result (λ sums. (k : ℕ) (s : WideSum) → slice_get sums.items k ≡ Some s
        → wide_value s ≡ 0) }
{
    let mut sums = Vec::with_capacity(alloc, count)?;
    for _ in 0..count {
        sums.push(WideSum::ZERO)?;
    }
    Ok(sums)
}
