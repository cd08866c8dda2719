//! What an account has of each asset, by the asset's number.
ghost use Rattle.std.specs.Prelude.{◌≡◌, ℕ, ◌<◌, length, get_or, set, IfOk};
ghost use Rattle.ledgers.specs.LedgerRows.{amount_in_row};

use crate::account_key::AccountKey;
use crate::row_writes::AmountRows;
use std::alloc::{AllocError, Global};

/// So many sums of nothing.
fn no_sums(alloc: Global, count: usize) -> Result<Vec<u128>, AllocError>
    ensures count { IfOk result (λ sums. length sums.items ≡ count) }
    ensures zero { IfOk result (λ sums. (n : ℕ) → get_or sums.items n 0 ≡ 0) }
{
    let mut sums = Vec::with_capacity(alloc, count)?;
    for _ in 0..count {
        sums.push(0)?;
    }
    Ok(sums)
}

/// Writes the sum of a number, where there is one.
fn write_sum(sums: &mut [u128], number: u32, amount: u128)
    ensures { sums.new ≡ set sums.old number amount }
{
    let number = number as usize;
    if number < sums.len() {
        sums[number] = amount;
    }
}

/// What an account's rows say of each of so many numbers. It goes once over these rows.
pub(crate) fn account_sums(
    alloc: Global,
    rows: &AmountRows,
    count: usize,
    who: &[u8; 32],
) -> Result<Vec<u128>, AllocError>
    ensures count { IfOk result (λ sums. length sums.items ≡ count) }
    ensures sums { IfOk result (λ sums. (n : ℕ) → n < count
        → get_or sums.items n 0 ≡ amount_in_row rows.now.entries (who.now, n)) }
{
    let mut sums = no_sums(alloc, count)?;
    for (key, amount) in rows.range((AccountKey::of(who), 0)..) {
        if !key.0.is(who) {
            return Ok(sums);
        }
        write_sum(&mut sums, key.1, *amount);
    }
    Ok(sums)
}
