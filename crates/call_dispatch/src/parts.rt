//! The readers that `read_call` calls. Where they leave the cursor after a refusal isn't said.

ghost use Rattle.std.specs.Prelude.{◌≡◌, ◌^◌, vec_len, IfOk};
ghost use Rattle.scale_codec.specs.Reading.{made3, below_at, take_at, repeated};
ghost use Rattle.scale_codec.specs.Answers.{Got, GotOrFails};
ghost use Rattle.call_dispatch.specs.Reading.{remark_at, positive_at, item_at, batch_at, call_at};

use crate::{Batch, Call, NoBatch, PositiveAmount};
use plain_lists::BoundedVec;
use scale_codec::{Cursor, NoSpelling, WireFault};
use std::alloc::Global;

/// At most 1,024 bytes. Memory is taken when they are all there, and not by their number.
#[tactic(auto, unfolding(crate::specs::Reading::remark_at))]
fn take_remark(alloc: Global, c: &mut Cursor<'_>) -> Result<BoundedVec<u8, 1024>, WireFault>
    ensures { GotOrFails (λ bytes. bytes) result (remark_at c.old) c.new }
{
    let count = c.compact_u32()? as usize;
    if count > 1024 {
        return Err(WireFault::NoSpelling);
    }
    let bytes = c.take(count)?.to_vec(alloc)?;
    Ok(BoundedVec::from_vec(bytes))
}

/// An amount, which is not 0.
fn take_amount(c: &mut Cursor<'_>) -> Result<PositiveAmount, NoSpelling>
    ensures { Got result (positive_at c.old) c.new }
{
    let amount = c.compact_u128()?;
    if amount == 0 {
        return Err(NoSpelling);
    }
    Ok(PositiveAmount::new(amount))
}

/// A row, an account and an amount.
fn take_transfer<B>(c: &mut Cursor<'_>) -> Result<Call<B>, NoSpelling>
    ensures { Got result (made3 (below_at (2 ^ 32))
        (take_at 32) positive_at Call.Transfer c.old) c.new }
{
    let row = c.compact_u32()?;
    let dest = c.take_array()?;
    let amount = take_amount(c)?;
    Ok(Call::Transfer { row, dest, amount })
}

/// A call that is no batch.
#[tactic(auto, unfolding(crate::specs::Reading::item_at))]
pub(crate) fn take_item(alloc: Global, c: &mut Cursor<'_>) -> Result<Call<NoBatch>, WireFault>
    ensures { GotOrFails (λ item. item) result (item_at c.old) c.new }
{
    match c.u8()? {
        0 => Ok(Call::Remark(take_remark(alloc, c)?)),
        1 => Ok(take_transfer(c)?),
        2 => Ok(Call::Fail(c.u8()?)),
        _ => Err(WireFault::NoSpelling),
    }
}

/// So many calls that are no batches. Memory is taken once.
fn take_several(
    alloc: Global,
    c: &mut Cursor<'_>,
    count: u32,
) -> Result<Vec<Call<NoBatch>>, WireFault>
    ensures read { GotOrFails (λ items. items.items) result (repeated item_at count c.old) c.new }
    ensures count { IfOk result (λ items. vec_len items ≡ count) }
{
    let mut items = Vec::with_capacity(alloc, count as usize)?;
    for _ in 0..count {
        let item = take_item(alloc, c)?;
        items.push_reserved(item);
    }
    Ok(items)
}

/// At most 8 calls that are no batches.
#[tactic(auto, unfolding(crate::specs::Reading::batch_at))]
fn take_batch(alloc: Global, c: &mut Cursor<'_>) -> Result<Batch, WireFault>
    ensures { GotOrFails (λ items. items) result (batch_at c.old) c.new }
{
    let count = c.compact_u32()?;
    if count > 8 {
        return Err(WireFault::NoSpelling);
    }
    let items = take_several(alloc, c, count)?;
    Ok(BoundedVec::from_vec(items))
}

/// Any call.
#[tactic(auto, unfolding(crate::specs::Reading::call_at))]
pub(crate) fn take_call(alloc: Global, c: &mut Cursor<'_>) -> Result<Call, WireFault>
    ensures { GotOrFails (λ call. call) result (call_at c.old) c.new }
{
    match c.u8()? {
        0 => Ok(Call::Remark(take_remark(alloc, c)?)),
        1 => Ok(take_transfer(c)?),
        2 => Ok(Call::Fail(c.u8()?)),
        3 => Ok(Call::Batch(take_batch(alloc, c)?)),
        _ => Err(WireFault::NoSpelling),
    }
}
