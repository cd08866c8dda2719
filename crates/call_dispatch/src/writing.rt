//! From a call to bytes: each writer appends the one spelling.

ghost use Rattle.std.specs.Prelude.{◌≡◌, ◌++◌, ◌∷◌, ◌^◌, ◌<◌, ◌≤◌, length, ⊤};
ghost use Rattle.scale_codec.specs.Spelling.{compact, measured, counted};
ghost use Rattle.scale_codec.specs.Answers.{Appends, Puts, IsWritten};
ghost use Rattle.call_dispatch.specs.Spelling.{item, FitsItem, FitsItems, FitsPositive, call, FitsCall};

use crate::{Batch, Call, NoBatch, PositiveAmount};
use plain_lists::BoundedVec;
use scale_codec::{Draft, Out};
use std::alloc::AllocError;

fn put_remark(o: &mut Draft, bytes: &BoundedVec<u8, 1024>) -> Result<(), AllocError>
    ensures { Puts (measured compact) (λ bytes. length bytes ≤ 1024) bytes.now result o.old o.new }
{
    let items = bytes.items();
    o.put_compact(items.len() as u128)?;
    o.put_bytes(items)
}

fn put_transfer(
    o: &mut Draft,
    row: u32,
    dest: &[u8; 32],
    amount: PositiveAmount,
) -> Result<(), AllocError>
    ensures { Appends result o.old o.new (compact row ++ dest.now ++ compact amount)
        ((row < 2 ^ 32) × (length dest.now ≡ 32) × FitsPositive amount) }
{
    o.put_compact(u128::from(row))?;
    o.put_bytes(dest)?;
    o.put_compact(amount.get())
}

/// A call that is no batch.
fn put_item(o: &mut Draft, c: &Call<NoBatch>) -> Result<(), AllocError>
    ensures { Puts item FitsItem c.now result o.old o.new }
{
    match c {
        Call::Remark(bytes) => {
            o.put_u8(0)?;
            put_remark(o, bytes)
        }
        Call::Transfer { row, dest, amount } => {
            o.put_u8(1)?;
            put_transfer(o, *row, dest, *amount)
        }
        Call::Fail(code) => {
            o.put_u8(2)?;
            o.put_u8(*code)
        }
        Call::Batch(none) => match *none {},
    }
}

/// How many, and these.
fn put_items(o: &mut Draft, batch: &Batch) -> Result<(), AllocError>
    ensures { Puts (counted compact item) FitsItems batch.now result o.old o.new }
{
    let items = batch.items();
    o.put_compact(items.len() as u128)?;
    for item in items {
        put_item(o, item)?;
    }
    Ok(())
}

/// Any call.
fn put_call(o: &mut Draft, c: &Call) -> Result<(), AllocError>
    ensures { Puts call FitsCall c.now result o.old o.new }
{
    match c {
        Call::Remark(bytes) => {
            o.put_u8(0)?;
            put_remark(o, bytes)
        }
        Call::Transfer { row, dest, amount } => {
            o.put_u8(1)?;
            put_transfer(o, *row, dest, *amount)
        }
        Call::Fail(code) => {
            o.put_u8(2)?;
            o.put_u8(*code)
        }
        Call::Batch(items) => {
            o.put_u8(3)?;
            put_items(o, items)
        }
    }
}

/// Appends the one spelling of the call. Where memory is refused, `o` is as before.
pub fn write_call(o: &mut Out, c: &Call) -> Result<(), AllocError>
    ensures { IsWritten call FitsCall c.now result o.old o.new }
{
    let mut draft = o.draft();
    let written = put_call(&mut draft, c);
    o.settle(draft, written)
}
