//! The messages of the steps, as bytes.
ghost use Rattle.std.specs.Prelude.{◌≡◌, ◌++◌, OnOk, IfOk};
ghost use Rattle.generator.specs.Messages.{fungible_bytes, purchase_bytes, deposit_bytes, paid_deposit, send_message, return_message};

use scale_codec::Out;
use std::alloc::{AllocError, Global};

/// So many bytes as no message here passes.
const MESSAGE_ROOM: usize = 80;

/// Appends a fungible asset with the id of so many parents and no junctions.
fn put_fungible(out: &mut Out, parents: u8, amount: u32) -> Result<(), AllocError>
    ensures { OnOk result (out.new ≡ out.old ++ fungible_bytes parents amount) }
{
    out.put_bytes(&[parents, 0, 0])?;
    out.put_compact(u128::from(amount))
}

/// Appends BuyExecution of 100 of that asset.
fn put_purchase(out: &mut Out, parents: u8) -> Result<(), AllocError>
    ensures { OnOk result (out.new ≡ out.old ++ purchase_bytes parents) }
{
    out.put_u8(19)?;
    put_fungible(out, parents, 100)?;
    out.put_u8(0)
}

/// Appends DepositAsset of one asset to the account whose bytes are all the same.
fn put_deposit(out: &mut Out, who: u8) -> Result<(), AllocError>
    ensures { OnOk result (out.new ≡ out.old ++ deposit_bytes who) }
{
    out.put_bytes(&[13, 1, 2, 4, 0, 1, 1, 0])?;
    out.put_bytes(&[who; 32])
}

/// Appends a program of these two instructions.
fn put_paid_deposit(out: &mut Out, parents: u8, who: u8) -> Result<(), AllocError>
    ensures { OnOk result (out.new ≡ out.old ++ paid_deposit parents who) }
{
    out.put_u8(8)?;
    put_purchase(out, parents)?;
    put_deposit(out, who)
}

/// The message by which an account of the relay chain sends so much to a parachain.
pub(crate) fn send_message(alloc: Global, value: u32, para: u32) -> Result<Vec<u8>, AllocError>
    ensures { IfOk result (λ bytes. bytes.items ≡ send_message value para) }
{
    let mut out = Out::with_capacity(alloc, MESSAGE_ROOM)?;
    out.put_bytes(&[4, 4, 5, 4])?;
    put_fungible(&mut out, 0, value)?;
    out.put_bytes(&[0, 1, 0])?;
    out.put_compact(u128::from(para))?;
    put_paid_deposit(&mut out, 1, 2)?;
    Ok(out.into_vec())
}

/// The message by which an account of a parachain sends so much back to the relay chain.
pub(crate) fn return_message(alloc: Global, value: u32) -> Result<Vec<u8>, AllocError>
    ensures { IfOk result (λ bytes. bytes.items ≡ return_message value) }
{
    let mut out = Out::with_capacity(alloc, MESSAGE_ROOM)?;
    out.put_bytes(&[4, 8, 0, 4])?;
    put_fungible(&mut out, 1, value)?;
    out.put_bytes(&[16, 1, 0, 1, 0])?;
    put_paid_deposit(&mut out, 0, 3)?;
    Ok(out.into_vec())
}
