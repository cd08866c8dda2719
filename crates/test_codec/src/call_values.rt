//! Accounts and calls that several tables speak of.
ghost use Rattle.std.specs.Prelude.{◌<◌};

use call_dispatch::{Batch, Call, NoBatch, PositiveAmount};

/// The account that calls.
pub(crate) const A1: [u8; 32] = [1; 32];

/// The account that receives.
pub(crate) const B2: [u8; 32] = [2; 32];

/// A transfer of an amount above 0.
pub(crate) fn transfer<B>(row: u32, dest: [u8; 32], amount: u128) -> Call<B>
    requires { 0 < amount }
{
    Call::Transfer {
        row,
        dest,
        amount: PositiveAmount::new(amount),
    }
}

/// A batch of these calls, the first 8 of them.
pub(crate) fn batch(mut items: Vec<Call<NoBatch>>) -> Call {
    items.truncate(8);
    Call::Batch(Batch::from_vec(items))
}
