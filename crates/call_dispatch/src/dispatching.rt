//! What a call does.

ghost use Rattle.std.specs.Prelude.{◌≡◌, None, Ok, OnOk, OnErr, IfOk};
ghost use Rattle.call_dispatch.specs.declared.end.CallEnd.TheVariants.{Success};
ghost use Rattle.call_dispatch.specs.Spelling.{Item, AnyCall};
ghost use Rattle.call_dispatch.specs.Shifts.{shift_fault, shifted, IsNumberAt};
ghost use Rattle.call_dispatch.specs.Dispatches.{moved_unless, dispatch_item, dispatch_items, dispatch, IsInterrupted, IsStoppedInside, MayStop, IsBeside};
ghost use Rattle.call_dispatch.specs.TakingBack.{taken_back, CanTakeBack, HadNumber};

use crate::{Call, CallEnd, Mover, NoBatch, PositiveAmount, ShiftFault};
use std::alloc::AllocError;

/// Moves an amount out of the account.
fn dispatch_transfer<M: Mover>(
    m: &mut M,
    who: &[u8; 32],
    row: u32,
    dest: &[u8; 32],
    amount: PositiveAmount,
) -> Result<CallEnd, AllocError>
    ensures ok { IfOk result (λ end. (M.amounts m.new, end)
        ≡ moved_unless
        (shift_fault (M.amounts m.old) (M.floors m.old) (M.rows m.old) row who.now dest.now amount)
        (shifted (M.amounts m.old) row who.now dest.now amount)
        (M.amounts m.old)) }
    ensures had { result ≡ Ok Success → IsNumberAt (M.amounts m.old) (who.now, row) }
    ensures err { OnErr result (M.amounts m.new ≡ M.amounts m.old) }
    ensures wanted { OnErr result (shift_fault (M.amounts m.old) (M.floors m.old) (M.rows m.old) row
        who.now dest.now amount ≡ None) }
    ensures beside { IsBeside (M.floors m.old) (M.floors m.new) (M.rows m.old) (M.rows m.new)
        (M.other m.old) (M.other m.new) }
{
    match m.shift(row, who, dest, amount.get()) {
        Ok(()) => Ok(CallEnd::Success),
        Err(ShiftFault::NoRow) => Ok(CallEnd::Error(1)),
        Err(ShiftFault::NotEnough { .. }) => Ok(CallEnd::Error(2)),
        Err(ShiftFault::Overflow { .. }) => Ok(CallEnd::Error(3)),
        Err(ShiftFault::Memory) => Err(AllocError),
    }
}

/// Does a call that is no batch.
#[tactic(auto, unfolding(crate::specs::Dispatches::dispatch_item))]
fn dispatch_item<M: Mover>(
    m: &mut M,
    who: &[u8; 32],
    c: &Call<NoBatch>,
) -> Result<CallEnd, AllocError>
    ensures ok { IfOk result (λ end. (M.amounts m.new, end)
        ≡ dispatch_item (M.amounts m.old) (M.floors m.old) (M.rows m.old) who.now c.now) }
    ensures had { result ≡ Ok Success → HadNumber (M.amounts m.old) who.now c.now }
    ensures err { OnErr result (M.amounts m.new ≡ M.amounts m.old) }
    ensures wanted { OnErr result ((dispatch_item (M.amounts m.old) (M.floors m.old)
        (M.rows m.old) who.now c.now).1 ≡ Success) }
    ensures beside { IsBeside (M.floors m.old) (M.floors m.new) (M.rows m.old) (M.rows m.new)
        (M.other m.old) (M.other m.new) }
{
    match c {
        Call::Remark(_) => Ok(CallEnd::Success),
        Call::Transfer { row, dest, amount } => dispatch_transfer(m, who, *row, dest, *amount),
        Call::Fail(code) => Ok(CallEnd::Error(*code)),
        Call::Batch(none) => match *none {},
    }
}

/// Moves back what a call moved. An `Err` is out of memory.
fn take_back<M: Mover>(m: &mut M, who: &[u8; 32], c: &Call<NoBatch>) -> Result<(), AllocError>
    requires { CanTakeBack (M.amounts m.old) (M.floors m.old) (M.rows m.old) who.now c.now }
    ensures ok { OnOk result (M.amounts m.new ≡ taken_back (M.amounts m.old) who.now c.now) }
    ensures err { OnErr result (M.amounts m.new ≡ M.amounts m.old) }
    ensures beside { IsBeside (M.floors m.old) (M.floors m.new) (M.rows m.old) (M.rows m.new)
        (M.other m.old) (M.other m.new) }
{
    match c {
        Call::Remark(_) | Call::Fail(_) => Ok(()),
        Call::Transfer { row, dest, amount } => match m.shift(*row, dest, who, amount.get()) {
            Ok(()) => Ok(()),
            Err(ShiftFault::Memory) => Err(AllocError),
            Err(_) => unreachable!(),
        },
        Call::Batch(none) => match *none {},
    }
}

/// Does these calls in order: all of them; or none, where one fails. Each is kept until one after it fails, and is then moved back.
fn dispatch_items<M: Mover>(
    m: &mut M,
    who: &[u8; 32],
    items: &[Call<NoBatch>],
) -> Result<CallEnd, AllocError>
    ensures ok { IfOk result (λ end. (M.amounts m.new, end)
        ≡ dispatch_items (M.amounts m.old) (M.amounts m.old) (M.floors m.old)
        (M.rows m.old) who.now items.now) }
    ensures err { OnErr result (IsStoppedInside (M.amounts m.old) (M.floors m.old)
        (M.rows m.old) who.now items.now (M.amounts m.new)) }
    ensures beside { IsBeside (M.floors m.old) (M.floors m.new) (M.rows m.old) (M.rows m.new)
        (M.other m.old) (M.other m.new) }
{
    let Some((item, rest)) = items.split_first() else {
        return Ok(CallEnd::Success);
    };
    match dispatch_item(m, who, item)? {
        CallEnd::Error(code) => Ok(CallEnd::Error(code)),
        CallEnd::Success => match dispatch_items(m, who, rest)? {
            CallEnd::Success => Ok(CallEnd::Success),
            CallEnd::Error(code) => {
                take_back(m, who, item)?;
                Ok(CallEnd::Error(code))
            }
        },
    }
}

/// Does the call for the account. A batch does its calls in order; where one fails, the batch answers so, and none of its moves is kept.
/// Where memory is refused, a prefix of a batch may have been done.
#[tactic(auto, unfolding(crate::specs::Dispatches::dispatch))]
pub fn dispatch<M: Mover>(m: &mut M, who: &[u8; 32], c: &Call) -> Result<CallEnd, AllocError>
    ensures ok { IfOk result (λ end. (M.amounts m.new, end)
        ≡ dispatch (M.amounts m.old) (M.floors m.old) (M.rows m.old) who.now c.now) }
    ensures err { OnErr result (IsInterrupted (M.amounts m.old) (M.floors m.old)
        (M.rows m.old) who.now c.now (M.amounts m.new)) }
    ensures wanted { OnErr result (MayStop (M.amounts m.old) (M.floors m.old) (M.rows m.old) who.now
        c.now (M.amounts m.new)) }
    ensures beside { IsBeside (M.floors m.old) (M.floors m.new) (M.rows m.old) (M.rows m.new)
        (M.other m.old) (M.other m.new) }
{
    match c {
        Call::Remark(_) => Ok(CallEnd::Success),
        Call::Transfer { row, dest, amount } => dispatch_transfer(m, who, *row, dest, *amount),
        Call::Fail(code) => Ok(CallEnd::Error(*code)),
        Call::Batch(items) => dispatch_items(m, who, items.items()),
    }
}
