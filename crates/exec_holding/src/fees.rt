//! The delivery fee around an instruction that sends.
ghost use Rattle.std.specs.Prelude.{◌≡◌, IfOk, OnOk, OnErr};
ghost use Rattle.amounts.specs.Amounts.{empty};
ghost use Rattle.exec_base.specs.Host.{IsPrice, IsFeeOf, fee_to};
ghost use Rattle.exec_rules.specs.Machine.{machine};
ghost use Rattle.exec_rules.specs.Holdings.{payment_of};
ghost use Rattle.exec_rules.specs.Stopping.{fee_parked};
ghost use Rattle.exec_holding.specs.Charging.{Charged, IsRefundable, fee_returned, Begins, CanEnd, Ends};

use crate::holding::{answer_of, put_back, take_asset};
use asset_lists::Asset;
use exec_base::{Host, HostFault, Registers};
use locations::Location;
use operands::XcmError;
use std::alloc::{AllocError, Global};

/// Takes a delivery fee into the slot: out of the origin's account in fees mode, else out of the holding.
pub fn charge<H: Host>(
    alloc: Global,
    r: &mut Registers,
    h: &mut H,
    fee: &Asset,
) -> Result<Result<(), XcmError>, AllocError>
    requires price { IsPrice fee.now }
    requires fee { IsFeeOf (H.part h.old) (payment_of fee.now) }
    requires slot { (H.part h.old).fee_slot ≡ empty }
    ensures ok { IfOk result (λ answer. Charged fee.now (machine r.old (H.part h.old)) answer
        (machine r.new (H.part h.new))) }
    ensures err { OnErr result (machine r.new (H.part h.new) ≡ machine r.old (H.part h.old)) }
{
    if r.fees_mode {
        let Some(who) = &r.origin else {
            return Ok(Err(XcmError::BadOrigin));
        };
        match h.draw_fee(fee, who) {
            Ok(goods) => {
                h.hold_fee(goods);
                Ok(Ok(()))
            }
            Err(fault) => answer_of(fault),
        }
    } else {
        let Some(goods) = take_asset(alloc, &mut r.holding, fee)? else {
            return Ok(Err(XcmError::NotHoldingFees));
        };
        h.hold_fee(goods);
        Ok(Ok(()))
    }
}

/// Puts the fee in the slot back to where it came from, after a refusal, or parks it where memory is refused.
pub fn give_back<H: Host>(r: &mut Registers, h: &mut H) -> Result<(), AllocError>
    requires refundable { IsRefundable (machine r.old (H.part h.old)) }
    ensures ok { OnOk result (machine r.new (H.part h.new)
        ≡ fee_returned (machine r.old (H.part h.old))) }
    ensures err { OnErr result (machine r.new (H.part h.new)
        ≡ fee_parked (machine r.old (H.part h.old))) }
{
    let goods = h.take_fee();
    if !r.fees_mode {
        return put_back(&mut r.holding, h, goods);
    }
    let Some(who) = &r.origin else {
        return put_back(&mut r.holding, h, goods);
    };
    match h.deposit(goods, who) {
        Ok(()) => Ok(()),
        Err((goods, fault)) => {
            // The account can take back what it gave.
            prove!(matches!(fault, HostFault::Memory));
            h.park(goods);
            Err(AllocError)
        }
    }
}

/// Charges the delivery fee of the channel that leads there, before an instruction sends: whether there is one.
pub fn begin_sending<H: Host>(
    alloc: Global,
    r: &mut Registers,
    h: &mut H,
    dest: &Location,
) -> Result<Result<bool, XcmError>, AllocError>
    requires slot { (H.part h.old).fee_slot ≡ empty }
    ensures ok { IfOk result (λ answer. Begins (fee_to (H.part h.old) dest.now)
        (machine r.old (H.part h.old)) answer (machine r.new (H.part h.new))) }
    ensures err { OnErr result (machine r.new (H.part h.new) ≡ machine r.old (H.part h.old)) }
{
    if !h.has_fee(dest) {
        return Ok(Ok(false));
    }
    charge_for(alloc, r, h, dest)
}

/// The same, where there may be a fee: apart, since it makes large values.
#[inline(never)]
fn charge_for<H: Host>(
    alloc: Global,
    r: &mut Registers,
    h: &mut H,
    dest: &Location,
) -> Result<Result<bool, XcmError>, AllocError>
    requires slot { (H.part h.old).fee_slot ≡ empty }
    ensures ok { IfOk result (λ answer. Begins (fee_to (H.part h.old) dest.now)
        (machine r.old (H.part h.old)) answer (machine r.new (H.part h.new))) }
    ensures err { OnErr result (machine r.new (H.part h.new) ≡ machine r.old (H.part h.old)) }
{
    let Some(fee) = h.fee_of(dest) else {
        return Ok(Ok(false));
    };
    match charge(alloc, r, h, &fee)? {
        Ok(()) => Ok(Ok(true)),
        Err(e) => Ok(Err(e)),
    }
}

/// Keeps the fee that was charged where the instruction was done, and gives it back where that was refused.
pub fn end_sending<H: Host>(
    r: &mut Registers,
    h: &mut H,
    charged: bool,
    answer: Result<(), XcmError>,
) -> Result<Result<(), XcmError>, AllocError>
    requires can { CanEnd charged answer (machine r.old (H.part h.old)) }
    ensures { Ends charged answer (machine r.old (H.part h.old)) result
        (machine r.new (H.part h.new)) }
{
    if !charged {
        return Ok(answer);
    }
    match answer {
        Ok(()) => {
            h.keep_fee();
            Ok(Ok(()))
        }
        Err(e) => {
            give_back(r, h)?;
            Ok(Err(e))
        }
    }
}
