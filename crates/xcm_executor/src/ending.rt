//! The end of a run.
ghost use Rattle.std.specs.Prelude.{◌≡◌, ◌<◌, length, OnOk, OnErr, IfOk};
ghost use Rattle.amounts.specs.Amounts.{rows};
ghost use Rattle.operands.specs.Weights.{IsWithin};
ghost use Rattle.exec_base.specs.Host.{trapped};
ghost use Rattle.exec_rules.specs.Machine.{machine};
ghost use Rattle.exec_rules.specs.Outcome.{refund_surplus, outcome_of, owner_of, refunded_last, rest_trapped, finished, abandoned, HaltedAtEnd};
ghost use Rattle.exec_rules.specs.Instructions.{xcm};
ghost use Rattle.exec_rules.specs.Readiness.{IsReady};
ghost use Rattle.exec_rules.specs.Stopping.{leaves_on_oom};
ghost use Rattle.xcm_executor.specs.Running.{wound_up, HaltedBefore};

use asset_bundles::AssetBundle;
use exec_assets::refund_surplus;
use exec_base::{Event, Host, Registers};
use exec_rules::law_of_readiness;
use locations::Location;
use operands::Weight;
use plain_lists::Boxed;
use std::alloc::{AllocError, Global};
use std::mem;
use xcm_program::{Outcome, OutcomeError};

/// How a run of a program of this weight ended.
fn outcome(weight: Weight, r: &Registers) -> Outcome
    requires within { IsWithin r.now.surplus weight }
    ensures { result ≡ outcome_of weight r.now }
{
    let used = Weight {
        ref_time: weight.ref_time - r.surplus.ref_time,
        proof_size: weight.proof_size - r.surplus.proof_size,
    };
    match r.error {
        None => Outcome::Complete { used },
        Some((_, error)) => Outcome::Incomplete {
            used,
            error: OutcomeError::Xcm(error),
        },
    }
}

/// Takes out what is held.
fn take_held(alloc: Global, r: &mut Registers) -> AssetBundle
    ensures { result ≡ r.old.holding }
{
    mem::replace(&mut r.holding, AssetBundle::empty(alloc))
}

/// Drops the registers, of which what was held was taken out.
pub(crate) fn let_go(r: Registers) {
    let Registers {
        holding,
        origin: _,
        original: _,
        error: _,
        handler: _,
        handler_weight: _,
        appendix: _,
        appendix_weight: _,
        topic: _,
        status: _,
        surplus: _,
        refunded: _,
        fees_mode: _,
        rule: _,
        max_holding: _,
    } = r;
    holding.melt();
}

/// For whom what is left is trapped.
fn owner(r: &Registers) -> &Location
    ensures { result.now ≡ owner_of r.now }
{
    match &r.origin {
        Some(origin) => origin,
        None => &r.original,
    }
}

/// Parks the holding: out of memory.
pub(crate) fn abandon<H: Host>(alloc: Global, r: &mut Registers, h: &mut H)
    requires few { length (H.part h.old).parked < 4 }
    ensures { H.part h.new ≡ abandoned r.old (H.part h.old) }
{
    h.park(take_held(alloc, r));
}

/// Traps the holding, where it isn't empty.
fn trap_rest<H: Host>(alloc: Global, r: &mut Registers, h: &mut H) -> Result<(), AllocError>
    requires few { length (H.part h.old).parked < 4 }
    ensures ok { OnOk result (H.part h.new ≡ rest_trapped r.old (H.part h.old)) }
    ensures err { OnErr result (H.part h.new ≡ abandoned r.old (H.part h.old)) }
{
    if r.holding.kinds() == 0 {
        return Ok(());
    }
    trap_held(alloc, r, h)
}

/// Traps the holding, which isn't empty: apart, since it is rare.
#[inline(never)]
fn trap_held<H: Host>(alloc: Global, r: &mut Registers, h: &mut H) -> Result<(), AllocError>
    requires some { 0 < length (rows r.old.holding) }
    requires few { length (H.part h.old).parked < 4 }
    ensures ok { OnOk result (H.part h.new
        ≡ trapped (H.part h.old) r.old.holding (owner_of r.old)) }
    ensures err { OnErr result (H.part h.new ≡ abandoned r.old (H.part h.old)) }
{
    let owner = owner(r).copy();
    match h.trap(take_held(alloc, r), &owner) {
        Ok(()) => Ok(()),
        Err(goods) => {
            h.park(goods);
            Err(AllocError)
        }
    }
}

/// Tries to refund the surplus, and ignores a refusal.
fn refund<H: Host>(r: &mut Registers, h: &mut H) -> Result<(), AllocError>
    requires ready { IsReady refund_surplus (machine r.old (H.part h.old)) }
    ensures ok { OnOk result (machine r.new (H.part h.new)
        ≡ refunded_last xcm (machine r.old (H.part h.old))) }
    ensures err { OnErr result (leaves_on_oom refund_surplus (machine r.old (H.part h.old))
        (machine r.new (H.part h.new))) }
{
    match refund_surplus(r, h)? {
        Ok(()) | Err(_) => Ok(()),
    }
}

/// A copy of the origin, in a box of its own.
fn same(alloc: Global, origin: &Option<Location>) -> Result<Option<Boxed<Location>>, AllocError>
    ensures { IfOk result (λ copy. copy ≡ origin.now) }
{
    match origin {
        Some(origin) => {
            // Made where it will be.
            let mut copy = Box::new(alloc, Location::here())?;
            copy.assign(origin);
            Ok(Some(Boxed::from_box(copy)))
        }
        None => Ok(None),
    }
}

/// Refunds what is left of the surplus, tells of the end, and settles the fees.
fn wind_up<H: Host>(alloc: Global, r: &mut Registers, h: &mut H) -> Result<(), AllocError>
    requires ready { IsReady refund_surplus (machine r.old (H.part h.old)) }
    ensures ok { OnOk result (machine r.new (H.part h.new)
        ≡ wound_up (machine r.old (H.part h.old))) }
    ensures err { OnErr result (HaltedBefore (machine r.old (H.part h.old))
        (machine r.new (H.part h.new))) }
{
    refund(r, h)?;
    let origin = same(alloc, &r.origin)?;
    h.event(Event::End {
        origin,
        topic: r.topic,
        surplus: r.surplus,
        refunded: r.refunded,
    })?;
    h.settle()?;
    Ok(())
}

/// Ends a run of a program of this weight, and tells its outcome.
pub(crate) fn close<H: Host>(
    alloc: Global,
    weight: Weight,
    r: &mut Registers,
    h: &mut H,
) -> Result<Outcome, AllocError>
    requires ready { IsReady refund_surplus (machine r.old (H.part h.old)) }
    requires within { IsWithin r.old.surplus weight }
    ensures ok { OnOk result (H.part h.new ≡ finished xcm (machine r.old (H.part h.old))) }
    ensures outcome { IfOk result (λ outcome. outcome
        ≡ outcome_of weight (refunded_last xcm (machine r.old (H.part h.old))).regs) }
    ensures err { OnErr result (HaltedAtEnd xcm leaves_on_oom (machine r.old (H.part h.old))
        (H.part h.new)) }
{
    law_of_readiness(); // For the prover alone.
    match wind_up(alloc, r, h) {
        Ok(()) => {
            let ended = outcome(weight, r);
            trap_rest(alloc, r, h)?;
            Ok(ended)
        }
        Err(fault) => {
            abandon(alloc, r, h);
            Err(fault)
        }
    }
}
