//! What stays at the chain: moves between accounts, traps, arrivals, burns, queries, weight and fees.
//!
//! Each function borrows a chain that has just opened and says whether all calls answer as they should.
ghost use Rattle.std.specs.Prelude.{◌≡◌, ◌<◌, []};
ghost use Rattle.amounts.specs.Amounts.{empty};
ghost use Rattle.channel_parts.specs.declared.cargo.Cargo.{Cargo};
ghost use Rattle.chain_state.specs.PartOf.{part_of};

use crate::chains::{A1, A2, A9, PARA, at, held, here, list, of, para, put, taken};
use asset_bundles::{AssetBundle, Cause, Way, law_of_listed_assets};
use asset_lists::{AssetId, Assets, Filter, Kind};
use chain_queues::Cargo;
use chain_state::ChainState;
use exec_base::{Event, Host, HostFault};
use locations::{Junction, Location};
use operands::{Weight, XcmError};
use std::alloc::Global;

/// Traps goods, unless there are none.
fn trap(chain: &mut ChainState, goods: AssetBundle) {
    if goods.kinds() == 0 {
        goods.melt();
        return;
    }
    match chain.trap(goods, &of(A1)) {
        Ok(()) => {}
        Err(goods) => goods.melt(),
    }
}

/// Takes assets out of the first account, offers them to a location, and traps them where it is refused: why it is refused.
fn offered(
    chain: &mut ChainState,
    assets: &Assets,
    to: &Location,
) -> Result<Option<HostFault>, HostFault> {
    let goods = chain.withdraw(assets, &of(A1))?;
    match chain.deposit(goods, to) {
        Ok(()) => Ok(None),
        Err((goods, fault)) => {
            trap(chain, goods);
            Ok(Some(fault))
        }
    }
}

/// Claims assets for the first account, and puts them into the second.
fn claimed(chain: &mut ChainState, assets: &Assets) -> Result<Option<HostFault>, HostFault> {
    let goods = chain.claim(assets, &of(A1))?;
    Ok(put(chain, goods, &of(A2)))
}

/// What no account takes is trapped, and claimed once.
pub(crate) fn traps(chain: &mut ChainState, alloc: Global) -> Result<bool, HostFault> {
    let ten = list(alloc, here(), 10)?;
    let nobody = at(Junction::OnlyChild);
    let failed = HostFault::Xcm(XcmError::FailedToTransactAsset);
    let so = [
        offered(chain, &ten, &nobody) == Ok(Some(failed)),
        held(chain, &A1) == 90,
        chain
            .traps()
            .total(&AssetId::Concrete(here()), Kind::Fungible)
            .low
            == 10,
        matches!(chain.trace(), [Event::Trapped { number: 1 }]),
        claimed(chain, &ten) == Ok(None),
        claimed(chain, &ten) == Err(HostFault::Xcm(XcmError::UnknownClaim)),
        held(chain, &A2) == 10,
        chain.transfer(&ten, &of(A2), &of(A1)) == Ok(()),
        chain.transfer(&ten, &of(A2), &of(A1)) == Err(failed),
        held(chain, &A1) == 100,
    ];
    Ok(so == [true; 10])
}

/// Receives so much of the asset that this location defines from the parachain: how many kinds that is.
fn received(
    chain: &mut ChainState,
    alloc: Global,
    place: Location,
    amount: u128,
    teleport: bool,
) -> Result<usize, HostFault>
    requires { 0 < amount }
{
    let assets = list(alloc, place, amount)?;
    let goods = chain.receive(&assets, &para(), teleport)?;
    let kinds = goods.kinds();
    goods.melt();
    Ok(kinds)
}

/// Assets arrive from chains that are trusted for them.
pub(crate) fn arrivals(chain: &mut ChainState, alloc: Global) -> bool {
    let short = HostFault::Xcm(XcmError::NotWithdrawable);
    let no_reserve = HostFault::Xcm(XcmError::UntrustedReserveLocation);
    let no_partner = HostFault::Xcm(XcmError::UntrustedTeleportLocation);
    let so = [
        received(chain, alloc, para(), 5, false) == Ok(1),
        received(chain, alloc, here(), 3, true) == Ok(1),
        received(chain, alloc, here(), 8, true) == Err(short),
        received(chain, alloc, here(), 3, false) == Err(no_reserve),
        received(chain, alloc, para(), 5, true) == Err(no_partner),
        chain.checking(0) == Some(7),
        chain.checking(1).is_none(),
    ];
    so == [true; 7]
}

/// Receives so much in a delivery that carries 5: whether that ends what it carries.
pub(crate) fn ends_cargo(
    chain: &mut ChainState,
    alloc: Global,
    amount: u128,
) -> Result<bool, HostFault>
    requires amount { 0 < amount }
    requires cargo { (part_of chain.old).cargo.cargo ≡ Cargo.Nothing }
{
    let carried = list(alloc, here(), 5)?;
    chain.begin(PARA, Cargo::Deposit(carried));
    received(chain, alloc, para(), amount, false)?;
    Ok(matches!(chain.finish(), Cargo::Nothing))
}

/// Burns assets of the first account.
fn burnt(chain: &mut ChainState, assets: &Assets) -> Result<(), HostFault> {
    let goods = taken(chain, assets)?;
    match chain.burn(goods) {
        Ok(()) => Ok(()),
        Err(goods) => {
            goods.melt();
            Err(HostFault::Memory)
        }
    }
}

/// Loses a teleport of assets of the first account.
fn lost(chain: &mut ChainState, assets: &Assets) -> Result<(), HostFault> {
    let goods = taken(chain, assets)?;
    chain.lose(goods.ship(Way::Teleport));
    Ok(())
}

/// Takes some of the first account's assets apart, and joins them again: how much that is.
fn joined(chain: &mut ChainState, assets: &Assets, some: &Filter) -> Result<u128, HostFault> {
    // For the prover alone: what is taken and left is listed.
    law_of_listed_assets();
    let mut goods = taken(chain, assets)?;
    let Ok(part) = goods.take(some) else {
        goods.melt();
        return Err(HostFault::Memory);
    };
    if let Err(part) = chain.join(&mut goods, part) {
        part.melt();
    }
    let amount = goods.amount(&AssetId::Concrete(here()));
    goods.melt();
    Ok(amount)
}

/// Burns are booked, and queries answered once.
pub(crate) fn burns(chain: &mut ChainState, alloc: Global) -> Result<bool, HostFault> {
    let seven = list(alloc, here(), 7)?;
    let some = Filter::Definite(list(alloc, here(), 2)?);
    let id = AssetId::Concrete(here());
    let so = [
        joined(chain, &seven, &some) == Ok(7),
        burnt(chain, &seven) == Ok(()),
        lost(chain, &seven) == Ok(()),
        chain
            .burns()
            .total(&id, Kind::Fungible, Cause::BurnAsset)
            .low
            == 7,
        chain
            .burns()
            .total(&id, Kind::Fungible, Cause::LostTeleport)
            .low
            == 7,
        chain.answer(&para(), 7) == Ok(true),
        chain.answer(&para(), 7) == Ok(false),
        chain.event(Event::Ignored { query: 1 }).is_ok(),
        matches!(
            chain.trace(),
            [
                Event::Ignored { query: 1 },
                Event::Burned { .. },
                Event::Answered { query: 7 },
                Event::Ignored { query: 7 },
            ]
        ),
    ];
    Ok(so == [true; 9])
}

/// So much weight.
fn time(ref_time: u64) -> Weight {
    Weight {
        ref_time,
        proof_size: 0,
    }
}

/// Buys weight with assets of the first account: what is unspent.
fn unspent(chain: &mut ChainState, w: Weight, assets: &Assets) -> Result<u128, HostFault> {
    let payment = chain.withdraw(assets, &of(A1))?;
    match chain.buy(w, payment) {
        Ok(left) => {
            let amount = left.amount(&AssetId::Concrete(here()));
            left.melt();
            Ok(amount)
        }
        Err((payment, fault)) => {
            payment.melt();
            Err(fault)
        }
    }
}

/// Puts the fee of the parachain's channel from the first account into the slot, if there is one.
fn charge(chain: &mut ChainState) -> Result<bool, HostFault>
    requires { (part_of chain.old).fee_slot ≡ empty }
{
    let Some(fee) = chain.fee_of(&para()) else {
        return Ok(false);
    };
    let goods = chain.draw_fee(&fee, &of(A1))?;
    chain.hold_fee(goods);
    Ok(true)
}

/// Weight is bought and given back, and fees are held, kept, taken back and settled.
pub(crate) fn fees(chain: &mut ChainState, alloc: Global) -> Result<bool, HostFault>
    requires { (part_of chain.old).fee_slot ≡ empty }
{
    let five = list(alloc, here(), 5)?;
    let id = AssetId::Concrete(here());
    let first = charge(chain) == Ok(true);
    chain.keep_fee();
    let second = charge(chain) == Ok(true);
    let back = chain.take_fee();
    let paid = [
        first,
        second,
        put(chain, back, &of(A1)).is_none(),
        unspent(chain, time(3), &five) == Ok(2),
        unspent(chain, time(6), &five) == Err(HostFault::Xcm(XcmError::TooExpensive)),
        chain.refund_of(time(1)) == Some((here(), 1)),
    ];
    let refund = chain.refund(time(1))?;
    let settled = [
        put(chain, refund, &of(A1)).is_none(),
        chain.aside(&id, Kind::Fungible).low == 4,
        chain.settle().is_ok(),
        chain.aside(&id, Kind::Fungible).low == 0,
        held(chain, &A9) == 4,
    ];
    Ok(paid == [true; 6] && settled == [true; 5])
}

/// Parks assets of the first account.
fn park(chain: &mut ChainState, assets: &Assets) -> Result<(), HostFault>
    requires { (part_of chain.old).parked ≡ [] }
{
    let goods = chain.withdraw(assets, &of(A1))?;
    chain.park(goods);
    Ok(())
}

/// What is parked is kept aside.
pub(crate) fn parking(chain: &mut ChainState, alloc: Global) -> Result<bool, HostFault>
    requires { (part_of chain.old).parked ≡ [] }
{
    let five = list(alloc, here(), 5)?;
    let so = [
        park(chain, &five) == Ok(()),
        chain.parked().len() == 1,
        chain.aside(&AssetId::Concrete(here()), Kind::Fungible).low == 5,
        chain.open_queries().len() == 1,
        chain.queues().channels().len() == 1,
    ];
    Ok(so == [true; 5])
}
