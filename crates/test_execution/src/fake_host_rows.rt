//! Calls of a host: a withdrawal, a deposit to a location without account, a trap and its claim.
use crate::FakeHost;
use crate::fake_chain::{A1, A2, at, five, holdings, of};
use asset_bundles::{AssetBundle, Total};
use asset_lists::{Assets, Kind};
use exec_base::{Event, Host, HostFault};
use locations::{Junction, Location};
use operands::XcmError;
use std::alloc::{AllocError, Global};
use std::test::Fail;

/// Whether just this account holds something: 5 of each asset, in holding order.
fn are_all_of(host: &FakeHost, who: &[u8; 32]) -> Result<bool, AllocError> {
    let list = host.accounts()?;
    if list.len() != 3 {
        return Ok(false);
    }
    for (place, holding) in list.iter().enumerate() {
        if holding.0 != *who || holding.1 != five(place as u128) {
            return Ok(false);
        }
    }
    Ok(true)
}

/// What is trapped of each asset.
fn trapped(host: &FakeHost) -> [Total; 3] {
    [
        host.trapped(&five(0).id, Kind::Fungible),
        host.trapped(&five(1).id, Kind::Fungible),
        host.trapped(&five(2).id, Kind::Fungible),
    ]
}

/// Traps goods, unless there are none.
fn trap(host: &mut FakeHost, goods: AssetBundle, origin: &Location) {
    if goods.kinds() == 0 {
        goods.melt();
        return;
    }
    match host.trap(goods, origin) {
        Ok(()) => {}
        Err(goods) => goods.melt(),
    }
}

/// Takes the list out of the first account, offers it to a location, and traps it where it is
/// refused: why it is refused.
fn offered(
    host: &mut FakeHost,
    list: &Assets,
    to: &Location,
) -> Result<Option<HostFault>, HostFault> {
    let goods = host.withdraw(list, &of(A1))?;
    match host.deposit(goods, to) {
        Ok(()) => Ok(None),
        Err((goods, fault)) => {
            trap(host, goods, &of(A1));
            Ok(Some(fault))
        }
    }
}

/// Claims the list for the first account, and puts it into the second.
fn claimed(host: &mut FakeHost, list: &Assets) -> Result<(), HostFault> {
    let goods = host.claim(list, &of(A1))?;
    match host.deposit(goods, &of(A2)) {
        Ok(()) => Ok(()),
        Err((goods, fault)) => {
            goods.melt();
            Err(fault)
        }
    }
}

/// The list is offered to a location without account and trapped, then claimed, and once more: whether each of these is so in its turn.
fn played(host: &mut FakeHost, list: &Assets) -> Result<[bool; 13], AllocError> {
    let nobody = at(Junction::PalletInstance(9));
    let none = Total::ZERO;
    let all = Total { high: 0, low: 5 };
    let refused = Ok(Some(HostFault::Xcm(XcmError::FailedToTransactAsset)));
    let unknown = Err(HostFault::Xcm(XcmError::UnknownClaim));
    Ok([
        holdings(host, &A1) == [5, 5, 5],
        are_all_of(host, &A1)?,
        trapped(host) == [none, none, none],
        offered(host, list, &nobody) == refused,
        holdings(host, &A1) == [0, 0, 0],
        host.accounts()?.is_empty(),
        trapped(host) == [all, all, all],
        matches!(host.events(), [Event::Trapped { number: 1 }]),
        claimed(host, list).is_ok(),
        holdings(host, &A2) == [5, 5, 5],
        are_all_of(host, &A2)?,
        trapped(host) == [none, none, none],
        claimed(host, list) == unknown,
    ])
}

/// Whether what no account takes is trapped and claimed.
pub(crate) fn are_trapped(alloc: Global, host: &mut FakeHost) -> Result<bool, Fail> {
    let list = Assets::from_sorted(vec![in alloc; five(0), five(1), five(2)]?)?;
    Ok(played(host, &list)? == [true; 13])
}
