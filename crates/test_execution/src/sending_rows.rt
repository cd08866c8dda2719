//! What leaves the chain: transfers, deposits and shipments to another chain, reports, and programs.
//!
//! Each function borrows a chain that has just opened and says whether all calls answer as they should.
ghost use Rattle.exec_base.specs.Sending.{IsForwardable};

use crate::chains::{A1, PARA, at, held, here, list, of, para};
use asset_bundles::{AssetBundle, Way};
use asset_lists::Assets;
use chain_queues::Cargo;
use chain_state::ChainState;
use exec_base::{Event, Host, HostFault};
use locations::{Junction, Location};
use operands::{QueryInfo, Response, Weight, XcmError};
use plain_lists::Listed;
use std::alloc::Global;
use xcm_program::Program;

/// A program of no instruction.
fn nothing(alloc: Global) -> Program
    ensures { IsForwardable result }
{
    Listed::from_vec(Vec::new(alloc))
}

/// How assets leave the chain.
#[derive(Clone, Copy)]
enum Leave {
    Transfer,
    Deposit,
    Ship(Way),
}

/// The number of the message; where it is refused, the goods are put back into the first account.
fn put_back(
    chain: &mut ChainState,
    answer: Result<u64, (AssetBundle, HostFault)>,
) -> Result<u64, HostFault> {
    match answer {
        Ok(number) => Ok(number),
        Err((goods, fault)) => match chain.deposit(goods, &of(A1)) {
            Ok(()) => Err(fault),
            Err((goods, fault)) => {
                goods.melt();
                Err(fault)
            }
        },
    }
}

/// Sends assets of the first account so: the number of the message.
fn sent(
    chain: &mut ChainState,
    alloc: Global,
    leave: Leave,
    assets: &Assets,
    dest: &Location,
) -> Result<u64, HostFault> {
    let program = nothing(alloc);
    let way = match leave {
        Leave::Transfer => return chain.transfer_out(assets, &of(A1), dest, &program),
        Leave::Deposit => None,
        Leave::Ship(way) => Some(way),
    };
    let goods = chain.withdraw(assets, &of(A1))?;
    let answer = match way {
        None => chain.deposit_out(goods, dest, &program),
        Some(way) => chain.ship_out(goods, way, dest, &program),
    };
    put_back(chain, answer)
}

/// Assets of the chain leave for chains that are trusted for them.
pub(crate) fn leaving(chain: &mut ChainState, alloc: Global) -> Result<bool, HostFault> {
    let own = list(alloc, here(), 3)?;
    let near = para();
    let distrust = HostFault::Xcm(XcmError::UntrustedReserveLocation);
    let so = [
        sent(chain, alloc, Leave::Transfer, &own, &near) == Ok(1),
        sent(chain, alloc, Leave::Deposit, &own, &near) == Ok(2),
        sent(chain, alloc, Leave::Ship(Way::Teleport), &own, &near) == Ok(3),
        sent(chain, alloc, Leave::Ship(Way::Withdrawal), &own, &near) == Err(distrust),
        chain.checking(0) == Some(13),
        held(chain, &A1) == 91,
    ];
    Ok(so == [true; 6])
}

/// A derivative leaves for its reserve alone.
pub(crate) fn derivatives(chain: &mut ChainState, alloc: Global) -> Result<bool, HostFault> {
    let foreign = list(alloc, para(), 1)?;
    let near = para();
    let distrust = HostFault::Xcm(XcmError::UntrustedTeleportLocation);
    let so = [
        sent(chain, alloc, Leave::Ship(Way::Teleport), &foreign, &near) == Err(distrust),
        sent(chain, alloc, Leave::Ship(Way::Withdrawal), &foreign, &near) == Ok(1),
        chain.event(Event::Ignored { query: 1 }).is_ok(),
        matches!(
            chain.trace(),
            [Event::Ignored { query: 1 }, Event::Sent { number: 1, .. },]
        ),
    ];
    Ok(so == [true; 4])
}

/// What has no route keeps its goods.
pub(crate) fn routes(chain: &mut ChainState, alloc: Global) -> Result<bool, HostFault> {
    let own = list(alloc, here(), 3)?;
    let elsewhere = at(Junction::Parachain(7));
    let unroutable = HostFault::Xcm(XcmError::Unroutable);
    let so = [
        sent(chain, alloc, Leave::Transfer, &own, &elsewhere) == Err(unroutable),
        sent(chain, alloc, Leave::Deposit, &own, &elsewhere) == Err(unroutable),
        held(chain, &A1) == 100,
        chain.routes(&para()),
        !chain.routes(&elsewhere),
    ];
    Ok(so == [true; 5])
}

/// What a message carries.
fn carries(cargo: &Cargo) -> &'static str {
    match cargo {
        Cargo::Nothing => "nothing",
        Cargo::Deposit(_) => "deposit",
        Cargo::Away(_) => "shipment",
    }
}

/// Answers a query of the parachain for nobody.
fn report(chain: &mut ChainState) -> Result<u64, HostFault> {
    let info = QueryInfo {
        destination: para(),
        query_id: 5,
        max_weight: Weight::ZERO,
    };
    chain.respond(&info, Response::Null, None)
}

/// Whether the next message to the parachain has this number and carries this.
fn is_next(chain: &mut ChainState, number: u64, cargo: &str) -> bool {
    match chain.take(PARA) {
        Some(message) => message.number == number && carries(&message.cargo) == cargo,
        None => false,
    }
}

/// Messages wait with what they carry.
pub(crate) fn waiting(chain: &mut ChainState, alloc: Global) -> Result<bool, HostFault> {
    let own = list(alloc, here(), 3)?;
    let so = [
        chain.send(PARA, &nothing(alloc)) == Ok(1),
        report(chain) == Ok(2),
        sent(chain, alloc, Leave::Deposit, &own, &para()) == Ok(3),
        sent(chain, alloc, Leave::Ship(Way::Teleport), &own, &para()) == Ok(4),
        is_next(chain, 1, "nothing"),
        is_next(chain, 2, "nothing"),
        is_next(chain, 3, "deposit"),
        is_next(chain, 4, "shipment"),
        chain.take(PARA).is_none(),
    ];
    Ok(so == [true; 9])
}
