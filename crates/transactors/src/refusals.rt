//! Why a list isn't moved.
ghost use Rattle.std.specs.Prelude.{◌≡◌};
ghost use Rattle.transactors.specs.Moves.{withdraw_fault, deposit_fault, transfer_fault};

use crate::{MoveFault, Transactor};
use asset_bundles::AssetBundle;
use asset_lists::Assets;
use ledgers::Ledger;

/// Why a list isn't taken out of the account, before it is taken: the first asset in order that is refused decides.
/// None where only memory can refuse it. It takes no memory.
pub fn withdraw_fault<T: Transactor>(
    t: &T,
    ledger: &Ledger,
    list: &Assets,
    from: Option<[u8; 32]>,
) -> Option<MoveFault>
    requires agrees { T.agrees t.now }
    ensures fault { result
        ≡ withdraw_fault (T.rows t.now) (T.floors t.now) ledger.now list.now from }
{
    for asset in list.items() {
        if let Err(fault) = t.check_account_out(ledger, asset, from) {
            return Some(fault);
        }
    }
    None
}

/// Why goods aren't put into the account, before they are put there: the first asset in holding order that is refused
/// decides. None where only memory can refuse it. It takes no memory.
pub fn deposit_fault<T: Transactor>(
    t: &T,
    ledger: &Ledger,
    goods: &AssetBundle,
    to: Option<[u8; 32]>,
) -> Option<MoveFault>
    requires agrees { T.agrees t.now }
    ensures fault { result ≡ deposit_fault (T.rows t.now) ledger.now goods.now to }
{
    for asset in goods.items() {
        if let Err(fault) = t.check_account_in(ledger, asset, to) {
            return Some(fault);
        }
    }
    None
}

/// Why a list isn't moved from one account to another, before it is moved: all assets are looked at for the giver
/// first, and then all for the receiver as it is after the giving. None where only memory can refuse it. It takes no memory.
pub fn transfer_fault<T: Transactor>(
    t: &T,
    ledger: &Ledger,
    list: &Assets,
    from: Option<[u8; 32]>,
    to: Option<[u8; 32]>,
) -> Option<MoveFault>
    requires agrees { T.agrees t.now }
    ensures fault { result
        ≡ transfer_fault (T.rows t.now) (T.floors t.now) ledger.now list.now from to }
{
    if let Some(fault) = withdraw_fault(t, ledger, list, from) {
        return Some(fault);
    }
    if list.items().is_empty() {
        return None;
    }
    let Some(giver) = from else {
        unreachable!();
    };
    let Some(taker) = to else {
        return Some(MoveFault::NoAccount);
    };
    match ledger.transfer_overflow(&giver, &taker, list) {
        None => None,
        Some(_) => Some(MoveFault::Refused),
    }
}
