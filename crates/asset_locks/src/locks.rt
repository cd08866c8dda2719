//! The locks of a chain, one at a time.
ghost use Rattle.std.specs.Prelude.{◌≡◌, ◌<◌, ◌≤◌, max, OnOk, OnErr};
ghost use Rattle.amounts.specs.Amounts.{with_amount};
ghost use Rattle.asset_locks.specs.LockRows.{locks_in, locked_amount_in, AreSortedLocks};

use crate::Lock;
use crate::places::place_of;
use locations::Location;
use std::alloc::AllocError;

/// A lock, 0 where there is none.
pub(crate) fn lock_in(locks: &[Lock], who: &[u8; 32], id: &Location, unlocker: &Location) -> u128
    requires order { AreSortedLocks locks.now }
    ensures { result ≡ locked_amount_in locks.now (who.now, id.now, unlocker.now) }
{
    match place_of(locks, who, id, unlocker) {
        Ok(place) => locks[place].amount,
        Err(_) => 0,
    }
}

/// Makes a lock the greater of what it is and an amount, which isn't 0. An `Err` is out of memory.
pub(crate) fn raise_lock(
    locks: &mut Vec<Lock>,
    who: &[u8; 32],
    id: &Location,
    unlocker: &Location,
    amount: u128,
) -> Result<(), AllocError>
    requires order { AreSortedLocks locks.old.items }
    requires some { 0 < amount }
    ensures order { AreSortedLocks locks.new.items }
    ensures raised { OnOk result
        (locks_in locks.new.items ≡ with_amount (locks_in locks.old.items)
        (who.now, id.now, unlocker.now)
        (max (locked_amount_in locks.old.items (who.now, id.now, unlocker.now)) amount)) }
    ensures kept { OnErr result (locks_in locks.new.items ≡ locks_in locks.old.items) }
{
    match place_of(locks.as_slice(), who, id, unlocker) {
        Ok(place) => {
            locks[place].amount = locks[place].amount.max(amount);
            Ok(())
        }
        Err(place) => {
            let lock = Lock {
                who: *who,
                id: id.copy(),
                unlocker: unlocker.copy(),
                amount,
            };
            locks.insert(place, lock)?;
            Ok(())
        }
    }
}

/// Lowers a lock to an amount, which it isn't below. It takes no memory.
pub(crate) fn lower_lock(
    locks: &mut Vec<Lock>,
    who: &[u8; 32],
    id: &Location,
    unlocker: &Location,
    amount: u128,
)
    requires order { AreSortedLocks locks.old.items }
    requires most { amount ≤ locked_amount_in locks.old.items (who.now, id.now, unlocker.now) }
    ensures order { AreSortedLocks locks.new.items }
    ensures lowered { locks_in locks.new.items ≡ with_amount (locks_in locks.old.items)
        (who.now, id.now, unlocker.now) amount }
{
    let Ok(place) = place_of(locks.as_slice(), who, id, unlocker) else {
        return;
    };
    if amount == 0 {
        locks.remove(place);
        return;
    }
    locks[place].amount = amount;
}
