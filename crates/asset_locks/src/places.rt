//! Where locks are in a list that rises by account, asset and unlocker.
ghost use Rattle.std.specs.Prelude.{◌≡◌, map, IfOk, IfErr};
ghost use Rattle.asset_locks.specs.Greatest.{greatest_in};
ghost use Rattle.asset_locks.specs.LockMaps.{locked_asset_cmp, lock_cmp, is_lock_of};
ghost use Rattle.asset_locks.specs.LockRows.{key_of, lock_row_of, AreSortedLocks, IsAt, IsGapFor};

use crate::Lock;
use locations::Location;
use std::cmp::Ordering;

/// Whether a lock comes before those of an account and an asset, is one of them, or comes after them.
fn compare_asset(lock: &Lock, who: &[u8; 32], id: &Location) -> Ordering
    ensures { result ≡ locked_asset_cmp (lock.now.who, lock.now.id) (who.now, id.now) }
{
    lock.who.cmp(who).then(lock.id.cmp(id))
}

/// Whether a lock comes before that of a key, is it, or comes after it.
fn compare(lock: &Lock, who: &[u8; 32], id: &Location, unlocker: &Location) -> Ordering
    ensures { result ≡ lock_cmp (key_of lock.now) (who.now, id.now, unlocker.now) }
{
    compare_asset(lock, who, id).then(lock.unlocker.cmp(unlocker))
}

/// Where the lock of a key is, or else where it would be. It takes no memory.
pub(crate) fn place_of(
    locks: &[Lock],
    who: &[u8; 32],
    id: &Location,
    unlocker: &Location,
) -> Result<usize, usize>
    requires order { AreSortedLocks locks.now }
    ensures found { IfOk result (IsAt locks.now (who.now, id.now, unlocker.now)) }
    ensures gap { IfErr result (IsGapFor locks.now (who.now, id.now, unlocker.now)) }
{
    locks.binary_search_by(|lock| compare(lock, who, id, unlocker))
}

/// The greatest lock of an account and an asset, 0 where it has none. It takes no memory, and its time grows with the
/// locks of that account and asset alone.
pub(crate) fn greatest_of(locks: &[Lock], who: &[u8; 32], id: &Location) -> u128
    requires order { AreSortedLocks locks.now }
    ensures greatest { result ≡ greatest_in (is_lock_of (who.now, id.now))
        (map lock_row_of locks.now) }
{
    let first = locks.partition_point(|lock| compare_asset(lock, who, id).is_lt());
    let mut most = 0;
    for lock in &locks[first..] {
        if compare_asset(lock, who, id).is_ne() {
            return most;
        }
        most = most.max(lock.amount);
    }
    most
}
