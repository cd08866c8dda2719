//! The notes of a chain, one at a time.
ghost use Rattle.std.specs.Prelude.{◌≡◌, ◌<◌, ◌≤◌, max, OnOk, OnErr};
ghost use Rattle.amounts.specs.Amounts.{with_amount};
ghost use Rattle.asset_locks.specs.NoteRows.{notes_in, note_at};

use locations::Location;
use std::alloc::AllocError;
use std::collections::BTreeMap;

/// Each note by who holds the lock, the asset and the owner.
pub(crate) type NoteRows = BTreeMap<(Location, Location, [u8; 32]), u128>;

/// The key of a note.
fn key_of(locker: &Location, id: &Location, owner: &[u8; 32]) -> (Location, Location, [u8; 32])
    ensures { result ≡ (locker.now, id.now, owner.now) }
{
    // For speed: both locations are written where they will be.
    let mut key = (Location::here(), Location::here(), *owner);
    key.0.assign(locker);
    key.1.assign(id);
    key
}

/// A note, 0 where there is none.
pub(crate) fn note_in(rows: &NoteRows, locker: &Location, id: &Location, owner: &[u8; 32]) -> u128
    ensures { result ≡ note_at rows.now.entries (locker.now, id.now, owner.now) }
{
    rows.get(&key_of(locker, id, owner)).copied().unwrap_or(0)
}

/// Makes a note the greater of what it is and an amount. An `Err` is out of memory.
pub(crate) fn raise_note(
    rows: &mut NoteRows,
    locker: &Location,
    id: &Location,
    owner: &[u8; 32],
    amount: u128,
) -> Result<(), AllocError>
    ensures raised { OnOk result
        (notes_in rows.new.entries ≡ with_amount (notes_in rows.old.entries)
        (locker.now, id.now, owner.now)
        (max (note_at rows.old.entries (locker.now, id.now, owner.now)) amount)) }
    ensures kept { OnErr result (notes_in rows.new.entries ≡ notes_in rows.old.entries) }
{
    let key = key_of(locker, id, owner);
    if amount > rows.get(&key).copied().unwrap_or(0) {
        rows.insert(key, amount)?;
    }
    Ok(())
}

/// Lowers a note to an amount, which it isn't below. It takes no memory.
pub(crate) fn lower_note(
    rows: &mut NoteRows,
    locker: &Location,
    id: &Location,
    owner: &[u8; 32],
    amount: u128,
)
    requires { amount ≤ note_at rows.old.entries (locker.now, id.now, owner.now) }
    ensures { notes_in rows.new.entries ≡ with_amount (notes_in rows.old.entries)
        (locker.now, id.now, owner.now) amount }
{
    let key = key_of(locker, id, owner);
    if amount == 0 {
        rows.remove(&key);
        return;
    }
    match rows.insert(key, amount) {
        Ok(_) => {}
        Err(_) => unreachable!(),
    }
}
