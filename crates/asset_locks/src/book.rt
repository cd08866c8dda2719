//! The book of locks of a chain.
ghost use Rattle.std.specs.Prelude.{◌≡◌, ◌↔◌, ◌<◌, ◌≤◌, IsOk, IfErr, OnOk, OnErr};
ghost use Rattle.asset_locks.specs.LockMaps.{no_locks, lock_at, floor, noted, locks_of, Locked, Unlocked, Noted, Reduced};

use crate::locks::{lock_in, lower_lock, raise_lock};
use crate::notes::{NoteRows, lower_note, note_in, raise_note};
use crate::places::greatest_of;
use crate::{Lock, NotLocked, NotNoted};
use locations::Location;
use std::alloc::{AllocError, Global};
use std::collections::BTreeMap;
use std::marker::Model;

/// The locks on what the accounts of a chain hold, and the chain's notes of locks that other chains hold.
/// Accounts are 32 bytes, and amounts are in the asset's smallest unit.
#[derive(Drop)]
pub struct LockBook {
    locks: Vec<Lock>,
    notes: NoteRows,
}

impl Model for LockBook {
    ghost use Rattle.asset_locks.specs.LockMaps.{LocksAndNotes};
    ghost use Rattle.asset_locks.specs.LockCode.{locks_and_notes_code};
    ghost use Rattle.asset_locks.specs.LockRows.{locks_in, AreSortedLocks};
    ghost use Rattle.asset_locks.specs.NoteRows.{notes_in};

    ghost Value = { LocksAndNotes };

    ghost coded = { locks_and_notes_code };

    ghost view = { λ b. record {
      locks = locks_in b.locks.items;
      notes = notes_in
          b.notes.entries;
    } };

    ghost invariant = { λ b. AreSortedLocks b.locks.items };
}

impl LockBook {
    /// A book without locks and notes.
    pub fn new(alloc: Global) -> LockBook
        ensures { result ≡ no_locks }
    {
        LockBook {
            locks: Vec::new(alloc),
            notes: BTreeMap::new(alloc),
        }
    }

    /// How much of an asset an account must keep: the greatest of its locks, 0 where it has none. It takes no memory.
    pub fn floor(&self, who: &[u8; 32], id: &Location) -> u128
        ensures { result ≡ floor who.now id.now self.now }
    {
        greatest_of(self.locks.as_slice(), who, id)
    }

    /// The note of what a locker holds locked of an owner's asset, 0 where there is none. It takes no memory.
    pub fn noted(&self, locker: &Location, id: &Location, owner: &[u8; 32]) -> u128
        ensures { result ≡ noted (locker.now, id.now, owner.now) self.now }
    {
        note_in(&self.notes, locker, id, owner)
    }

    /// All locks by account, asset and unlocker. It takes no memory.
    pub fn locks(&self) -> &[Lock]
        ensures { result.now ≡ locks_of self.now }
    {
        self.locks.as_slice()
    }

    /// Sets a lock: it becomes the greater of old and new. An `Err` is out of memory.
    pub fn lock(
        &mut self,
        who: &[u8; 32],
        id: &Location,
        amount: u128,
        unlocker: &Location,
    ) -> Result<(), AllocError>
        requires some { 0 < amount }
        ensures locked { OnOk result
            (self.new ≡ Locked (who.now, id.now, unlocker.now) amount self.old) }
        ensures kept { OnErr result (self.new ≡ self.old) }
    {
        raise_lock(&mut self.locks, who, id, unlocker, amount)
    }

    /// Lets a lock fall by an amount, or tells how much it is where it is less. It takes no memory.
    pub fn unlock(
        &mut self,
        who: &[u8; 32],
        id: &Location,
        amount: u128,
        unlocker: &Location,
    ) -> Result<(), NotLocked>
        ensures enough { IsOk result ↔ (amount ≤ lock_at (who.now, id.now, unlocker.now) self.old) }
        ensures unlocked { OnOk result
            (self.new ≡ Unlocked (who.now, id.now, unlocker.now) amount self.old) }
        ensures have { IfErr result
            (λ fault. fault.have ≡ lock_at (who.now, id.now, unlocker.now) self.old) }
        ensures kept { OnErr result (self.new ≡ self.old) }
    {
        let have = lock_in(self.locks.as_slice(), who, id, unlocker);
        if amount > have {
            return Err(NotLocked { have });
        }
        lower_lock(&mut self.locks, who, id, unlocker, have - amount);
        Ok(())
    }

    /// Sets a note: it becomes the greater of old and new. An `Err` is out of memory.
    pub fn note(
        &mut self,
        locker: &Location,
        id: &Location,
        amount: u128,
        owner: &[u8; 32],
    ) -> Result<(), AllocError>
        requires some { 0 < amount }
        ensures noted { OnOk result
            (self.new ≡ Noted (locker.now, id.now, owner.now) amount self.old) }
        ensures kept { OnErr result (self.new ≡ self.old) }
    {
        raise_note(&mut self.notes, locker, id, owner, amount)
    }

    /// Lets a note fall by an amount, or tells how much it is where it is less. It takes no memory.
    pub fn reduce(
        &mut self,
        locker: &Location,
        id: &Location,
        amount: u128,
        owner: &[u8; 32],
    ) -> Result<(), NotNoted>
        ensures enough { IsOk result ↔ (amount ≤ noted (locker.now, id.now, owner.now) self.old) }
        ensures reduced { OnOk result
            (self.new ≡ Reduced (locker.now, id.now, owner.now) amount self.old) }
        ensures have { IfErr result
            (λ fault. fault.have ≡ noted (locker.now, id.now, owner.now) self.old) }
        ensures kept { OnErr result (self.new ≡ self.old) }
    {
        let noted = note_in(&self.notes, locker, id, owner);
        if amount > noted {
            return Err(NotNoted { have: noted });
        }
        lower_note(&mut self.notes, locker, id, owner, noted - amount);
        Ok(())
    }
}
