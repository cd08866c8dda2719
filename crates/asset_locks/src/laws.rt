//! What holds of locks and notes. Each function has an empty body, and its contract is the law.
ghost use Rattle.std.specs.Prelude.{◌≡◌, ◌≢◌, ℕ, ◌-◌, ◌<◌, ◌≤◌, max, List};
ghost use Rattle.locations.specs.declared.relative.Location.{Location};
ghost use Rattle.asset_locks.specs.LockMaps.{LockKey, LockedAsset, asset_of, NoteKey, LocksAndNotes, lock_at, floor, noted, Locked, Unlocked, Noted, Reduced};

/// A floor is the greatest of an account's locks of an asset: no lock is more, some lock is as much, and whatever no lock
/// is more than, the floor isn't either.
pub fn law_of_floors()
    ensures no_more { (who : List ℕ) (id unlocker : Location) (l : LocksAndNotes)
        → lock_at (who, id, unlocker) l ≤ floor who id l }
    ensures as_much { (who : List ℕ) (id : Location) (l : LocksAndNotes) → 0 < floor who id l
        → (unlocker : Location) × (lock_at (who, id, unlocker) l ≡ floor who id l) }
    ensures least { (who : List ℕ) (id : Location) (l : LocksAndNotes) (n : ℕ)
        → ((unlocker : Location) → lock_at (who, id, unlocker) l ≤ n) → floor who id l ≤ n }
{}

/// What a lock that is set does: it is the greater of old and new, and so is its floor. All else stays.
pub fn law_of_locking()
    ensures lock { (key : LockKey) (a : ℕ) (l : LocksAndNotes)
        → lock_at key (Locked key a l) ≡ max (lock_at key l) a }
    ensures other_locks { (key : LockKey) (a : ℕ) (l : LocksAndNotes) (q : LockKey) → q ≢ key
        → lock_at q (Locked key a l) ≡ lock_at q l }
    ensures floor { (who : List ℕ) (id unlocker : Location) (a : ℕ) (l : LocksAndNotes)
        → floor who id (Locked (who, id, unlocker) a l) ≡ max (floor who id l) a }
    ensures other_floors { (key : LockKey) (a : ℕ) (l : LocksAndNotes) (who : List ℕ)
        (id : Location)
        → ◌≢◌ {A = LockedAsset} (who, id) (asset_of key)
        → floor who id (Locked key a l) ≡ floor who id l }
    ensures notes { (key : LockKey) (a : ℕ) (l : LocksAndNotes) (q : NoteKey)
        → noted q (Locked key a l) ≡ noted q l }
{}

/// What a lock that falls does: it alone falls, no floor rises, and the floor isn't below the locks of others. All else stays.
pub fn law_of_unlocking()
    ensures lock { (key : LockKey) (a : ℕ) (l : LocksAndNotes)
        → lock_at key (Unlocked key a l) ≡ lock_at key l - a }
    ensures other_locks { (key : LockKey) (a : ℕ) (l : LocksAndNotes) (q : LockKey) → q ≢ key
        → lock_at q (Unlocked key a l) ≡ lock_at q l }
    ensures no_higher { (key : LockKey) (a : ℕ) (l : LocksAndNotes) (who : List ℕ) (id : Location)
        → floor who id (Unlocked key a l) ≤ floor who id l }
    ensures no_lower { (who : List ℕ) (id unlocker other : Location) (a : ℕ) (l : LocksAndNotes)
        → other ≢ unlocker
        → lock_at (who, id, other) l ≤ floor who id (Unlocked (who, id, unlocker) a l) }
    ensures other_floors { (key : LockKey) (a : ℕ) (l : LocksAndNotes) (who : List ℕ)
        (id : Location)
        → ◌≢◌ {A = LockedAsset} (who, id) (asset_of key)
        → floor who id (Unlocked key a l) ≡ floor who id l }
    ensures notes { (key : LockKey) (a : ℕ) (l : LocksAndNotes) (q : NoteKey)
        → noted q (Unlocked key a l) ≡ noted q l }
{}

/// What wasn't locked, locked and unlocked again, is as it was. With two unlockers the floor is the greater of the two
/// locks, and what one of them unlocks leaves the other's.
pub fn law_of_unlockers()
    ensures undone { (key : LockKey) (a : ℕ) (l : LocksAndNotes) → lock_at key l ≡ 0
        → Unlocked key a (Locked key a l) ≡ l }
    ensures two { (who : List ℕ) (id u v : Location) (a b : ℕ) (l : LocksAndNotes)
        → floor who id l ≡ 0
        → u ≢ v
        → (floor who id (Locked (who, id, v) b (Locked (who, id, u) a l)) ≡ max a b)
        × (floor who id (Unlocked (who, id, u) a (Locked (who, id, v) b (Locked (who, id, u) a l)))
        ≡ b) }
{}

/// What a note that is set, and one that falls, do: the same, and no lock and no floor changes.
pub fn law_of_notes()
    ensures set { (key : NoteKey) (a : ℕ) (l : LocksAndNotes)
        → noted key (Noted key a l) ≡ max (noted key l) a }
    ensures others_set { (key : NoteKey) (a : ℕ) (l : LocksAndNotes) (q : NoteKey) → q ≢ key
        → noted q (Noted key a l) ≡ noted q l }
    ensures reduced { (key : NoteKey) (a : ℕ) (l : LocksAndNotes)
        → noted key (Reduced key a l) ≡ noted key l - a }
    ensures others_reduced { (key : NoteKey) (a : ℕ) (l : LocksAndNotes) (q : NoteKey) → q ≢ key
        → noted q (Reduced key a l) ≡ noted q l }
    ensures undone { (key : NoteKey) (a : ℕ) (l : LocksAndNotes) → noted key l ≡ 0
        → Reduced key a (Noted key a l) ≡ l }
    ensures locks_set { (key : NoteKey) (a : ℕ) (l : LocksAndNotes) (q : LockKey)
        → lock_at q (Noted key a l) ≡ lock_at q l }
    ensures locks_reduced { (key : NoteKey) (a : ℕ) (l : LocksAndNotes) (q : LockKey)
        → lock_at q (Reduced key a l) ≡ lock_at q l }
    ensures floors_set { (key : NoteKey) (a : ℕ) (l : LocksAndNotes) (who : List ℕ) (id : Location)
        → floor who id (Noted key a l) ≡ floor who id l }
    ensures floors_reduced { (key : NoteKey) (a : ℕ) (l : LocksAndNotes) (who : List ℕ)
        (id : Location)
        → floor who id (Reduced key a l) ≡ floor who id l }
{}
