//! A course of changes of one book, and what it has after each.

use asset_locks::{
    LockBook, NotLocked, NotNoted, law_of_floors, law_of_locking, law_of_notes, law_of_unlockers,
    law_of_unlocking,
};
use locations::{Junction, Junctions, Location};
use std::test::Fail;

/// What is done with the book.
#[derive(Clone, Copy)]
enum Change {
    Lock,
    Unlock,
    Note,
    Reduce,
}

use Change::{Lock, Note, Reduce, Unlock};

/// The change, the account, the asset, who else, how much, and the floor or the note after it, or what there was.
const COURSE: &[(Change, u8, u32, u32, u128, Result<u128, u128>)] = &[
    (Lock, 1, 0, 2000, 100, Ok(100)),
    (Lock, 1, 0, 2001, 60, Ok(100)),
    (Lock, 1, 0, 2000, 70, Ok(100)),
    (Lock, 1, 0, 2001, 130, Ok(130)),
    (Lock, 1, 7, 2000, 5, Ok(5)),
    (Lock, 2, 0, 2000, 9, Ok(9)),
    (Lock, 0, 0, 2000, u128::MAX, Ok(u128::MAX)),
    (Unlock, 1, 0, 2001, 131, Err(130)),
    (Unlock, 1, 0, 2001, 50, Ok(100)),
    (Unlock, 1, 0, 2002, 1, Err(0)),
    (Unlock, 1, 0, 2002, 0, Ok(100)),
    (Unlock, 1, 0, 2000, 100, Ok(80)),
    (Unlock, 1, 0, 2000, 1, Err(0)),
    (Unlock, 0, 0, 2000, u128::MAX, Ok(0)),
    (Note, 1, 0, 2000, 100, Ok(100)),
    (Note, 1, 0, 2000, 40, Ok(100)),
    (Note, 1, 0, 2001, 3, Ok(3)),
    (Reduce, 1, 0, 2000, 101, Err(100)),
    (Reduce, 1, 0, 2000, 100, Ok(0)),
    (Reduce, 1, 0, 2000, 1, Err(0)),
    (Reduce, 1, 0, 2001, 1, Ok(2)),
    (Reduce, 2, 0, 2001, 1, Err(0)),
];

/// The locks at the end: account, asset, who may unlock, and how much.
const LEFT: &[(u8, u32, u32, u128)] = &[(1, 0, 2001, 80), (1, 7, 2000, 5), (2, 0, 2000, 9)];

/// A parachain, or the chain itself by the number 0.
fn place(number: u32) -> Location {
    let mut interior = Junctions::empty();
    if number > 0 {
        let _ = interior.push(Junction::Parachain(number));
    }
    Location {
        parents: 0,
        interior,
    }
}

#[test]
fn course(rt: HostRuntime) -> Result<(), Fail> {
    let mut book = LockBook::new(rt.alloc());
    for (change, who, id, other, amount, after) in COURSE {
        let (who, id, other) = ([*who; 32], place(*id), place(*other));
        let found = match *change {
            Change::Lock => {
                assert!(rt; *amount > 0);
                book.lock(&who, &id, *amount, &other)?;
                Ok(book.floor(&who, &id))
            }
            Change::Unlock => match book.unlock(&who, &id, *amount, &other) {
                Ok(()) => Ok(book.floor(&who, &id)),
                Err(NotLocked { have }) => Err(have),
            },
            Change::Note => {
                assert!(rt; *amount > 0);
                book.note(&other, &id, *amount, &who)?;
                Ok(book.noted(&other, &id, &who))
            }
            Change::Reduce => match book.reduce(&other, &id, *amount, &who) {
                Ok(()) => Ok(book.noted(&other, &id, &who)),
                Err(NotNoted { have }) => Err(have),
            },
        };
        assert_eq!(rt; found, *after);
    }
    assert_eq!(rt; book.locks().len(), LEFT.len());
    for (lock, (who, id, unlocker, amount)) in book.locks().iter().zip(LEFT.iter()) {
        assert_eq!(rt; lock.who, [*who; 32]);
        assert!(rt; lock.id == place(*id));
        assert!(rt; lock.unlocker == place(*unlocker));
        assert_eq!(rt; lock.amount, *amount);
    }
    Ok(())
}

#[test]
fn laws() {
    law_of_floors();
    law_of_locking();
    law_of_unlocking();
    law_of_unlockers();
    law_of_notes();
}
