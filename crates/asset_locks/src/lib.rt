//! Locks on what the accounts of a chain hold, and notes of locks that other chains hold.
#![tactic(auto)]

mod book;
mod faults;
mod laws;
mod lock;
mod locks;
mod notes;
mod places;

pub use book::LockBook;
pub use faults::{NotLocked, NotNoted};
pub use laws::{law_of_floors, law_of_locking, law_of_notes, law_of_unlockers, law_of_unlocking};
pub use lock::Lock;
