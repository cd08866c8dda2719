//! What a host's calls do to the accounts of a chain: withdrawals, deposits, transfers, exchanges, dispatched calls, locks and checking accounts.

pub(crate) mod accounts;
pub(crate) mod checking;
pub(crate) mod checking_lists;
pub(crate) mod dispatching;
pub(crate) mod exchanging;
pub(crate) mod locks;
pub(crate) mod refusals;
pub(crate) mod transactor;
pub(crate) mod trapping;
