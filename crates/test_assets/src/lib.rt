//! Calls of the crates of assets, accounts, locks, pools, fees and barriers, with expected values worked out by hand.
#![tactic(auto)]

#[cfg(test)]
mod barrier_rows;
#[cfg(test)]
mod bundle_rows;
#[cfg(test)]
mod dispatch_rows;
#[cfg(test)]
mod exchanges;
#[cfg(test)]
mod ledger_exchanges;
#[cfg(test)]
mod ledger_rows;
#[cfg(test)]
mod list_rows;
#[cfg(test)]
mod lock_courses;
#[cfg(test)]
mod path_rows;
#[cfg(test)]
mod stored_rows;
#[cfg(test)]
mod trading_rows;
#[cfg(test)]
mod trap_rows;
#[cfg(test)]
mod trust_rows;
