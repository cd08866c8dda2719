//! Spellings of numbers, locations, assets, parts of messages, instructions, programs, messages and calls, worked out by hand,
//! read and written by each public call, and calls dispatched over amounts in memory.
#![tactic(auto)]

#[cfg(test)]
mod asset_spellings;
mod book;
mod book_moves;
#[cfg(test)]
mod call_spellings;
#[cfg(test)]
mod call_values;
#[cfg(test)]
mod dispatches;
#[cfg(test)]
mod head_spellings;
#[cfg(test)]
mod instruction_values;
#[cfg(test)]
mod location_spellings;
#[cfg(test)]
mod message_values;
#[cfg(test)]
mod messages;
#[cfg(test)]
mod number_spellings;
#[cfg(test)]
mod part_builders;
#[cfg(test)]
mod part_spellings;
#[cfg(test)]
mod part_values;
#[cfg(test)]
mod program_spellings;

pub use book::Book;
