//! The program on whole inputs over memory, in several cuts of the bytes and with calls that fail; runs of the generator; and explanations
//! of messages and the way back, cut and failing likewise.
#![tactic(auto)]

#[cfg(test)]
mod calls;
#[cfg(test)]
mod compose_messages;
#[cfg(test)]
mod compose_trees;
#[cfg(test)]
mod crowds;
#[cfg(test)]
mod deliveries;
#[cfg(test)]
mod devices;
#[cfg(test)]
mod documents;
#[cfg(test)]
mod explain_faults;
#[cfg(test)]
mod explain_lines;
#[cfg(test)]
mod explain_stops;
#[cfg(test)]
mod faults;
#[cfg(test)]
mod generated;
#[cfg(test)]
mod generated_runs;
#[cfg(test)]
mod holdings;
#[cfg(test)]
mod hostile;
#[cfg(test)]
mod inputs;
#[cfg(test)]
mod locks;
#[cfg(test)]
mod messages;
#[cfg(test)]
mod openings;
#[cfg(test)]
mod parts;
#[cfg(test)]
mod pools;
#[cfg(test)]
mod running;
#[cfg(test)]
mod tables;
#[cfg(test)]
mod teleports;
#[cfg(test)]
mod transfers;
