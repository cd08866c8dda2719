//! Network documents, each with what it is read as; networks, each with the first cause for which it isn't coherent; the lines of reports
//! and the trees of messages, each kind with its expected text; sources, sinks, lists and step lines.
#![tactic(auto)]

#[cfg(test)]
mod blocks;
#[cfg(test)]
mod bytes;
#[cfg(test)]
mod chains;
#[cfg(test)]
mod coherent_documents;
#[cfg(test)]
mod entries;
#[cfg(test)]
mod holdings;
#[cfg(test)]
mod lines;
#[cfg(test)]
mod listings;
#[cfg(test)]
mod lists;
#[cfg(test)]
mod networks;
#[cfg(test)]
mod pools;
#[cfg(test)]
mod reading;
#[cfg(test)]
mod references;
#[cfg(test)]
mod sources;
#[cfg(test)]
mod steps;
#[cfg(test)]
mod trees;
#[cfg(test)]
mod values;
