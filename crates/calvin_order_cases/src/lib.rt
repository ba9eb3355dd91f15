//! The worked cases of requests, batches, sequencers and the merged order, and the tests of what no clause says. They are
//! checked here over the statements of the crates below: a test in a crate's own folder would have that crate proved once
//! more with it.
#![tactic(auto)]

#[cfg(test)]
mod batches;
#[cfg(test)]
mod checks;
#[cfg(test)]
mod keys;
#[cfg(test)]
mod merge;
#[cfg(test)]
mod pending;
#[cfg(test)]
mod scarce_order;
#[cfg(test)]
mod scarce_types;
#[cfg(test)]
mod sequencer;
#[cfg(test)]
mod woven;
