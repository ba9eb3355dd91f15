//! Worked cases of a book that is brought to its last epoch by a store with a lock for each node.
#![tactic(auto)]

#[cfg(test)]
mod adding;
mod giving_back;

pub use giving_back::give_back;
