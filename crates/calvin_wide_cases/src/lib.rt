//! Worked cases of stores with a lock for each node: callers in threads, couriers and workers over nodes of their own.
#![tactic(auto)]

#[cfg(test)]
mod adding;
#[cfg(test)]
mod bounds;
#[cfg(test)]
mod gates;
mod giving_back;
#[cfg(test)]
mod halting;
#[cfg(test)]
mod jobs;
#[cfg(test)]
mod nodes;
#[cfg(test)]
mod receipts;
#[cfg(test)]
mod running;
#[cfg(test)]
mod stores;

pub use giving_back::{give_back, give_histories_back, give_receipts_back, give_store_back};
