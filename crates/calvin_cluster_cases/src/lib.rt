//! Worked cases of clusters: callers in threads, couriers and workers over one book.
#![tactic(auto)]

#[cfg(test)]
mod adding;
#[cfg(test)]
mod bounds;
#[cfg(test)]
mod drills;
#[cfg(test)]
mod gates;
mod giving_back;
#[cfg(test)]
mod halting;
#[cfg(test)]
mod jobs;
#[cfg(test)]
mod receipts;
#[cfg(test)]
mod running;
#[cfg(test)]
mod stores;

pub use giving_back::give_back;
