//! Worked cases of clusters whose application gives each request's name its effect once.
#![tactic(auto)]

mod giving_back;
#[cfg(test)]
mod paying;

pub use giving_back::give_back;
