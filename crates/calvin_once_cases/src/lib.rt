//! The worked cases of requests that come twice, and what no clause says of them. They are checked here over the
//! statements of the crates below.
#![tactic(auto)]

#[cfg(test)]
mod asserted;
#[cfg(test)]
mod limits;
#[cfg(test)]
mod repeats;
#[cfg(test)]
mod requests;
#[cfg(test)]
mod short_of_memory;
#[cfg(test)]
mod starts;
