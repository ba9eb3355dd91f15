//! The worked cases of orders and payments, and the tests of what no clause says. They are checked here over the
//! statements of the crates below: a test in a crate's own folder would have that crate proved once more with it.
#![tactic(auto)]

#[cfg(test)]
mod asserted;
#[cfg(test)]
mod checks;
#[cfg(test)]
mod orders;
#[cfg(test)]
mod requests;
#[cfg(test)]
mod scarce_totals;
