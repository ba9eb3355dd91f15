//! The worked cases, and the tests of what no clause says, of what a partition runs requests with: applications, locks and
//! rows. They are checked here over the statements of the crates below: a test in a crate's own folder would have that
//! crate proved once more with it.
#![tactic(auto)]

#[cfg(test)]
mod checks;
#[cfg(test)]
mod forward;
#[cfg(test)]
mod kv;
#[cfg(test)]
mod locks;
#[cfg(test)]
mod rows_seen;
#[cfg(test)]
mod scarce_locks;
#[cfg(test)]
mod scarce_rows;
#[cfg(test)]
mod scarce_runs;
