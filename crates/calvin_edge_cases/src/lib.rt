//! Tests of what reads and writes, which are checked here over the statements of the crates below: a test in a crate's own
//! folder would have that crate proved once more with it. Each call is seen to succeed with ample memory, and what no
//! clause says has a table of cases.
#![tactic(auto)]

#[cfg(test)]
mod checks;
#[cfg(test)]
mod devices;
