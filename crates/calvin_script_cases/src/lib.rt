//! The worked cases, and the tests of what no clause says, of what scripts spell. They are checked here over the statements
//! of the crates below: a test in a crate's own folder would have that crate proved once more with it.
#![tactic(auto)]

#[cfg(test)]
mod accepted;
#[cfg(test)]
mod checks;
#[cfg(test)]
mod engine;
#[cfg(test)]
mod spelled;
#[cfg(test)]
mod twice;
#[cfg(test)]
mod woven;
