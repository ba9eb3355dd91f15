//! Worked sessions of a service over lines, from the bytes that come in to those that go out and those in the journal, and tests
//! of what no clause says: which requests are one epoch, and what is left where a log refuses a call.
#![tactic(auto)]

#[cfg(test)]
mod checks;
#[cfg(test)]
mod refusals;
#[cfg(test)]
mod sessions;
