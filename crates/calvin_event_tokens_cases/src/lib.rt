//! Tests of scripts of events that are read from tokens, by public calls alone: which scripts are read in the usual way, and that
//! both ways read the same. No clause says that the usual way is taken at all, so it is seen here.
#![tactic(auto)]

#[cfg(test)]
mod forms;
#[cfg(test)]
mod reading;
