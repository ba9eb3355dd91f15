//! Worked cases of the lines of a service: which requests are taken and why others are refused, and epochs that are written for a
//! journal and read back.
#![tactic(auto)]

#[cfg(test)]
mod asking;
#[cfg(test)]
mod checks;
#[cfg(test)]
mod epochs;
