//! The worked cases of reconnaissance, checked over the statements of the crates below, and the application that they are
//! of.
#![tactic(auto)]

#[cfg(test)]
mod attempts;
#[cfg(test)]
mod checks;
#[cfg(test)]
mod slide;
