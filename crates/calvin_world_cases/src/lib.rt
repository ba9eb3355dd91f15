//! Worked cases of worlds: which events scripts spell, by tables of what is read and what is refused; what is told of a world;
//! and scripts that are run in one. They are checked here over the statements of the crates below: a test in a crate's own
//! folder would have that crate proved once more with it.
#![tactic(auto)]

#[cfg(test)]
mod checks;
#[cfg(test)]
mod events;
#[cfg(test)]
mod moves;
#[cfg(test)]
mod points;
#[cfg(test)]
mod reports;
