//! The command line as it is used: lines, scripts and what comes of them, checked over the statements of the crates below.
#![tactic(auto)]

#[cfg(test)]
mod agreement;
#[cfg(test)]
mod check;
#[cfg(test)]
mod checks;
#[cfg(test)]
mod event_lists;
#[cfg(test)]
mod limits;
#[cfg(test)]
mod lines;
#[cfg(test)]
mod once;
#[cfg(test)]
mod points;
#[cfg(test)]
mod run;
#[cfg(test)]
mod sim;
#[cfg(test)]
mod snapshots;
#[cfg(test)]
mod tables;
#[cfg(test)]
mod woven;
