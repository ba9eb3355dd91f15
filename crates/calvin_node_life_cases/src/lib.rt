//! The lives of nodes in which each allocation can be refused, of the two partitions of a replica and of the three replicas of
//! a partition; and the worked cases of a node that is opened from its record, which no world does. They are checked over the
//! statements of the crates below.
#![tactic(auto)]

#[cfg(test)]
mod checks;
#[cfg(test)]
mod enduring;
#[cfg(test)]
mod opened;
#[cfg(test)]
mod voting_life;
