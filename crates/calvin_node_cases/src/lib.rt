//! The worked cases of one node, of one group and of two replicas of two partitions, in worlds whose rows are plain ones: what no script
//! of `calvin check` says, which message a packet is, which batch a node holds and which row it has, and no law of calvin_world.
#![tactic(auto)]

#[cfg(test)]
mod agreement;
#[cfg(test)]
mod alone;
#[cfg(test)]
mod checks;
#[cfg(test)]
mod events;
#[cfg(test)]
mod letters;
#[cfg(test)]
mod replicas;
