//! Worked cases of histories of nodes, and of the list of events that they assemble to.
#![tactic(auto)]

#[cfg(test)]
mod assembling;
#[cfg(test)]
mod checks;
mod giving_back;
#[cfg(test)]
mod locked;
#[cfg(test)]
mod made;
#[cfg(test)]
mod opening;

pub use giving_back::{
    give_back, give_back_histories, give_back_history, give_back_node, give_back_nodes,
};
