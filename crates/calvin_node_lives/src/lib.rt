//! Lives of nodes for tests of nodes: events happen to nodes side by side, and what is refused for want of memory is tried
//! again. A world doesn't do for that: nobody says how much memory its packets have, and it opens no node from a record. What a node
//! does is promised by calvin_node; nothing here carries a promise of its own, and no part of the program uses it.
#![tactic(auto)]

mod alike;
mod life;
mod nodes;
mod scarce;
mod shown;
mod step;

pub use life::{Life, Wrong};
pub use nodes::Nodes;
pub use shown::{Letter, key, place, request};
pub use step::{Step, number_of};
