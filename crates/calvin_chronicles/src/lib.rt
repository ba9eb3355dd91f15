//! Histories of nodes, one for each, in one log. Each node's pen writes its history, whatever the others write meanwhile. Whoever
//! wants keeps marks of a node's history: each is of a beginning of the whole, once that history has ended. The events are there
//! for contracts alone; at run time a history is the number of them.
#![tactic(auto)]

mod law;
mod opened;
mod pen;

pub use law::Naming;
pub use opened::{Opened, Pens};
pub use pen::{Mark, Pen, Whole};
