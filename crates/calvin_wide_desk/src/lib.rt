//! What lies under the lock of one node of a running store that has a lock for each: the node with its history, the pen of that
//! history, and what is to be done for it. A pure state machine; receipts of what happened at it, whose statements are met of the
//! histories that the store leaves.
#![tactic(auto)]

mod asking;
mod closing;
mod desk;
mod founding;
mod post;
mod receipt;
mod running;
mod stopped;
mod watching;

pub use desk::{NodePen, WideDesk};
pub use founding::{Founded, Marks, NodePens, WideFounding, found_all};
pub use post::{Errand, Letter, News, Post};
pub use receipt::{Entered, Replied, WideAnswer, WideTicket};
pub use stopped::{Room, WideStopped};
pub use watching::Watch;
