//! The book of a running store: a world, with the events that led to it, each of which took effect.
#![tactic(auto)]

mod book;
mod event_list;
mod laws;
mod moving;
mod receipt;
mod replies;
mod step;

pub use book::{Book, StoreBook};
pub use event_list::EventList;
pub use laws::{
    answered_on_told_rows, reply_stays, stands_after_told, submission_stays, unheard_at_first,
    unheard_stays,
};
pub use moving::{locked, moved};
pub use receipt::{Answered, Look, Submission};
pub use replies::reply_at;
