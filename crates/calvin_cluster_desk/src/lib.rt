//! What lies under the lock of a running store: its book, the pen of the book's history, and what its threads have to do. A pure
//! state machine; receipts of what happened in it, whose statements are met of the book that it leaves.
#![tactic(auto)]

mod asking;
mod closing;
mod desk;
mod drill;
mod errands;
mod handing_over;
mod office;
mod receipt;
mod running;
mod scouting;
mod seat;
mod stopped;

pub use desk::{Desk, Founded};
pub use drill::{Drill, NO_DRILL};
pub use errands::Errand;
pub use office::{MOST_TRIES, News, Office};
pub use receipt::{Founding, Report, Ticket, Told};
pub use seat::Seats;
pub use stopped::Stopped;
