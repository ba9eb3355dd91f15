//! A running store with a lock for each node brings a book to its last epoch; the histories that its nodes leave are assembled to the
//! book that is given back.
#![tactic(auto)]

mod running;

pub use running::bring_on_wide;
