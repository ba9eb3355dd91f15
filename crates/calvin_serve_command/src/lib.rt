//! The command `calvin serve`: which words are a line of it, what it opens, serves and prints, and how it ends.
#![tactic(auto)]

mod compacting;
mod dispatch;
mod heading;
mod help;
mod journals;
mod lines;
mod order;
mod serving;
mod wishes;

pub use compacting::serve_anew;
pub use dispatch::{is_serve_line, serve_command};
pub use journals::{FileJournals, Journals};
pub use order::{Order, Task};
pub use serving::serve_journal;
