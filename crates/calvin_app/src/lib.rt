//! Applications: what one is, the laws that it keeps, and the run of its requests one at a time on one undivided map.
//! `Kv`, numbers by key, is the first.
#![tactic(auto)]

mod answer;
mod app;
mod job;
mod kv;
mod look;
mod serial;
mod settles;
mod table;
mod view;
mod writes;

pub use answer::Answer;
pub use app::App;
pub use job::{Computed, Job, Work, is_same_job};
pub use kv::{Kv, KvReply, KvRequest};
pub use look::{Look, look_up};
pub use serial::Serial;
pub use settles::Settles;
pub use table::Table;
pub use view::View;
pub use writes::Writes;
