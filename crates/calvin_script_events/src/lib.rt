//! Scripts of events: what happens in a world, one event after another, for any application that says how its own operations
//! are written.
#![tactic(auto)]

mod contents;
mod event;
mod form;
mod script;
mod texts;

pub use contents::EventScript;
pub use event::{ListedAct, ListedEvent};
pub use script::event_script_of;
