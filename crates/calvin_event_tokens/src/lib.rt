//! Scripts of events read straight from the tokens of JSON, where they are written as usual. What such a script is stays what
//! `serde_json`'s reading says: every other text is read by `calvin_script_events`.
#![tactic(auto)]

mod act;
mod contents;
mod event;
mod script;
mod usual;

pub use contents::AppEventScript;
pub use usual::{read_event_script, usual_event_script};
