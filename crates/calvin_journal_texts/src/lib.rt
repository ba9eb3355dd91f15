//! The script that a journal is. Its epochs are the journal's lines, joined as they are, and the whole is what a writer of JSON would
//! print.
#![tactic(auto)]

mod texts;

pub use texts::script_text;
