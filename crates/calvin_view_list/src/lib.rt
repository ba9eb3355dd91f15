//! Views in a row, which take no more memory than their rows.
#![tactic(auto)]

mod view_list;

pub use view_list::ViewList;
