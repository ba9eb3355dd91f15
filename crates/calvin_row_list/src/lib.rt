//! Rows that stand in a list of just the room that they need.
#![tactic(auto)]

mod row_list;

pub use row_list::RowList;
