//! A journal that is made short: in place of the epochs that led to the rows of a desk it begins with these rows.
#![tactic(auto)]

mod compaction;

pub use compaction::compact;
