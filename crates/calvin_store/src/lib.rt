//! The rows of one partition: what a keeper of rows is, snapshots, and three keepers with all rows in memory.
#![tactic(auto)]

mod cold;
mod plain;
mod rows;
mod snapshot;
mod split;
mod table;
mod tiers;
mod versions;

pub use cold::ColdRows;
pub use plain::PlainRows;
pub use rows::Rows;
pub use snapshot::Snapshot;
pub use split::SplitRows;
