//! One request of a list that several owners share.
#![tactic(auto)]

mod shared_txn;

pub use shared_txn::SharedTxn;
