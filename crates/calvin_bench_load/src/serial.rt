//! A load is run serially.
use crate::drawing::{Load, order};
use crate::summary::Summary;
use calvin_app::{Kv, Serial};
use calvin_types::{Fault, Key};
use std::alloc::Global;

/// Runs the requests one at a time on one map.
pub fn run(alloc: Global, load: &Load) -> Result<Summary, Fault> {
    let order = order(alloc, load)?;
    let mut serial = Serial::new(alloc, Kv);
    let mut summary = Summary::new();
    for (_, txn) in order.as_slice() {
        summary.answer(&serial.apply(txn)?);
    }
    for id in 0..load.keys {
        let key = Key {
            table: 0,
            id: id as u64,
        };
        summary.row(serial.rows().get(&key));
    }
    Ok(summary)
}
