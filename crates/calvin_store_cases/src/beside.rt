//! A keeper beside what a keeper is.
use crate::calls::{Call, make};
use crate::checks::{holds, same};
use crate::model::{KEYS, Kind, Model, key_of};
use calvin_store::{Rows, Snapshot};
use calvin_types::Fault;
use std::alloc::Global;
use std::process::Abort;

/// A keeper, what it is to be, the snapshot that was kept last, and how many calls were refused for want of memory and then
/// made once more.
#[derive(Drop)]
pub(crate) struct Beside<S> {
    rows: S,
    model: Model,
    kept: Snapshot<u64>,
    refused: u32,
}

impl<S: Rows<u64> + Drop> Beside<S> {
    /// No rows.
    pub fn new(alloc: Global, kind: Kind) -> Result<Beside<S>, Fault> {
        let rows = S::empty(alloc);
        let mut refused = 0;
        let kept = match rows.snapshot() {
            Ok(kept) => kept,
            Err(_) => {
                refused = 1;
                rows.snapshot()?
            }
        };
        Ok(Beside {
            rows,
            model: Model::new(kind),
            kept,
            refused,
        })
    }

    pub fn refused(&self) -> u32 {
        self.refused
    }

    /// Both tell the same of each key, and of all together. It takes no memory.
    pub fn tell_alike(&self, rt: &impl Abort) {
        same(rt, self.rows.len(), self.model.len());
        same(rt, self.rows.marked(), self.model.marked());
        for number in 0..KEYS {
            let key = key_of(number);
            same(rt, self.rows.get(&key), self.model.get(number));
            same(rt, self.rows.is_hot(&key), self.model.is_hot(number));
        }
    }

    /// They have the same rows, also at the point that is open.
    pub fn are_alike(&self, rt: &impl Abort) -> Result<(), Fault> {
        self.tell_alike(rt);
        holds(rt, self.model.has_rows(&self.rows.snapshot()?));
        holds(rt, self.model.has_point(&self.rows.point()?));
        Ok(())
    }

    /// A call at both ends in the same way. One that there could be memory for and is refused leaves the keeper as it was,
    /// and is made once more.
    pub fn make(&mut self, rt: &impl Abort, call: &Call) -> Result<(), Fault> {
        let mut found = make(call, &mut self.rows, &mut self.kept);
        if found == Err(Fault::OutOfMemory) && !call.asks_too_much() {
            self.are_alike(rt)?;
            self.refused = self.refused.saturating_add(1);
            found = make(call, &mut self.rows, &mut self.kept);
        }
        same(rt, found, self.model.follow(call, &self.kept));
        Ok(())
    }
}
