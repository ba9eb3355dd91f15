//! The sets of dependent requests, by the rows as they stand.
use crate::office::Office;
use crate::receipt::Founding;
use calvin_app::{App, Table};
use calvin_lock::Locks;
use calvin_recon::scout;
use calvin_store::Rows;
use calvin_types::{Fault, Key, KeySet, Sets};
use calvin_world::World;
use std::alloc::Global;

/// So often rows are looked at for one request at most.
const MOST_LOOKS: usize = 16;

impl<A: App + Drop, L: Locks + Drop, S: Rows<A::Row> + Drop, J: Founding> Office<A, L, S, J> {
    /// The sets that a request needs of the rows as they stand at a replica now: those that `scout` finds over the rows of the keys
    /// that it reads. Refused with `NoNode` where the replica isn't there, with `Unsettled` as `scout` is, and else with
    /// `OutOfMemory`.
    pub fn sets(&self, alloc: Global, app: &A, replica: u8, args: &A::Args) -> Result<Sets, Fault> {
        let world = self.world();
        if replica >= world.config().replicas {
            return Err(Fault::NoNode);
        }
        let mut rows = Vec::new(alloc);
        for _look in 0..MOST_LOOKS {
            let sets = scout(app, args, &Table::from_rows(alloc, &rows)?)?;
            let before = rows.len();
            add_rows(world, replica, &sets.reads, &mut rows)?;
            if rows.len() == before {
                return Ok(sets);
            }
        }
        Err(Fault::Unsettled)
    }
}

/// Adds the rows of a replica that these keys have and that aren't there yet.
fn add_rows<A: App + Drop, L: Locks + Drop, S: Rows<A::Row> + Drop>(
    world: &World<A, L, S>,
    replica: u8,
    keys: &KeySet,
    rows: &mut Vec<(Key, A::Row)>,
) -> Result<(), Fault> {
    for i in 0..keys.len() {
        let key = keys.at(i);
        let is_there = rows.iter().any(|row| row.0 == key);
        if is_there {
            continue;
        }
        if let Some(row) = world.peek(replica, &key) {
            rows.push((key, row))?;
        }
    }
    Ok(())
}
