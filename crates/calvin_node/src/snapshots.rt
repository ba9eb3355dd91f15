//! Snapshots of a node's rows, points of consistency, and cold rows.
ghost use Rattle.std.specs.Prelude.{[], false, true};
ghost use Rattle.calvin_node_acts.specs.Acting as acting;
ghost use Rattle.calvin_node_acts.specs.Running.{NodeDid};

use crate::node::Node;
use calvin_app::App;
use calvin_lock::Locks;
use calvin_node_acts::has_kept;
use calvin_store::Rows;
use calvin_types::{Fault, Key};

impl<A: App, L: Locks + Drop, S: Rows<A::Row> + Drop> Node<A, L, S> {
    /// Opens a point at the end of an epoch (Thomson et al. 2012, section 5): a snapshot of it can be taken while later epochs
    /// are run. Refused with `PointTooLate` where something of a later epoch is done or a loaded snapshot has more epochs,
    /// with `PointOpen` where a point is open, and with `NoPoints` where the keeper of rows has none. It takes no memory.
    pub fn mark(&mut self, epoch: u64) -> Result<(), Fault>
        ensures did { NodeDid {Reply = A.Reply} false result (acting.mark_end self.old.config epoch self.old.state) self.old self.new [] [] }
    {
        self.scheduler.due_is_undone();
        self.scheduler.mark(epoch)
    }

    /// The row of a key goes to the cold table (section 4). Refused with `PointOpen` where a point is open, with `NoRow` where
    /// the key has no row that isn't cold, and with `NoColdTable` where the keeper of rows has no such table; else with
    /// `OutOfMemory` where a growth was refused.
    pub fn cool(&mut self, key: &Key) -> Result<(), Fault>
        ensures did { NodeDid {Reply = A.Reply} true result (acting.cool_row self.old.config key.now self.old.state) self.old self.new [] [] }
    {
        self.scheduler.due_is_undone();
        self.scheduler.cool(key)
    }

    /// The rows at the end of an epoch become the durable record's snapshot (section 5: a checkpoint): those of the point that
    /// is open there, once the epochs up to it are merged and done here; else those of now, where the node stands there. A
    /// point at that end or before it is closed. Refused with `NotAtEnd` where there are neither, with `Older` where the
    /// record has a snapshot of this epoch or a later one, else with `OutOfMemory` where a growth was refused.
    pub fn snapshot(&mut self, epoch: u64) -> Result<(), Fault>
        ensures did { NodeDid {Reply = A.Reply} true result (acting.snapshot epoch self.old.state) self.old self.new [] [] }
    {
        self.scheduler.due_is_undone();
        self.scheduler.can_take(epoch)?;
        if has_kept(&self.kept, epoch) {
            return Err(Fault::Older);
        }
        let rows = self.scheduler.take(epoch)?;
        self.kept = Some((epoch, rows));
        Ok(())
    }
}
