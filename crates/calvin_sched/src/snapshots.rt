//! Snapshots, points and cold rows of a scheduler's partition.
ghost use Rattle.std.specs.Prelude.{◌≡◌, ◌+◌, ◌++◌, ◌≤◌, false, true, OnOk, OnErr, IfOk, IfErr, IsOkUnless};
ghost use Rattle.calvin_types.specs.Deeds.{Refuses, Does, Did};
ghost use Rattle.calvin_store.specs.Points.{warm_grows};
ghost use Rattle.calvin_sched.specs.Keeping.{takes_effect, is_point_at, rows_at};
ghost use Rattle.calvin_sched.specs.Standing as standing;

use crate::scheduler::Scheduler;
use calvin_app::App;
use calvin_lock::Locks;
use calvin_store::{Rows, Snapshot};
use calvin_types::{Fault, Key, Sets};

impl<A: App, L: Locks + Drop, S: Rows<A::Row> + Drop> Scheduler<A, L, S> {
    /// Whether the open point is at the end of an epoch.
    fn is_marked_at(&self, epoch: u64) -> bool
        ensures { result ≡ is_point_at (epoch + 1) self.now.scheduling.store.point }
    {
        match self.rows.marked() {
            Some(marked) => marked == epoch,
            None => false,
        }
    }

    /// Refuses where `take` refuses for another cause than memory, which is `NotAtEnd`.
    pub fn can_take(&self, epoch: u64) -> Result<(), Fault>
        ensures ok { OnOk result (takes_effect (standing.take_rows self.now.merged self.now.due (epoch + 1) self.now.scheduling) ≡ true) }
        ensures refused { IfErr result (λ fault. standing.take_rows self.now.merged self.now.due (epoch + 1) self.now.scheduling ≡ Refuses fault) }
    {
        let end = u128::from(epoch) + 1;
        if !self.progress.is_done_up_to(end) {
            return Err(Fault::NotAtEnd);
        }
        if self.is_marked_at(epoch) {
            return Ok(());
        }
        if !self.progress.is_done_no_further(end, self.opened) {
            return Err(Fault::NotAtEnd);
        }
        Ok(())
    }

    /// The rows of the point at the end of an epoch, where it is open, and else those of now.
    fn rows_at(&self, epoch: u64) -> Result<Snapshot<A::Row>, Fault>
        ensures ok { IfOk result (λ s. s ≡ rows_at (epoch + 1) self.now.scheduling.store) }
        ensures only { IsOkUnless result Fault.OutOfMemory }
    {
        if self.is_marked_at(epoch) {
            self.rows.point()
        } else {
            self.rows.snapshot()
        }
    }

    /// Closes the open point where it is at the end of an epoch or before it.
    fn close_up_to(&mut self, epoch: u64) -> Result<(), Fault>
        ensures ok { OnOk result (self.new.scheduling ≡ standing.closed_at (epoch + 1) self.old.scheduling) }
        ensures err { OnErr result (self.new.scheduling ≡ self.old.scheduling) }
        ensures rest { self.new ≡ record self.old { scheduling = self.new.scheduling; room = self.new.room } }
        ensures room { self.old.room ≤ self.new.room }
        ensures only { IsOkUnless result Fault.OutOfMemory }
    {
        match self.rows.marked() {
            Some(marked) if marked <= epoch => self.rows.close_point(),
            Some(_) | None => Ok(()),
        }
    }

    /// The rows at the end of an epoch (Thomson et al. 2012, section 5): those of the point that is open there, once the epochs
    /// up to it are merged and done here; else those of now, where the partition stands there. A point at that end or
    /// before it is closed. Refused with `NotAtEnd`, else with `OutOfMemory` where a growth was refused.
    pub fn take(&mut self, epoch: u64) -> Result<Snapshot<A::Row>, Fault>
        ensures did { Did true result (standing.take_rows self.old.merged self.old.due (epoch + 1) self.old.scheduling) self.old.scheduling self.new.scheduling }
        ensures rest { self.new ≡ record self.old { scheduling = self.new.scheduling; room = self.new.room } }
        ensures room { self.old.room ≤ self.new.room }
    {
        self.can_take(epoch)?;
        let rows = self.rows_at(epoch)?;
        self.close_up_to(epoch)?;
        Ok(rows)
    }

    /// Opens a point at the end of an epoch: a snapshot of it can be taken while later epochs are run. Refused with
    /// `PointTooLate` where something of a later epoch is done or the scheduler was opened past it, with `PointOpen` where a
    /// point is open, and with `NoPoints` where the keeper of rows has none. It takes no memory.
    pub fn mark(&mut self, epoch: u64) -> Result<(), Fault>
        ensures did { Did false result (standing.mark S.points (epoch + 1) self.old.scheduling) self.old.scheduling self.new.scheduling }
        ensures rest { self.new ≡ record self.old { scheduling = self.new.scheduling; room = self.new.room } }
        ensures room { self.old.room ≤ self.new.room }
    {
        let end = u128::from(epoch) + 1;
        if !self.progress.is_done_no_further(end, self.opened) {
            return Err(Fault::PointTooLate);
        }
        self.rows.mark(epoch)
    }

    /// The row of a key goes to the cold table (section 4). Refused with `PointOpen` where a point is open, with `NoRow` where
    /// the key has no row that isn't cold, and with `NoColdTable` where the keeper of rows has no such table; else with
    /// `OutOfMemory` where a growth was refused.
    pub fn cool(&mut self, key: &Key) -> Result<(), Fault>
        ensures did { Did S.cold result (standing.cool S.cold key.now self.old.scheduling) self.old.scheduling self.new.scheduling }
        ensures rest { self.new ≡ record self.old { scheduling = self.new.scheduling; room = self.new.room } }
        ensures room { self.old.room ≤ self.new.room }
    {
        self.rows.cool(key)
    }

    /// The rows of the keys of these sets come back from the cold table, where they are there. Refused with `OutOfMemory`
    /// where the keeper of rows has a cold table, one of these keys has its row there, and a growth was refused.
    pub fn warm(&mut self, sets: &Sets) -> Result<(), Fault>
        ensures did { Did (warm_grows S.cold (sets.now.reads ++ sets.now.writes) self.old.scheduling.store)
            result (Does (standing.warm (sets.now.reads ++ sets.now.writes) self.old.scheduling) tt) self.old.scheduling self.new.scheduling }
        ensures rest { self.new ≡ record self.old { scheduling = self.new.scheduling; room = self.new.room } }
        ensures room { self.old.room ≤ self.new.room }
    {
        self.rows.warm(sets)
    }
}
