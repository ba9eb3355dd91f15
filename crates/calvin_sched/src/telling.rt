//! What a scheduler tells beforehand.
ghost use Rattle.std.specs.Prelude.{◌≡◌, true, Ok, OnOk, IfErr};
ghost use Rattle.calvin_types.specs.Deeds.{Refuses};
ghost use Rattle.calvin_sched.specs.Keeping.{IsNotDue, takes_effect};
ghost use Rattle.calvin_sched.specs.Progress.{left};
ghost use Rattle.calvin_sched.specs.Scheduling.{turn_at, is_read_here, serves_others};
ghost use Rattle.calvin_sched.specs.Steps as steps;

use crate::scheduler::Scheduler;
use calvin_app::{App, Computed};
use calvin_lock::Locks;
use calvin_store::Rows;
use calvin_types::{Fault, Place};

impl<A: App, L: Locks + Drop, S: Rows<A::Row> + Drop> Scheduler<A, L, S> {
    /// No request that is due is done. The call only says so, and does nothing.
    pub fn due_is_undone(&self)
        ensures { left self.now.scheduling self.now.due ≡ self.now.due }
    {
        let _due = self.progress.merged;
    }

    /// Whether the request that is admitted at a place, if one is, reads a key that is stored here.
    pub fn reads_here(&self, place: Place) -> bool
        ensures { result ≡ is_read_here self.now.here (turn_at self.now.scheduling place) }
    {
        match self.turn(place) {
            Some(turn) => turn
                .txn()
                .sets
                .reads
                .has_local(&self.config, self.partition),
            None => false,
        }
    }

    /// Whether the request that is admitted at a place, if one is, reads a key that is stored here, and another partition runs
    /// it too: then this one's rows are wanted there.
    pub fn serves_others(&self, place: Place) -> bool
        ensures { result ≡ serves_others self.now.here (turn_at self.now.scheduling place) }
    {
        match self.turn(place) {
            Some(turn) => turn.serves_others(&self.config, self.partition),
            None => false,
        }
    }

    /// Refuses where `begin` refuses.
    pub fn check_begin(&self, place: Place) -> Result<(), Fault>
        ensures ok { OnOk result (takes_effect (steps.begin self.now.here place self.now.scheduling) ≡ true) }
        ensures refused { IfErr result (λ fault. steps.begin self.now.here place self.now.scheduling ≡ Refuses fault) }
    {
        let _is_active = self.ready_to_begin(place)?;
        Ok(())
    }

    /// Refuses where `finish` refuses for another cause than memory: with `NotCollected` where no job is due at its place, and
    /// with `StaleJob` where another one is.
    pub fn check_finish(&self, computed: &Computed<A>) -> Result<(), Fault>
        ensures ok { OnOk result (steps.job self.now.here computed.now.job.place self.now.scheduling ≡ Ok computed.now.job) }
        ensures refused { IfErr result (IsNotDue computed.now.job (steps.job self.now.here computed.now.job.place self.now.scheduling)) }
    {
        self.check_due(&computed.job)
    }
}
