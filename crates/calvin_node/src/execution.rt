//! How a node runs what is merged: each request is locked, begins, is run and finished.
ghost use Rattle.std.specs.Prelude.{◌≡◌, [], ◌∷◌, drop};
ghost use Rattle.calvin_types.specs.Deeds.{Did};
ghost use Rattle.calvin_types.specs.Participants.{has_local_key};
ghost use Rattle.calvin_sched.specs.Keeping.{IsFirstReadyHere};
ghost use Rattle.calvin_sched.specs.Standing.{stands_at};
ghost use Rattle.calvin_sched.specs.Steps as steps;
ghost use Rattle.calvin_node_acts.specs.Acting as acting;
ghost use Rattle.calvin_node_acts.specs.Growing.{act_grows};
ghost use Rattle.calvin_node_acts.specs.NodeStates.{site_of};
ghost use Rattle.calvin_node_acts.specs.Running.{NodeDid, NodeFinished};
ghost use Rattle.calvin_node_acts.specs.declared.act.Act.TheVariants as act;

use crate::node::Node;
use calvin_app::{App, Computed, Job};
use calvin_lock::Locks;
use calvin_node_acts::post_served;
use calvin_node_packets::{Address, Outbox};
use calvin_order::{PendingRequests, is_woven};
use calvin_sched::Scheduler;
use calvin_store::Rows;
use calvin_types::{Config, Fault, MOST_KEYS, Place, Txn};

impl<A: App, L: Locks + Drop, S: Rows<A::Row> + Drop> Node<A, L, S> {
    /// The next merged request asks for its locks, or is passed over where it has no key here. Refused with `NothingToLock`
    /// where none is left, and with `AdmittedOutOfOrder` where its place isn't after the last one; else with `OutOfMemory`
    /// where it has a key here and a growth was refused.
    pub fn lock_next(&mut self) -> Result<(), Fault>
        ensures did { NodeDid {Reply = A.Reply} (act_grows self.old.config act.Lock self.old.state) result (acting.lock self.old.config self.old.state) self.old self.new [] [] }
    {
        let Some((place, txn)) = self.pending.first() else {
            return Err(Fault::NothingToLock);
        };
        self.scheduler.due_is_undone();
        admit_first(
            &mut self.scheduler,
            &self.pending,
            self.layer.config(),
            place,
            txn,
        )?;
        self.pending.remove_first();
        Ok(())
    }

    /// The request at a place has its locks, and reads what is stored here: where a key that it reads is, the other partitions
    /// of the replica that run it are sent these rows (section 3.2). Refused with `NotReady` where it isn't admitted, with
    /// `Begun` where it has begun or is done, else with `NotReady` where it hasn't all its locks; else with `OutOfMemory`
    /// where it reads a key here, another partition runs it too, and a growth was refused.
    pub fn begin(&mut self, place: Place, outbox: &mut Outbox<A>) -> Result<(), Fault>
        ensures did { NodeDid (act_grows self.old.config (act.Begin place) self.old.state)
            result (acting.begin self.old.config place self.old.state) self.old self.new outbox.old.packets outbox.new.packets }
    {
        self.scheduler.due_is_undone();
        if !self.scheduler.serves_others(place) {
            self.scheduler.begin_in_place(place)?;
            return Ok(());
        }
        if outbox.reserve(MOST_KEYS).is_err() {
            self.scheduler.check_begin(place)?;
            return Err(Fault::OutOfMemory);
        }
        self.scheduler.begin_in_place(place)?;
        let me = self.layer.id();
        post_served(&self.scheduler, self.layer.config(), me, place, outbox);
        Ok(())
    }

    /// What is to be run at a place. Refused with `NotReady` where the request has not begun or is done, else with
    /// `ReadsMissing` where rows of another partition are still to come. It takes no memory.
    pub fn job(&self, place: Place) -> Result<Job<A::Args, A::Row>, Fault>
        ensures { result ≡ steps.job (site_of self.now.config.partitions self.now.state) place self.now.state.scheduler }
    {
        self.scheduler.job(place)
    }

    /// Takes what came of a job: what it writes here is put into the rows, its locks are released, and the request's client is
    /// answered. Refused with `NotCollected` where no job is due at its place, with `StaleJob` where another one is, else
    /// with `OutOfMemory` where a growth was refused.
    pub fn take_computed(
        &mut self,
        computed: &Computed<A>,
        outbox: &mut Outbox<A>,
    ) -> Result<(), Fault>
        ensures did { NodeFinished A.meaning computed.now.job result self.old self.new outbox.old.packets outbox.new.packets }
    {
        self.scheduler.due_is_undone();
        if outbox.reserve(1).is_err() {
            self.scheduler.check_finish(computed)?;
            return Err(Fault::OutOfMemory);
        }
        let answer = self.scheduler.finish(computed)?;
        let txn = &computed.job.txn;
        let to = Address::AtClient(txn.id.client);
        let place = computed.job.place;
        outbox.push_answer(self.layer.id(), to, place, txn.id, txn.attempt, answer);
        Ok(())
    }

    /// The least place, of those after `after` where one is given, whose request isn't done and has its locks.
    pub fn first_ready(&self, after: Option<Place>) -> Option<Place>
        ensures { IsFirstReadyHere (site_of self.now.config.partitions self.now.state) self.now.state.scheduler after result }
    {
        self.scheduler.first_ready(after)
    }

    /// The greatest epoch at whose end the node stands: it and all before it are merged, what they have to do here is done,
    /// and nothing of a later one is done.
    pub fn stands_at(&self) -> Option<u64>
        ensures { result ≡ stands_at self.now.state.scheduler self.now.state.merged_epochs self.now.state.due }
    {
        self.scheduler.due_is_undone();
        self.scheduler.stands_at()
    }

    /// The rows that are stored here.
    pub fn rows(&self) -> &S
        ensures { S.store result.now ≡ self.now.state.scheduler.store }
    {
        self.scheduler.rows()
    }
}

/// The first of the merged requests, which is at a place, is admitted. It stays in the memory of the batch in which it was
/// agreed upon. It is copied where its epoch is woven, as it would keep all requests of the epoch there, which lie in memory of
/// this node alone, and where the owners of a batch can't be counted. One with no key here is passed over where it lies. Refused
/// as `Scheduler::admit` is.
fn admit_first<A: App, L: Locks + Drop, S: Rows<A::Row> + Drop>(
    scheduler: &mut Scheduler<A, L, S>,
    pending: &PendingRequests<A::Args>,
    config: &Config,
    place: Place,
    txn: &Txn<A::Args>,
) -> Result<(), Fault>
    requires { pending.now.requests ≡ (place, txn.now) ∷ drop 1 pending.now.requests }
    ensures did { Did (has_local_key scheduler.old.here txn.now) result (steps.admit scheduler.old.here place txn.now scheduler.old.scheduling) scheduler.old.scheduling scheduler.new.scheduling }
    ensures rest { scheduler.new ≡ record scheduler.old { scheduling = scheduler.new.scheduling } }
{
    if !scheduler.takes(place, txn) {
        return scheduler.pass_over(place, txn);
    }
    if is_woven(config, place.epoch) {
        return scheduler.admit(place, txn);
    }
    match pending.share_first() {
        Ok(Some((_, shared))) => scheduler.admit_shared(place, shared),
        _ => scheduler.admit(place, txn),
    }
}
