//! The scheduler of one partition.
ghost use Rattle.std.specs.Prelude.{◌≡◌, ◌+◌, ◌^◌, ◌≤◌, [], false, true, None, Some, Ok, MatchOption, max, length, IfOk, IfErr, OnOk, OnErr, IsOk, IsOkUnless};
ghost use Rattle.std.specs.List.{list_any};
ghost use Rattle.std.specs.FinMap as map;
ghost use Rattle.calvin_types.specs.Deeds.{Refuses, Did};
ghost use Rattle.calvin_types.specs.Participants.{site, has_local_key, is_active};
ghost use Rattle.calvin_order.specs.Configs.{merged, order_config};
ghost use Rattle.calvin_order.specs.Merged.{end_of};
ghost use Rattle.calvin_sched.specs.Keeping.{awaited, awaits_at, IsFirstReadyHere, IsNotDue, Finished};
ghost use Rattle.calvin_sched.specs.Progress.{left, merge};
ghost use Rattle.calvin_sched.specs.Standing.{local_places, stands_at};
ghost use Rattle.calvin_sched.specs.Scheduling.{Turn as Turning, new_turn, opened, turn_at, whole_view, local_writes};
ghost use Rattle.calvin_sched.specs.Steps as steps;
ghost use Rattle.calvin_sched.specs.declared.phase.Phase.TheVariants.{Waiting};

use crate::finishing::local_part;
use crate::phase::Phase;
use crate::progress::{Progress, is_of_first};
use crate::serving::Serving;
use crate::turn::Turn;
use crate::turns::Turns;
use calvin_app::{Answer, App, Computed, Job, View, is_same_job};
use calvin_lock::Locks;
use calvin_order::{BatchSource, EpochRequests, count_requests};
use calvin_shared_txn::SharedTxn;
use calvin_store::{Rows, Snapshot};
use calvin_types::{Config, Fault, Place, Txn};
use std::alloc::Global;
use std::marker::Model;

/// The scheduler of one partition, over any lock manager and any keeper of rows (Thomson et al. 2012, sections 3.2 and
/// 3.3): requests are admitted in the global order, ask for the locks of what is stored here, read it, exchange what they
/// read with the other partitions, run, and write what is stored here.
#[derive(Drop)]
pub struct Scheduler<A: App, L: Locks + Drop, S: Rows<A::Row> + Drop> {
    pub(crate) alloc: Global,
    pub(crate) config: Config,
    pub(crate) partition: u8,
    pub(crate) opened: u128,
    pub(crate) last: Option<Place>,
    pub(crate) turns: Turns<A>,
    pub(crate) locks: L,
    pub(crate) rows: S,
    pub(crate) progress: Progress,
}

impl<A: App, L: Locks + Drop, S: Rows<A::Row> + Drop> Model for Scheduler<A, L, S> {
    ghost use Rattle.std.specs.Coded.{codes};
    ghost use Rattle.std.specs.FinMap.{code};
    ghost use Rattle.calvin_types.specs.Participants.{site};
    ghost use Rattle.calvin_sched.specs.Keeping.{Scheduled, scheduling_of, turns_of, IsScheduler};
    ghost use Rattle.calvin_sched.specs.Progress.{left, IsProgress, HasReserved};

    ghost Value = { Scheduled A.Args A.Row };

    ghost coded = { Prim.hlevel (codes, code) };

    ghost view = { λ s. record {
      here = site s.config.partitions s.partition;
      scheduling = scheduling_of s.opened s.last s.turns.kept (S.store s.rows);
      room = S.room s.rows;
      merged = s.progress.merged;
      due = left (scheduling_of s.opened s.last s.turns.kept (S.store s.rows)) s.progress.due.items;
      due_room = s.progress.room;
    } };

    ghost invariant = { λ s. IsScheduler (site s.config.partitions s.partition) (scheduling_of s.opened s.last s.turns.kept (S.store s.rows)) s.turns.kept (L.kept s.locks)
        × IsProgress s.opened s.last (turns_of s.turns.kept) s.progress.merged s.progress.done s.progress.due.items × HasReserved s.progress };
}

impl<A: App, L: Locks + Drop, S: Rows<A::Row> + Drop> Scheduler<A, L, S> {
    /// A scheduler on no rows: no request is admitted.
    pub fn new(alloc: Global, config: &Config, partition: u8) -> Scheduler<A, L, S>
        ensures { result ≡ record { here = site config.now.partitions partition; scheduling = opened (end_of 0) map.empty; room = 0; merged = 0; due = []; due_room = 0 } }
    {
        Scheduler::open(alloc, config, partition, S::empty(alloc), 0)
    }

    /// A scheduler on the rows of a snapshot at the end of an epoch: the epochs up to it are merged and done, and no request
    /// is admitted. Refused with `OutOfMemory` where a growth was refused.
    pub fn from_snapshot(
        alloc: Global,
        config: &Config,
        partition: u8,
        snapshot: &Snapshot<A::Row>,
        epoch: u64,
    ) -> Result<Scheduler<A, L, S>, Fault>
        ensures ok { IfOk result
            (λ s. s ≡ record {
              here = site config.now.partitions partition;
              scheduling = opened (end_of (epoch + 1)) snapshot.now;
              room = s.room;
              merged = epoch + 1;
              due = [];
              due_room = 0;
            }) }
        ensures only { IsOkUnless result Fault.OutOfMemory }
    {
        let mut rows = S::empty(alloc);
        rows.load(snapshot)?;
        Ok(Scheduler::open(alloc, config, partition, rows, u128::from(epoch) + 1))
    }

    /// A scheduler on rows at the end of so many epochs, which are merged and done.
    fn open(
        alloc: Global,
        config: &Config,
        partition: u8,
        rows: S,
        epochs: u128,
    ) -> Scheduler<A, L, S>
        requires { epochs ≤ 2 ^ 64 }
        ensures { result ≡ record {
          here = site config.now.partitions partition;
          scheduling = record (opened (end_of epochs) map.empty) { store = S.store rows };
          room = S.room rows;
          merged = epochs;
          due = [];
          due_room = 0;
        } }
    {
        Scheduler {
            alloc,
            config: *config,
            partition,
            opened: epochs,
            last: None,
            turns: Turns::new(alloc),
            locks: L::empty(alloc),
            rows,
            progress: Progress::from_epochs(alloc, epochs),
        }
    }

    /// Whether a place is after the last one, and not of an epoch before the opening one.
    fn is_next(&self, place: Place) -> bool
        ensures { result ≡ steps.is_next self.now.scheduling place }
    {
        let is_past = match self.last {
            Some(last) => last < place,
            None => true,
        };
        is_past && !is_of_first(place, self.opened)
    }

    /// What is kept of the request that is admitted at a place, if one is.
    pub fn turn(&self, place: Place) -> Option<&Turn<A>>
        ensures { MatchOption result (turn_at self.now.scheduling place ≡ None) (λ turn. turn_at self.now.scheduling place ≡ Some turn.now.turn) }
    {
        self.turns.get(place)
    }

    /// A request that waits for its locks here, with room for all rows that are to come.
    fn new_turn(&self, txn: SharedTxn<A::Args>) -> Result<Turn<A>, Fault>
        ensures turn { IfOk result (λ k. k.turn ≡ new_turn txn) }
        ensures room { IfOk result (λ k. length (awaited self.now.here k.turn) ≤ k.room) }
        ensures only { IsOkUnless result Fault.OutOfMemory }
    {
        let mut turn = Turn::new(self.alloc, txn)?;
        let partitions = turn.count_awaited(&self.config, self.partition);
        turn.reserve(partitions)?;
        Ok(turn)
    }

    /// Whether a request is admitted here, and not refused or passed over: its place is after the last one and not of an epoch
    /// before the opening one, and a key is stored here.
    pub fn takes(&self, place: Place, txn: &Txn<A::Args>) -> bool
        ensures { result ≡ steps.takes self.now.here self.now.scheduling place txn.now }
    {
        self.is_next(place) && txn.is_participant(&self.config, self.partition)
    }

    /// Admits a request: it asks for the locks of the keys that are stored here. One with no key here is passed over.
    /// Refused with `AdmittedOutOfOrder` where the place isn't after the last one that was admitted or passed over, or is
    /// of an epoch before the opening one; else with `OutOfMemory` where a key is stored here and a growth was refused. The
    /// request is copied where it has a key here.
    pub fn admit(&mut self, place: Place, txn: &Txn<A::Args>) -> Result<(), Fault>
        ensures did { Did (has_local_key self.old.here txn.now) result (steps.admit self.old.here place txn.now self.old.scheduling) self.old.scheduling self.new.scheduling }
        ensures rest { self.new ≡ record self.old { scheduling = self.new.scheduling } }
    {
        if !self.takes(place, txn) {
            return self.pass_over(place, txn);
        }
        let txn = SharedTxn::of(self.alloc, txn)?;
        self.admit_shared(place, txn)
    }

    /// The same as `admit`, of a request that isn't admitted here, as `takes` tells: it is refused with `AdmittedOutOfOrder`, or
    /// passed over. It takes no memory.
    pub fn pass_over(&mut self, place: Place, txn: &Txn<A::Args>) -> Result<(), Fault>
        requires { steps.takes self.old.here self.old.scheduling place txn.now ≡ false }
        ensures did { Did false result (steps.admit self.old.here place txn.now self.old.scheduling) self.old.scheduling self.new.scheduling }
        ensures rest { self.new ≡ record self.old { scheduling = self.new.scheduling } }
    {
        if !self.is_next(place) {
            return Err(Fault::AdmittedOutOfOrder);
        }
        self.last = Some(place);
        Ok(())
    }

    /// The same as `admit`, of a request that is admitted here, as `takes` tells, and isn't copied: it stays in the memory in
    /// which it lies. Refused with `OutOfMemory` where a growth was refused.
    pub fn admit_shared(&mut self, place: Place, txn: SharedTxn<A::Args>) -> Result<(), Fault>
        requires { steps.takes self.old.here self.old.scheduling place txn ≡ true }
        ensures did { Did (has_local_key self.old.here txn) result (steps.admit self.old.here place txn self.old.scheduling) self.old.scheduling self.new.scheduling }
        ensures rest { self.new ≡ record self.old { scheduling = self.new.scheduling } }
    {
        let sets = &txn.get().sets;
        let reads = sets.reads.part(&self.config, self.partition);
        let writes = sets.writes.part(&self.config, self.partition);
        let turn = self.new_turn(txn)?;
        self.turns.reserve()?;
        self.locks.up_to_last();
        self.locks.request(place, &reads, &writes)?;
        self.turns.insert(place, turn);
        self.last = Some(place);
        Ok(())
    }

    /// Whether the request at a place, which waits and has its locks, is run here. Refused where `begin` refuses.
    pub(crate) fn ready_to_begin(&self, place: Place) -> Result<bool, Fault>
        ensures ok { IfOk result (λ active. (x : Turning A.Args A.Row) × (turn_at self.now.scheduling place ≡ Some x) × (x.phase ≡ Waiting)
            × (steps.is_ready self.now.here self.now.scheduling place x.request ≡ true) × (active ≡ is_active self.now.here x.request)) }
        ensures refused { IfErr result (λ fault. steps.begin self.now.here place self.now.scheduling ≡ Refuses fault) }
    {
        let Some(turn) = self.turn(place) else {
            return Err(Fault::NotReady);
        };
        match turn.phase() {
            Phase::Waiting => {}
            Phase::Begun | Phase::Done => return Err(Fault::Begun),
        }
        if !self.locks.is_ready(place) {
            return Err(Fault::NotReady);
        }
        Ok(turn.txn().is_active(&self.config, self.partition))
    }

    /// The request at a place has its locks, and reads what is stored here. Where it is passive it is done, and its locks
    /// are released. Refused with `NotReady` where it isn't admitted, with `Begun` where it has begun or is done, else with
    /// `NotReady` where it hasn't all its locks. It takes no memory.
    pub fn begin(&mut self, place: Place) -> Result<Serving<A>, Fault>
        ensures did { Did false result (steps.begin self.old.here place self.old.scheduling) self.old.scheduling self.new.scheduling }
        ensures rest { self.new ≡ record self.old { scheduling = self.new.scheduling; due = self.new.due } }
        ensures due { self.new.due ≡ left self.new.scheduling self.old.due }
    {
        self.begin_in_place(place)?;
        match self.turn(place) {
            Some(turn) => Ok(turn.serving(&self.config, self.partition)),
            None => Err(Fault::NotReady),
        }
    }

    /// The same as `begin`, but what was read here stays where it is: `turn` tells it.
    pub fn begin_in_place(&mut self, place: Place) -> Result<(), Fault>
        ensures did { Did false result (steps.silently (steps.begin self.old.here place self.old.scheduling)) self.old.scheduling self.new.scheduling }
        ensures rest { self.new ≡ record self.old { scheduling = self.new.scheduling; due = self.new.due } }
        ensures due { self.new.due ≡ left self.new.scheduling self.old.due }
    {
        self.seek(place);
        self.begin_found(place)
    }

    /// Has the request at a place, if there is one, found at once by what looks for it next.
    pub(crate) fn seek(&mut self, place: Place)
        ensures { self.new ≡ self.old }
    {
        self.turns.seek(place);
    }

    /// Has the request at a place, if there is one, found at once where rows come for it.
    fn seek_came(&mut self, place: Place)
        ensures { self.new ≡ self.old }
    {
        self.turns.seek_came(place);
    }

    /// The same as `begin_in_place`, wherever the request is looked for first.
    fn begin_found(&mut self, place: Place) -> Result<(), Fault>
        ensures did { Did false result (steps.silently (steps.begin self.old.here place self.old.scheduling)) self.old.scheduling self.new.scheduling }
        ensures rest { self.new ≡ record self.old { scheduling = self.new.scheduling; due = self.new.due } }
        ensures due { self.new.due ≡ left self.new.scheduling self.old.due }
    {
        let is_active = self.ready_to_begin(place)?;
        self.turns
            .begin(place, &self.config, self.partition, &self.rows);
        if !is_active {
            let _released = self.locks.release(place);
            self.progress.finish(place, self.opened, &self.turns);
        }
        Ok(())
    }

    /// Keeps the rows that came from another partition for the request at a place. Refused with `NotAwaited` where it isn't
    /// admitted, is done, isn't run here, reads nothing there, or has these rows. It is never refused for memory: with the
    /// last rows that it awaits, all that came move to memory of just their size, but only if there is some.
    pub fn on_reads(&mut self, place: Place, from: u8, rows: &View<A::Row>) -> Result<(), Fault>
        ensures did { Did false result (steps.on_reads self.old.here place from rows.now self.old.scheduling) self.old.scheduling self.new.scheduling }
        ensures rest { self.new ≡ record self.old { scheduling = self.new.scheduling } }
    {
        self.seek_came(place);
        if !self.awaits(place, from) {
            return Err(Fault::NotAwaited);
        }
        self.turns.receive(place, from, rows);
        Ok(())
    }

    /// Whether `on_reads` would take rows of a partition for the request at a place.
    pub fn awaits(&self, place: Place, from: u8) -> bool
        ensures { result ≡ awaits_at self.now.here (turn_at self.now.scheduling place) from }
    {
        match self.turn(place) {
            Some(turn) => turn.awaits(&self.config, self.partition, from),
            None => false,
        }
    }

    /// The request that is to be run at a place. Refused as `job` is.
    pub(crate) fn due(&self, place: Place) -> Result<&Turn<A>, Fault>
        ensures ok { IfOk result (λ turn. steps.job self.now.here place self.now.scheduling ≡ Ok
            (record { place = place; txn = turn.now.turn.request; view = whole_view self.now.here turn.now.turn })) }
        ensures refused { IfErr result (λ fault. steps.job self.now.here place self.now.scheduling ≡ Err fault) }
    {
        let Some(turn) = self.turn(place) else {
            return Err(Fault::NotReady);
        };
        match turn.phase() {
            Phase::Begun => {}
            Phase::Waiting | Phase::Done => return Err(Fault::NotReady),
        }
        if !turn.is_collected(&self.config, self.partition) {
            return Err(Fault::ReadsMissing);
        }
        Ok(turn)
    }

    /// What is to be run at a place. Refused with `NotReady` where the request has not begun or is done, else with
    /// `ReadsMissing` where rows of another partition are still to come. It takes no memory.
    pub fn job(&self, place: Place) -> Result<Job<A::Args, A::Row>, Fault>
        ensures { result ≡ steps.job self.now.here place self.now.scheduling }
    {
        let turn = self.due(place)?;
        Ok(Job {
            place,
            txn: *turn.txn(),
            view: turn.whole_view(&self.config, self.partition),
        })
    }

    /// Whether a job is the one that is to be run at its place: refused with `NotCollected` where none is, and with
    /// `StaleJob` where it is another.
    pub(crate) fn check_due(&self, job: &Job<A::Args, A::Row>) -> Result<(), Fault>
        ensures ok { OnOk result (steps.job self.now.here job.now.place self.now.scheduling ≡ Ok job.now) }
        ensures refused { IfErr result (IsNotDue job.now (steps.job self.now.here job.now.place self.now.scheduling)) }
    {
        let Ok(due) = self.job(job.place) else {
            return Err(Fault::NotCollected);
        };
        if !is_same_job::<A>(&due, job) {
            return Err(Fault::StaleJob);
        }
        Ok(())
    }

    /// Room for the rows that a job writes here, so that `finish` takes no memory for it. Refused with `OutOfMemory` where
    /// there is less room and a growth was refused.
    pub fn reserve_finish(&mut self, computed: &Computed<A>) -> Result<(), Fault>
        ensures ok { OnOk result (length (local_writes self.old.here computed.now.writes) ≤ self.new.room) }
        ensures rest { self.new ≡ record self.old { room = self.new.room } }
        ensures room { self.old.room ≤ self.new.room }
        ensures only { IsOkUnless result Fault.OutOfMemory }
        ensures succeeds { length (local_writes self.old.here computed.now.writes) ≤ self.old.room → IsOk result }
    {
        let written = local_part::<A>(&computed.writes, &self.config, self.partition);
        self.rows.reserve(written.len())?;
        Ok(())
    }

    /// Takes what came of a job: what it writes here is put into the rows, its locks are released, and its request is done.
    /// Answers what the request is told. Refused with `NotCollected` where no job is due at its place, with `StaleJob`
    /// where another one is, else with `OutOfMemory` where more is written here than there is room for, and a growth was
    /// refused: then there is no less room.
    pub fn finish(&mut self, computed: &Computed<A>) -> Result<Answer<A::Reply>, Fault>
        ensures did { Finished A.meaning self.old.here self.old.room computed.now.job result self.old.scheduling self.new.scheduling }
        ensures rest { self.new ≡ record self.old { scheduling = self.new.scheduling; room = self.new.room; due = self.new.due } }
        ensures room { OnErr result (self.old.room ≤ self.new.room) }
        ensures due { self.new.due ≡ left self.new.scheduling self.old.due }
    {
        self.check_due(&computed.job)?;
        let writes = local_part::<A>(&computed.writes, &self.config, self.partition);
        self.apply(computed.job.place, &writes)?;
        Ok(computed.answer)
    }

    /// The rows that the request at a place read here since the scheduler was opened. Refused with `NotServed` where it
    /// isn't admitted or has not begun.
    pub fn served(&self, place: Place) -> Result<View<A::Row>, Fault>
        ensures { result ≡ steps.served_at (turn_at self.now.scheduling place) }
    {
        let Some(turn) = self.turn(place) else {
            return Err(Fault::NotServed);
        };
        match turn.phase() {
            Phase::Waiting => Err(Fault::NotServed),
            Phase::Begun | Phase::Done => Ok(turn.served()),
        }
    }

    /// The least place, of those after `after` where one is given, whose request isn't done and has its locks.
    pub fn first_ready(&self, after: Option<Place>) -> Option<Place>
        ensures { IsFirstReadyHere self.now.here self.now.scheduling after result }
    {
        self.locks.first_ready(after)
    }

    /// Tells that the next epoch is merged and has these requests: of those with a key here the places are due, whether they
    /// are admitted before or after it. It takes time by their number. Refused with `AdmittedOutOfOrder` where the epoch
    /// isn't the next one, counted from 0, or an entry's place isn't of this epoch; else with `OutOfMemory` where a request
    /// has a key here, no room was reserved for it, and a growth was refused.
    pub fn merged(&mut self, epoch: u64, entries: &[(Place, Txn<A::Args>)]) -> Result<(), Fault>
        ensures reserved { length (local_places self.old.here entries.now) ≤ self.old.due_room → IsOkUnless result Fault.AdmittedOutOfOrder }
        ensures did { Did (list_any (λ e. has_local_key self.old.here e.1) entries.now) result (merge epoch entries.now self.old) self.old self.new }
    {
        if !self.progress.is_next(epoch, entries) {
            return Err(Fault::AdmittedOutOfOrder);
        }
        self.progress
            .reserve_for_all(entries, &self.config, self.partition)?;
        self.progress
            .merge(epoch, entries, &self.config, self.partition);
        self.progress.skip_done(self.opened, &self.turns);
        Ok(())
    }

    /// Tells the same of an epoch of as many groups as there are partitions, whose requests are looked at where its batches
    /// lie: none is copied.
    pub fn merged_batches<B: BatchSource<Txn<A::Args>>>(
        &mut self,
        epoch: u64,
        config: &Config,
        batches: &B,
    ) -> Result<(), Fault>
        ensures did { Did (list_any (λ e. has_local_key self.old.here e.1) (merged (order_config config.now) (B.assignment batches.now) epoch))
            result (merge epoch (merged (order_config config.now) (B.assignment batches.now) epoch) self.old) self.old self.new }
    {
        if !self.progress.is_at(epoch) {
            return Err(Fault::AdmittedOutOfOrder);
        }
        let most = count_requests(batches, epoch, config.partitions);
        let requests = EpochRequests::new(batches, epoch, config);
        self.progress
            .reserve_for_walk(most, requests, &self.config, self.partition)?;
        let requests = EpochRequests::new(batches, epoch, config);
        self.progress
            .merge_walk(epoch, requests, &self.config, self.partition);
        self.progress.skip_done(self.opened, &self.turns);
        Ok(())
    }

    /// Room for the places of these requests, so that `merged`, where it is told them next, takes no memory. Refused with
    /// `OutOfMemory` where there is less room and a growth was refused.
    pub fn reserve_merged(&mut self, entries: &[(Place, Txn<A::Args>)]) -> Result<(), Fault>
        ensures ok { OnOk result (self.new ≡ record self.old { due_room = max (length (local_places self.old.here entries.now)) self.old.due_room }) }
        ensures err { OnErr result (self.new ≡ self.old) }
        ensures only { IsOkUnless result Fault.OutOfMemory }
        ensures succeeds { length (local_places self.old.here entries.now) ≤ self.old.due_room → IsOk result }
    {
        self.progress.reserve(entries, &self.config, self.partition)
    }

    /// The greatest epoch at whose end the partition stands: it and all before it are merged, what they have to do here is
    /// done, and nothing of a later one is done. It takes constant time.
    pub fn stands_at(&self) -> Option<u64>
        ensures { result ≡ stands_at self.now.scheduling self.now.merged self.now.due }
    {
        let end = self.progress.end();
        if self.progress.is_no_standing(end, self.opened) {
            return None;
        }
        Some((end - 1) as u64)
    }

    /// The rows that are stored here.
    pub fn rows(&self) -> &S
        ensures { S.store result.now ≡ self.now.scheduling.store }
    {
        &self.rows
    }
}
