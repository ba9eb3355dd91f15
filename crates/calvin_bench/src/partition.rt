//! One partition of a replica of a given order.
ghost use Rattle.std.specs.Prelude.{◌≡◌, false, Ok, IfOk, IsOkUnless, slice_get};
ghost use Rattle.calvin_types.specs.Deeds.{Did};
ghost use Rattle.calvin_types.specs.Orders.{Rises};
ghost use Rattle.calvin_sched.specs.Keeping.{awaits_at};
ghost use Rattle.calvin_sched.specs.Scheduling.{turn_at};
ghost use Rattle.calvin_sched.specs.Standing.{stands_at};
ghost use Rattle.calvin_sched.specs.Steps as steps;
ghost use Rattle.calvin_bench.specs.Steps.{first_part, first_here, writes_here, admit_next, begin_at, receive, finish_at};
ghost use Rattle.calvin_bench.specs.Replicas.{part_of, IsTold, TellsAlike};

use crate::step::Outcome;
use crate::telling::tell;
use calvin_app::{App, View};
use calvin_lock::Locks;
use calvin_sched::Scheduler;
use calvin_store::Rows;
use calvin_types::{Config, Fault, Place, Txn};
use std::alloc::Global;
use std::marker::Model;

/// A partition: its scheduler, and how many requests of the order it admitted or passed over.
#[derive(Drop)]
pub(crate) struct Partition<A: App, L: Locks + Drop, S: Rows<A::Row> + Drop> {
    scheduler: Scheduler<A, L, S>,
    admitted: usize,
}

impl<A: App, L: Locks + Drop, S: Rows<A::Row> + Drop> Model for Partition<A, L, S> {
    ghost use Rattle.std.specs.Coded.{codes};
    ghost use Rattle.std.specs.FinMap.{code};
    ghost use Rattle.calvin_bench.specs.Replicas.{Seat};

    ghost Value = { Seat A.Args A.Row };

    ghost coded = { Prim.hlevel (codes, code) };

    ghost view = { λ p. record { scheduler = p.scheduler; admitted = p.admitted } };
}

impl<A: App, L: Locks + Drop, S: Rows<A::Row> + Drop> Partition<A, L, S> {
    /// A partition on no rows, whose scheduler was told an order, and has admitted nothing of it. Refused with
    /// `OutOfMemory` where a growth was refused.
    pub fn new(
        alloc: Global,
        config: &Config,
        partition: u8,
        order: &[(Place, Txn<A::Args>)],
    ) -> Result<Partition<A, L, S>, Fault>
        requires { Rises order.now }
        ensures part { IfOk result (λ x. part_of x ≡ first_part config.now.partitions partition) }
        ensures told { IfOk result (λ x. IsTold order.now x) }
        ensures only { IsOkUnless result Fault.OutOfMemory }
    {
        let mut scheduler = Scheduler::new(alloc, config, partition);
        tell(&mut scheduler, order)?;
        Ok(Partition {
            scheduler,
            admitted: 0,
        })
    }

    /// Admits the next request of the order, or passes over it. Refused with `NothingToLock` where there is none, else as
    /// `Scheduler::admit` is.
    pub fn admit(
        &mut self,
        order: &[(Place, Txn<A::Args>)],
    ) -> Result<Outcome<A::Row, A::Reply>, Fault>
        ensures did { let next = slice_get order.now self.old.admitted in
            Did (first_here (part_of self.old) next) result (admit_next (part_of self.old) next) (part_of self.old) (part_of self.new) }
        ensures told { TellsAlike self.old self.new }
    {
        let Some((place, txn)) = order.get(self.admitted) else {
            return Err(Fault::NothingToLock);
        };
        self.scheduler.admit(*place, txn)?;
        self.admitted += 1;
        Ok(Outcome::Admitted)
    }

    /// The request at a place begins. Refused as `Scheduler::begin` is.
    pub fn begin(&mut self, place: Place) -> Result<Outcome<A::Row, A::Reply>, Fault>
        ensures did { Did false result (begin_at place (part_of self.old)) (part_of self.old) (part_of self.new) }
        ensures told { TellsAlike self.old self.new }
    {
        let serving = self.scheduler.begin(place)?;
        Ok(Outcome::Served(serving.rows))
    }

    /// The rows that the request at a place read here. Refused with `NotServed` where it has not begun.
    pub fn served(&self, place: Place) -> Result<View<A::Row>, Fault>
        ensures { result ≡ steps.served_at (turn_at self.now.scheduler.scheduling place) }
    {
        self.scheduler.served(place)
    }

    /// Whether the request at a place still awaits the rows of another partition.
    pub fn awaits(&self, from: u8, place: Place) -> bool
        ensures { result ≡ awaits_at (part_of self.now).here (turn_at self.now.scheduler.scheduling place) from }
    {
        self.scheduler.awaits(place, from)
    }

    /// Takes the rows of another partition for the request at a place. Refused as `Scheduler::on_reads` is.
    pub fn receive(
        &mut self,
        from: u8,
        place: Place,
        rows: &View<A::Row>,
    ) -> Result<Outcome<A::Row, A::Reply>, Fault>
        ensures did { Did false result (receive from place (Ok rows.now) (part_of self.old)) (part_of self.old) (part_of self.new) }
        ensures told { TellsAlike self.old self.new }
    {
        self.scheduler.on_reads(place, from, rows)?;
        Ok(Outcome::Received)
    }

    /// Runs the request at a place, and writes. Refused as `Scheduler::job` is, else with `OutOfMemory` where it writes
    /// something here and a growth was refused.
    pub fn finish(&mut self, app: &A, place: Place) -> Result<Outcome<A::Row, A::Reply>, Fault>
        ensures did { let here = self.old.scheduler.here in let s = self.old.scheduler.scheduling in
            Did (writes_here A.meaning (part_of self.old) (steps.job here place s)) result (finish_at A.meaning place (part_of self.old)) (part_of self.old) (part_of self.new) }
        ensures told { TellsAlike self.old self.new }
    {
        let job = self.scheduler.job(place)?;
        let computed = job.compute(app);
        let answer = self.scheduler.finish(&computed)?;
        Ok(Outcome::Answered(answer))
    }

    /// The greatest epoch at whose end the partition stands.
    pub fn stands_at(&self) -> Option<u64>
        ensures { result ≡ stands_at self.now.scheduler.scheduling self.now.scheduler.merged self.now.scheduler.due }
    {
        self.scheduler.stands_at()
    }

    /// The rows that are stored here.
    pub fn rows(&self) -> &S
        ensures { S.store result.now ≡ self.now.scheduler.scheduling.store }
    {
        self.scheduler.rows()
    }
}
