//! One replica of a given order.
ghost use Rattle.std.specs.Prelude.{◌≡◌, ◌++◌, ◌↔◌, ◌⊎◌, ℕ, suc, List, map, length, slice_get, Ok, Some, None, IfOk, IfErr, IsErrOf, OnErr, IsOkUnless, MatchResult};
ghost use Rattle.std.specs.FinMap as finite;
ghost use Rattle.calvin_types.specs.Deeds.{Did};
ghost use Rattle.calvin_types.specs.Orders.{Rises};
ghost use Rattle.calvin_app.specs.Rows.{part};
ghost use Rattle.calvin_app.specs.Serial.{rows_before};
ghost use Rattle.calvin_order.specs.Merged.{end_of};
ghost use Rattle.calvin_bench.specs.declared.step.Step.{Step as AStep};
ghost use Rattle.calvin_bench.specs.Steps.{Part, step, grows, Ran, first_parts, RunsSerially};
ghost use Rattle.calvin_bench.specs.Replicas.{stands_in, IsBeginning};

use crate::partition::Partition;
use crate::step::{Outcome, Step};
use crate::stepping;
use crate::telling::rises;
use calvin_app::App;
use calvin_lock::Locks;
use calvin_sched::due_is;
use calvin_store::Rows;
use calvin_types::{Config, Fault, Place, Txn};
use std::alloc::Global;
use std::marker::Model;

/// One replica of a given order, over any application, lock manager and keeper of rows: one scheduler for each partition,
/// which all are told the order (Thomson et al. 2012, section 3.2).
#[derive(Drop)]
pub struct OneReplica<A: App, L: Locks + Drop, S: Rows<A::Row> + Drop> {
    alloc: Global,
    app: A,
    count: u8,
    order: Vec<(Place, Txn<A::Args>)>,
    partitions: Vec<Partition<A, L, S>>,
}

impl<A: App, L: Locks + Drop, S: Rows<A::Row> + Drop> Model for OneReplica<A, L, S> {
    ghost use Rattle.std.specs.Coded.{codes};
    ghost use Rattle.std.specs.FinMap.{code};
    ghost use Rattle.calvin_bench.specs.Replicas.{Replica, replica_of, IsReplica};

    ghost Value = { Replica A.Args A.Row };

    ghost coded = { Prim.hlevel (codes, code) };

    ghost view = { λ r. replica_of r.count r.order.items r.partitions.items };

    ghost invariant = { λ r. IsReplica A.meaning r.count r.order.items r.partitions.items };
}

impl<A: App + Drop, L: Locks + Drop, S: Rows<A::Row> + Drop> OneReplica<A, L, S> {
    /// A replica on no rows, which has admitted nothing of the order yet. It takes time by the greatest epoch. Refused with
    /// `AdmittedOutOfOrder` where the places don't rise, else with `OutOfMemory` where a growth was refused.
    pub fn new(
        alloc: Global,
        app: A,
        config: &Config,
        order: Vec<(Place, Txn<A::Args>)>,
    ) -> Result<OneReplica<A, L, S>, Fault>
        ensures ok { IfOk result (λ r. r ≡ record { count = config.now.partitions; order = order.items; parts = first_parts config.now.partitions }) }
        ensures out_of_order { IsErrOf result Fault.AdmittedOutOfOrder ↔ ¬ Rises order.items }
        ensures only { IfErr result (λ fault. (fault ≡ Fault.AdmittedOutOfOrder) ⊎ (fault ≡ Fault.OutOfMemory)) }
    {
        if !rises(&order) {
            return Err(Fault::AdmittedOutOfOrder);
        }
        let mut partitions = Vec::new(alloc);
        for partition in 0..config.partitions {
            partitions.push(Partition::new(alloc, config, partition, &order)?)?;
        }
        Ok(OneReplica {
            alloc,
            app,
            count: config.partitions,
            order,
            partitions,
        })
    }

    /// Does steps one after another, and says how each ended: a refused step changes nothing, and the list goes on. Refused
    /// itself with `OutOfMemory` where there was no room for that: then no step was done. A step is refused with `NoNode`
    /// where a partition that it names isn't there, `Admit` with `NothingToLock` where the whole order is admitted,
    /// `Reads` with `NotAwaited` where the partition awaits no rows of the other one for the place, else with `NotServed`
    /// where that one has not served it, and else as the scheduler's call is. Whatever was done before, what is promised
    /// holds after the steps and after each beginning of them.
    pub fn run(
        &mut self,
        steps: &[Step],
    ) -> Result<Vec<Result<Outcome<A::Row, A::Reply>, Fault>>, Fault>
        ensures ran { IfOk result (λ outcomes. Ran A.meaning self.old.order self.old.parts steps.now outcomes.items self.new.parts) }
        ensures same { self.new ≡ record self.old { parts = self.new.parts } }
        ensures err { OnErr result (self.new ≡ self.old) }
        ensures only { IsOkUnless result Fault.OutOfMemory }
        // Answers, served rows and standing partitions are those of the serial run.
        ensures serially { IfOk result (λ outcomes. RunsSerially A.meaning self.old.count self.old.order steps.now outcomes.items self.new.parts) }
        // The same was so after each beginning of the steps.
        ensures beginnings { IfOk result (λ outcomes. (early late : List AStep) → steps.now ≡ early ++ late
            → IsBeginning A.meaning self.old.count self.old.order self.old.parts early late outcomes.items self.new.parts) }
    {
        let mut outcomes = Vec::with_capacity(self.alloc, steps.len())?;
        for step in steps {
            outcomes.push_reserved(self.step(*step));
        }
        Ok(outcomes)
    }

    /// Does one step.
    fn step(&mut self, e: Step) -> Result<Outcome<A::Row, A::Reply>, Fault>
        ensures did { Did (grows A.meaning self.old.order self.old.parts e) result (step A.meaning self.old.order self.old.parts e) self.old.parts self.new.parts }
        ensures same { self.new ≡ record self.old { parts = self.new.parts } }
    {
        match e {
            Step::Admit(p) => stepping::admit(&mut self.partitions, &self.order, p),
            Step::Begin(p, place) => stepping::begin(&mut self.partitions, p, place),
            Step::Reads(p, from, place) => stepping::receive(&mut self.partitions, p, from, place),
            Step::Finish(p, place) => stepping::finish(&mut self.partitions, &self.app, p, place),
        }
    }

    /// The rows that a partition stores. Refused with `NoNode` where there is no such partition.
    pub fn rows(&self, partition: u8) -> Result<&S, Fault>
        ensures { MatchResult result (λ rows. (x : Part A.Args A.Row) × (slice_get self.now.parts partition ≡ Some x) × (S.store rows.now ≡ x.scheduler.store))
            (λ fault. (fault ≡ Fault.NoNode) × (slice_get self.now.parts partition ≡ None)) }
    {
        let at = partition as usize;
        if at >= self.partitions.len() {
            return Err(Fault::NoNode);
        }
        Ok(self.partitions[at].rows())
    }

    /// The greatest epoch at whose end a partition stands, if there is one: it then has exactly its part of the rows of the
    /// serial run up to there. Refused with `NoNode` where there is no such partition.
    pub fn stands_at(&self, partition: u8) -> Result<Option<u64>, Fault>
        ensures stands { result ≡ stands_in self.now.order (slice_get self.now.parts partition) }
        ensures serial { (x : Part A.Args A.Row) (epoch : ℕ) → slice_get self.now.parts partition ≡ Some x → result ≡ Ok (Some epoch)
            → x.scheduler.store.map ≡ part self.now.count partition (rows_before A.meaning self.now.order finite.empty (end_of (suc epoch))) }
    {
        let at = partition as usize;
        if at >= self.partitions.len() {
            return Err(Fault::NoNode);
        }
        due_is::<A::Args, A::Row>();
        Ok(self.partitions[at].stands_at())
    }
}
