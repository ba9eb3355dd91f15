//! How a scheduler runs a request, and what a run makes of its data.
ghost use Rattle.std.specs.Prelude.{◌≡◌, ◌≤◌, [], Ok, length, IfOk, IfErr, OnOk, OnErr, IsOk, IsOkUnless, MatchResult};
ghost use Rattle.calvin_app.specs.declared.job.Job.{Job};
ghost use Rattle.calvin_app.specs.Serial.{answer_on, writes_on};
ghost use Rattle.calvin_sched.specs.Keeping.{IsNotRun};
ghost use Rattle.calvin_sched.specs.Progress.{left};
ghost use Rattle.calvin_sched.specs.Scheduling.{local_writes};
ghost use Rattle.calvin_sched.specs.Steps as steps;

use crate::finishing::{are_local, local_part};
use crate::scheduler::Scheduler;
use calvin_app::{Answer, App, View, Writes};
use calvin_lock::Locks;
use calvin_store::Rows;
use calvin_types::{Fault, Place, RequestId, Txn};

impl<A: App, L: Locks + Drop, S: Rows<A::Row> + Drop> Scheduler<A, L, S> {
    /// Runs the request at a place on the rows of all its reads: its answer is put in place of another one, and what it
    /// writes anywhere among writes, of which there are none yet. Gives its name and its attempt. Refused as `job` is.
    fn compute(
        &self,
        place: Place,
        app: &A,
        answer: &mut Answer<A::Reply>,
        writes: &mut Writes<A::Row>,
    ) -> Result<(RequestId, u8), Fault>
        requires { writes.old ≡ [] }
        ensures ok { IfOk result (λ name. (j : Job A.Args A.Row) × (steps.job self.now.here place self.now.scheduling ≡ Ok j) × (name ≡ (j.txn.id, j.txn.attempt))
            × (answer.new ≡ answer_on A.meaning j.txn j.view) × (writes.new ≡ writes_on A.meaning j.txn j.view)) }
        ensures refused { IfErr result (λ fault. steps.job self.now.here place self.now.scheduling ≡ Err fault) }
    {
        let turn = self.due(place)?;
        let txn = turn.txn();
        let mut view = View::new();
        if turn.reads_here_alone(&self.config, self.partition) {
            turn.put_served(&mut view);
        } else {
            turn.put_whole(&self.config, self.partition, &mut view);
        }
        run_on(app, txn, &view, answer, writes);
        Ok((txn.id, txn.attempt))
    }

    /// What the request at a place, which is due to be finished, writes here is put into the rows, its locks are released, and it
    /// is done. Refused with `OutOfMemory` where more is written here than there is room for, and a growth was refused.
    pub(crate) fn apply(&mut self, place: Place, writes: &Writes<A::Row>) -> Result<(), Fault>
        requires { (j : Job A.Args A.Row) × (steps.job self.old.here place self.old.scheduling ≡ Ok j) × (writes.now ≡ local_writes self.old.here (writes_on A.meaning j.txn j.view)) }
        ensures ok { OnOk result ((j : Job A.Args A.Row) → steps.job self.old.here place self.old.scheduling ≡ Ok j
            → self.new.scheduling ≡ steps.after_job A.meaning self.old.here j self.old.scheduling) }
        ensures err { OnErr result (self.new.scheduling ≡ self.old.scheduling) }
        ensures room { OnErr result (self.old.room ≤ self.new.room) }
        ensures only { IsOkUnless result Fault.OutOfMemory }
        ensures succeeds { length writes.now ≤ self.old.room → IsOk result }
        ensures rest { self.new ≡ record self.old { scheduling = self.new.scheduling; room = self.new.room; due = self.new.due } }
        ensures due { self.new.due ≡ left self.new.scheduling self.old.due }
    {
        self.rows.reserve(writes.len())?;
        self.rows.put_all(place, writes);
        self.turns.finish(place);
        let _released = self.locks.release(place);
        self.progress.finish(place, self.opened, &self.turns);
        Ok(())
    }

    /// The request at a place is run, what it writes here is put into the rows, its locks are released, and it is done: `job`,
    /// the application's run and `finish` in one. Its answer is put in place of another one, and its name and its attempt
    /// are given. Refused with `NotReady` where the request has not begun or is done, with `ReadsMissing` where rows of another
    /// partition are still to come, else with `OutOfMemory` where more is written here than there is room for, and a growth was
    /// refused: then nothing is said of the answer. Where it is refused there is no less room.
    pub fn run(
        &mut self,
        place: Place,
        app: &A,
        answer: &mut Answer<A::Reply>,
    ) -> Result<(RequestId, u8), Fault>
        ensures ok { IfOk result (λ name. (j : Job A.Args A.Row) × (steps.job self.old.here place self.old.scheduling ≡ Ok j) × (name ≡ (j.txn.id, j.txn.attempt))
            × (answer.new ≡ answer_on A.meaning j.txn j.view) × (self.new.scheduling ≡ steps.after_job A.meaning self.old.here j self.old.scheduling)) }
        ensures err { OnErr result (self.new.scheduling ≡ self.old.scheduling) }
        ensures refused { IfErr result (IsNotRun A.meaning self.old.here self.old.room (steps.job self.old.here place self.old.scheduling)) }
        ensures room { OnErr result (self.old.room ≤ self.new.room) }
        ensures rest { self.new ≡ record self.old { scheduling = self.new.scheduling; room = self.new.room; due = self.new.due } }
        ensures due { self.new.due ≡ left self.new.scheduling self.old.due }
    {
        self.seek(place);
        self.run_found(place, app, answer)
    }

    /// The same as `run`, wherever the request is looked for first.
    fn run_found(
        &mut self,
        place: Place,
        app: &A,
        answer: &mut Answer<A::Reply>,
    ) -> Result<(RequestId, u8), Fault>
        ensures ok { IfOk result (λ name. (j : Job A.Args A.Row) × (steps.job self.old.here place self.old.scheduling ≡ Ok j) × (name ≡ (j.txn.id, j.txn.attempt))
            × (answer.new ≡ answer_on A.meaning j.txn j.view) × (self.new.scheduling ≡ steps.after_job A.meaning self.old.here j self.old.scheduling)) }
        ensures err { OnErr result (self.new.scheduling ≡ self.old.scheduling) }
        ensures refused { IfErr result (IsNotRun A.meaning self.old.here self.old.room (steps.job self.old.here place self.old.scheduling)) }
        ensures room { OnErr result (self.old.room ≤ self.new.room) }
        ensures rest { self.new ≡ record self.old { scheduling = self.new.scheduling; room = self.new.room; due = self.new.due } }
        ensures due { self.new.due ≡ left self.new.scheduling self.old.due }
    {
        let mut writes = Writes::new();
        let name = self.compute(place, app, answer, &mut writes)?;
        if are_local::<A>(&writes, &self.config, self.partition) {
            self.apply(place, &writes)?;
        } else {
            let here = local_part::<A>(&writes, &self.config, self.partition);
            self.apply(place, &here)?;
        }
        Ok(name)
    }
}

/// Runs a request on a view: its answer is put in place of another one, and what it writes among writes, of which there are
/// none yet.
#[tactic(auto, unfolding(calvin_app::specs::Serial::answer_on, calvin_app::specs::Serial::writes_on))]
fn run_on<A: App>(
    app: &A,
    txn: &Txn<A::Args>,
    view: &View<A::Row>,
    answer: &mut Answer<A::Reply>,
    writes: &mut Writes<A::Row>,
)
    requires { writes.old ≡ [] }
    ensures answer { answer.new ≡ answer_on A.meaning txn.now view.now }
    ensures writes { writes.new ≡ writes_on A.meaning txn.now view.now }
{
    if app.needs_only(&txn.args, view, &txn.sets) {
        app.run_into(&txn.args, view, answer, writes);
    } else {
        *answer = Answer::Changed;
    }
}
