//! A node's own events, by their names.
ghost use Rattle.std.specs.Prelude.{true};
ghost use Rattle.calvin_node_acts.specs.Acting as acting;
ghost use Rattle.calvin_node_acts.specs.Growing.{act_grows};
ghost use Rattle.calvin_node_acts.specs.Running.{NodeDid};

use crate::node::Node;
use calvin_app::{Answer, App};
use calvin_lock::Locks;
use calvin_node_acts::Act;
use calvin_node_packets::{Address, Outbox};
use calvin_store::Rows;
use calvin_types::{Fault, Place};

impl<A: App, L: Locks + Drop, S: Rows<A::Row> + Drop> Node<A, L, S> {
    /// One of the node's own events happens. Refused as the call of its name is.
    pub fn act(&mut self, act: &Act<A::Args>, app: &A, outbox: &mut Outbox<A>) -> Result<(), Fault>
        ensures did { NodeDid (act_grows self.old.config act.now self.old.state)
            result (acting.deed_of A.meaning self.old.config act.now self.old.state) self.old self.new outbox.old.packets outbox.new.packets }
    {
        match act {
            Act::Submit(txn) => self.submit(*txn),
            Act::SubmitCold(txn) => self.submit_cold(*txn, outbox),
            Act::Cool(key) => self.cool(key),
            Act::Close => self.close(),
            Act::Merge => self.merge(),
            Act::Lock => self.lock_next(),
            Act::Restart => self.restart(),
            Act::Propose(epoch) => self.propose(*epoch, outbox),
            Act::Snapshot(epoch) => self.snapshot(*epoch),
            Act::Mark(epoch) => self.mark(*epoch),
            Act::Begin(place) => self.begin(*place, outbox),
            Act::Finish(place) => self.finish(*place, app, outbox),
            Act::AskForReads(place, replica) => self.ask_reads(*place, *replica, outbox),
            Act::AskForBatch(slot, of) => self.ask_batch(*slot, *of, outbox),
        }
    }

    /// The request at a place is run, what it writes here is put into the rows, and its client is answered: `job`, the
    /// application's run, and `take_computed` in one. Refused with `NotReady` where the request has not begun or is done, with
    /// `ReadsMissing` where rows of another partition are still to come, else with `OutOfMemory` where a growth was refused.
    pub fn finish(&mut self, place: Place, app: &A, outbox: &mut Outbox<A>) -> Result<(), Fault>
        ensures did { NodeDid true result (acting.finish A.meaning self.old.config place self.old.state) self.old self.new outbox.old.packets outbox.new.packets }
    {
        self.scheduler.due_is_undone();
        if outbox.reserve(1).is_err() {
            let _due = self.scheduler.job(place)?;
            return Err(Fault::OutOfMemory);
        }
        let mut answer = Answer::Changed;
        let name = self.scheduler.run(place, app, &mut answer)?;
        let to = Address::AtClient(name.0.client);
        outbox.push_answer(self.layer.id(), to, place, name.0, name.1, answer);
        Ok(())
    }
}
