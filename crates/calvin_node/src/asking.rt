//! What a node asks for again.
ghost use Rattle.std.specs.Prelude.{◌≡◌, ◌==◌, ◌&&◌, not, nat_lt, true};
ghost use Rattle.calvin_sched.specs.Keeping.{awaits_at};
ghost use Rattle.calvin_sched.specs.Scheduling.{turn_at};
ghost use Rattle.calvin_node_acts.specs.Acting as acting;
ghost use Rattle.calvin_node_acts.specs.NodeStates.{site_of};
ghost use Rattle.calvin_node_acts.specs.Running.{NodeDid};

use crate::node::Node;
use calvin_app::App;
use calvin_lock::Locks;
use calvin_node_packets::{Content, Outbox};
use calvin_store::Rows;
use calvin_types::{Fault, Few, NodeId, Place, Slot};

impl<A: App, L: Locks + Drop, S: Rows<A::Row> + Drop> Node<A, L, S> {
    /// Asks a node for the batch of a slot. Refused with `NoNode` where there is no such node or group, with `Known` where the
    /// batch is held, else with `OutOfMemory` where a growth was refused.
    pub fn ask_batch(&self, slot: Slot, of: NodeId, outbox: &mut Outbox<A>) -> Result<(), Fault>
        ensures did { NodeDid true result (acting.ask_batch self.now.config slot of self.now.state) self.now self.now outbox.old.packets outbox.new.packets }
    {
        self.layer.ask_batch(slot, of, outbox)
    }

    /// Whether rows of another partition are awaited for the request at a place.
    fn is_awaited(&self, place: Place, other: u8) -> bool
        ensures { result ≡ (not (other == self.now.state.id.partition) && awaits_at (site_of self.now.config.partitions self.now.state) (turn_at self.now.state.scheduler place) other) }
    {
        other != self.layer.id().partition && self.scheduler.awaits(place, other)
    }

    /// The partitions whose rows are awaited for the request at a place, ascending.
    fn awaited_from(&self, place: Place) -> Few<u8>
        ensures { result ≡ acting.awaited_from self.now.config self.now.state (turn_at self.now.state.scheduler place) }
    {
        let mut awaited = Few::new();
        for other in 0..self.layer.config().partitions {
            if self.is_awaited(place, other) {
                awaited.push(other);
            }
        }
        awaited
    }

    /// Asks the partitions of a replica for the rows that are awaited of them for the request at a place. Refused with `NoNode`
    /// where there is no such replica, with `NotAwaited` where no rows are awaited, else with `OutOfMemory` where a growth
    /// was refused.
    pub fn ask_reads(&self, place: Place, replica: u8, outbox: &mut Outbox<A>) -> Result<(), Fault>
        ensures did { NodeDid true result (acting.ask_reads self.now.config place replica self.now.state) self.now self.now outbox.old.packets outbox.new.packets }
    {
        self.scheduler.due_is_undone();
        if replica >= self.layer.config().replicas {
            return Err(Fault::NoNode);
        }
        let awaited = self.awaited_from(place);
        if awaited.len() == 0 {
            return Err(Fault::NotAwaited);
        }
        outbox.post_to_each(
            self.layer.id(),
            replica,
            &Content::AskReads(place),
            &awaited,
        )
    }
}
