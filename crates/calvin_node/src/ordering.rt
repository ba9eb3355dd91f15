//! The order of a node: the batches that are held are merged, epoch after epoch.
ghost use Rattle.std.specs.Prelude.{[]};
ghost use Rattle.calvin_node_acts.specs.Acting as acting;
ghost use Rattle.calvin_node_acts.specs.Growing.{act_grows};
ghost use Rattle.calvin_node_acts.specs.Running.{NodeDid};
ghost use Rattle.calvin_node_acts.specs.declared.act.Act.TheVariants as act;

use crate::node::Node;
use calvin_app::App;
use calvin_lock::Locks;
use calvin_store::Rows;
use calvin_types::Fault;

impl<A: App, L: Locks + Drop, S: Rows<A::Row> + Drop> Node<A, L, S> {
    /// The batches of the next epoch are merged: their requests are to be admitted, in order (Thomson et al. 2012, section
    /// 3.1). Refused with `NotComplete` where a group's batch isn't held for that epoch, as always once no epoch is left;
    /// else with `OutOfMemory` where the epoch has a request and a growth was refused.
    pub fn merge(&mut self) -> Result<(), Fault>
        ensures did { NodeDid {Reply = A.Reply} (act_grows self.old.config act.Merge self.old.state) result (acting.merge self.old.config self.old.state) self.old self.new [] [] }
    {
        let segments = self.layer.next_segments()?;
        let Some(epoch) = self.layer.next_to_merge() else {
            return Err(Fault::NotComplete);
        };
        self.scheduler.due_is_undone();
        self.pending.reserve(segments.len())?;
        self.scheduler
            .merged_batches(epoch, self.layer.config(), &self.layer)?;
        self.layer.pass_epoch();
        self.pending.append(segments);
        Ok(())
    }
}
