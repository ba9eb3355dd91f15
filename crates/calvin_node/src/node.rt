//! One node.
ghost use Rattle.std.specs.Prelude.{◌≡◌, ◌^◌, length, MatchOption};
ghost use Rattle.std.specs.Option.{option_copied};
ghost use Rattle.std.specs.FinMap as map;
ghost use Rattle.calvin_order.specs.Configs.{config_of};
ghost use Rattle.calvin_order.specs.Sequencing.{next_epoch};
ghost use Rattle.calvin_node_acts.specs.NodeStates.{new_node};

use calvin_app::App;
use calvin_lock::Locks;
use calvin_node_sequencing::SequencingLayer;
use calvin_order::PendingRequests;
use calvin_sched::Scheduler;
use calvin_store::{Rows, Snapshot};
use calvin_types::{Batch, Config, NodeId, Slot};
use std::alloc::Global;
use std::marker::Model;

/// Partition p of replica r (Thomson et al. 2012, section 3): its sequencing layer, with a sequencer, which gathers requests
/// into batches, the replica's roles in the synods of its group, which agrees on them, and the batches that are held, which are
/// merged into one order; and the scheduler of the partition, over any lock manager and any keeper of rows. Of all this the
/// synods' promises and votes, the greatest round used and the last snapshot are its durable record.
///
/// Each event of a node is one call. Where it takes effect the node is what the event's case leaves, and the packets that
/// it sends are appended to the outbox that the call is handed; else the call is the refusal of that case, and nothing
/// changed.
#[derive(Drop)]
pub struct Node<A: App, L: Locks + Drop, S: Rows<A::Row> + Drop> {
    pub(crate) alloc: Global,
    pub(crate) layer: SequencingLayer<A>,
    pub(crate) pending: PendingRequests<A::Args>,
    pub(crate) scheduler: Scheduler<A, L, S>,
    pub(crate) kept: Option<(u64, Snapshot<A::Row>)>,
}

impl<A: App, L: Locks + Drop, S: Rows<A::Row> + Drop> Model for Node<A, L, S> {
    ghost use Rattle.std.specs.Coded.{codes};
    ghost use Rattle.std.specs.FinMap.{code};
    ghost use Rattle.calvin_node_acts.specs.Layers.{IsNode, node_of, rest_of};
    ghost use Rattle.calvin_node_acts.specs.Running.{Running};

    ghost Value = { Running A.Args A.Row };

    ghost coded = { Prim.hlevel (codes, code) };

    ghost view = { λ n. node_of n.layer (rest_of S.points S.cold n.pending.requests n.scheduler n.kept) };

    ghost invariant = { λ n. IsNode n.layer n.scheduler };
}

impl<A: App, L: Locks + Drop, S: Rows<A::Row> + Drop> Node<A, L, S> {
    /// A node at first: nothing is submitted, promised, held or kept, and there is no row.
    pub fn new(alloc: Global, config: &Config, id: NodeId) -> Node<A, L, S>
        ensures config { result.config ≡ config_of config.now S.points S.cold }
        ensures state { result.state ≡ new_node id }
    {
        Node {
            alloc,
            layer: SequencingLayer::new(alloc, config, id),
            pending: PendingRequests::new(alloc),
            scheduler: Scheduler::new(alloc, config, id.partition),
            kept: None,
        }
    }

    /// Its name.
    pub fn id(&self) -> NodeId
        ensures { result ≡ self.now.state.id }
    {
        self.layer.id()
    }

    /// The epoch whose batch is closed next, if one is left below 2^64: the least one, from the first one since the last
    /// restart on, that is neither closed here nor known as decided.
    pub fn next_epoch(&self) -> Option<u64>
        ensures { MatchOption result (next_epoch self.now.state.sequencer ≡ 2 ^ 64) (λ epoch. epoch ≡ next_epoch self.now.state.sequencer) }
    {
        self.layer.next_epoch()
    }

    /// The epoch that is merged next, if one is left below 2^64.
    pub fn next_to_merge(&self) -> Option<u64>
        ensures { MatchOption result (self.now.state.merged_epochs ≡ 2 ^ 64) (λ epoch. epoch ≡ self.now.state.merged_epochs) }
    {
        self.layer.next_to_merge()
    }

    /// How many requests are queued.
    pub fn queued(&self) -> usize
        ensures { result ≡ length self.now.state.sequencer.queue }
    {
        self.layer.queued()
    }

    /// The batch that is held for a slot.
    pub fn held(&self, slot: Slot) -> Option<&Batch<A::Args>>
        ensures { option_copied result ≡ map.get self.now.state.held slot }
    {
        self.layer.held(slot)
    }
}
