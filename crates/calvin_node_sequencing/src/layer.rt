//! One sequencing layer.
ghost use Rattle.std.specs.Prelude.{◌≡◌, ◌^◌, length, MatchOption};
ghost use Rattle.std.specs.Option.{unwrap_or};
ghost use Rattle.calvin_order.specs.Configs.{order_config};
ghost use Rattle.calvin_order.specs.Sequencing.{next_epoch};
ghost use Rattle.calvin_synod.specs.Cases.{fresh, replica_from};
ghost use Rattle.calvin_node_acts.specs.Layers.{opened_layer};

use calvin_app::App;
use calvin_order::{Merge, Sequencer};
use calvin_synod::{Member, SynodRecord};
use calvin_types::{Config, NodeId};
use std::alloc::Global;
use std::marker::Model;

/// What a node decides with the other nodes of its group (Thomson et al. 2012, section 3.1: the sequencing layer, and its
/// replication): a sequencer, which gathers requests into batches; the replica's roles in the synods, which agree on them; and
/// the batches of all groups that are held, which are merged into one order.
///
/// Where an event takes effect at it, each node with this layer is what the event's case leaves, and the packets that it sends
/// are appended to the outbox that the call is handed; else the call is the refusal of that case, and nothing changed.
#[derive(Drop)]
pub struct SequencingLayer<A: App> {
    pub(crate) alloc: Global,
    pub(crate) config: Config,
    pub(crate) id: NodeId,
    pub(crate) member: Member<A::Args>,
    pub(crate) sequencer: Sequencer<A::Args>,
    pub(crate) merge: Merge<A::Args>,
}

impl<A: App> Model for SequencingLayer<A> {
    ghost use Rattle.std.specs.Coded.{codes};
    ghost use Rattle.std.specs.FinMap.{code};
    ghost use Rattle.calvin_node_acts.specs.Layers.{Layer, layer_of, IsLayer};

    ghost Value = { Layer A.Args };

    ghost coded = { Prim.hlevel (codes, code) };

    ghost view = { λ l. layer_of l.config l.id l.member l.sequencer l.merge };

    ghost invariant = { λ l. IsLayer l.config l.id l.member l.merge };
}

impl<A: App> SequencingLayer<A> {
    /// The layer of a node at first: nothing is submitted, promised or held.
    pub fn new(alloc: Global, config: &Config, id: NodeId) -> SequencingLayer<A>
        ensures { result ≡ opened_layer (order_config config.now) id fresh 0 }
    {
        SequencingLayer {
            alloc,
            config: *config,
            id,
            member: Member::new(alloc, config, id.replica),
            sequencer: Sequencer::new(alloc, config.delay),
            merge: Merge::new(alloc, config),
        }
    }

    /// A layer that goes on after what outlived a restart: it has these promises and votes, and has used rounds up to the
    /// greatest one that was; `first` is the next epoch, and there is none once all up to 2^64 - 1 are merged.
    pub fn from_record(
        alloc: Global,
        config: &Config,
        id: NodeId,
        kept: SynodRecord<A::Args>,
        first: Option<u64>,
    ) -> SequencingLayer<A>
        ensures { result ≡ opened_layer (order_config config.now) id (replica_from kept.acceptor kept.used) (unwrap_or first (2 ^ 64)) }
    {
        SequencingLayer {
            alloc,
            config: *config,
            id,
            member: Member::from_record(alloc, config, id.replica, kept),
            sequencer: Sequencer::from_epoch(alloc, config.delay, first),
            merge: Merge::from_epoch(alloc, config, first),
        }
    }

    /// Loses all but the promises, the votes and the greatest round used, and goes on from this epoch.
    pub fn restart(&mut self, first: Option<u64>)
        ensures { self.new ≡ opened_layer self.old.config self.old.id (replica_from self.old.synod.acceptor self.old.synod.proposer.used) (unwrap_or first (2 ^ 64)) }
    {
        self.member.restart();
        self.sequencer = Sequencer::from_epoch(self.alloc, self.sequencer.delay(), first);
        self.merge = Merge::from_epoch(self.alloc, &self.config, first);
    }

    /// What outlives a restart: the promises, the votes and the greatest round used.
    pub fn into_record(self) -> SynodRecord<A::Args>
        ensures { result ≡ record { acceptor = self.synod.acceptor; used = self.synod.proposer.used } }
    {
        self.member.into_record()
    }

    /// The name of its node.
    pub fn id(&self) -> NodeId
        ensures { result ≡ self.now.id }
    {
        self.id
    }

    /// How many partitions and replicas its store is opened with, and from when on batches are woven; of the delay nothing is
    /// said.
    pub fn config(&self) -> &Config
        ensures partitions { result.now.partitions ≡ self.now.config.partitions }
        ensures replicas { result.now.replicas ≡ self.now.config.replicas }
        ensures woven_from { result.now.woven_from ≡ self.now.config.woven_from }
    {
        &self.config
    }

    /// The epoch whose batch is closed next, if one is left below 2^64: the least one, from the first one since the last
    /// restart on, that is neither closed here nor known as decided.
    pub fn next_epoch(&self) -> Option<u64>
        ensures { MatchOption result (next_epoch self.now.sequencer ≡ 2 ^ 64) (λ epoch. epoch ≡ next_epoch self.now.sequencer) }
    {
        self.sequencer.next_epoch()
    }

    /// How many requests are queued.
    pub fn queued(&self) -> usize
        ensures { result ≡ length self.now.sequencer.queue }
    {
        self.sequencer.queued()
    }
}
