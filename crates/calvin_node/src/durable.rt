//! What outlives a restart of a node.
ghost use Rattle.std.specs.Prelude.{◌≡◌, ◌⊎◌, [], Ok, Err, true, false, IfOk, IfErr};
ghost use Rattle.calvin_order.specs.Configs.{config_of};
ghost use Rattle.calvin_node_acts.specs.Acting as acting;
ghost use Rattle.calvin_node_acts.specs.Durables as durables;
ghost use Rattle.calvin_node_acts.specs.Durables.{durable_of, is_order_changed};
ghost use Rattle.calvin_node_acts.specs.Growing.{act_grows, has_snapshot};
ghost use Rattle.calvin_node_acts.specs.Running.{NodeDid};
ghost use Rattle.calvin_node_acts.specs.declared.act.Act.TheVariants as act;

use crate::node::Node;
use calvin_app::App;
use calvin_lock::Locks;
use calvin_node_acts::{first_epoch, is_order_changed, scheduler_from};
use calvin_node_sequencing::SequencingLayer;
use calvin_order::PendingRequests;
use calvin_store::{Rows, Snapshot};
use calvin_synod::SynodRecord;
use calvin_types::{Config, Fault, NodeId};
use std::alloc::Global;
use std::marker::Model;

/// The promises and votes of a node, the greatest round that it used, and its last snapshot, if it has one: with the epoch at
/// whose end it was taken (Thomson et al. 2012, section 5: a node loads a checkpoint and replays the agreed inputs). Then the
/// first epoch whose batches are woven, if there is one, in the store in which all this came to be.
#[derive(Drop)]
pub struct Durable<A: App> {
    pub(crate) synod: SynodRecord<A::Args>,
    pub(crate) kept: Option<(u64, Snapshot<A::Row>)>,
    pub(crate) woven_from: Option<u64>,
}

impl<A: App> Model for Durable<A> {
    ghost use Rattle.std.specs.Coded.{codes};
    ghost use Rattle.std.specs.FinMap.{code};
    ghost use Rattle.calvin_node_acts.specs.Durables as durables;
    ghost use Rattle.calvin_node_acts.specs.Running.{kept_epochs, kept_rows};

    ghost Value = { durables.Durable A.Args A.Row };

    ghost coded = { Prim.hlevel (codes, code) };

    ghost view = { λ d. record { acceptor = d.synod.acceptor; used = d.synod.used; kept_epochs = kept_epochs d.kept; kept_rows = kept_rows d.kept; woven_from = d.woven_from } };
}

impl<A: App> Durable<A> {
    /// The first epoch whose batches are woven, if there is one, in the store in which the record came to be.
    pub fn woven_from(&self) -> Option<u64>
        ensures { result ≡ self.now.woven_from }
    {
        self.woven_from
    }
}

impl<A: App, L: Locks + Drop, S: Rows<A::Row> + Drop> Node<A, L, S> {
    /// The node loses all but its durable record, and comes back from it: from its last snapshot on it asks for the batches
    /// again, and runs them (section 5). Refused with `OutOfMemory` where it has a snapshot and a growth was refused: then
    /// nothing is lost.
    pub fn restart(&mut self) -> Result<(), Fault>
        ensures did { NodeDid {Reply = A.Reply} (act_grows self.old.config act.Restart self.old.state) result (acting.restart self.old.state) self.old self.new [] [] }
    {
        let own = self.layer.id().partition;
        self.scheduler = scheduler_from(self.alloc, self.layer.config(), own, &self.kept)?;
        self.layer.restart(first_epoch(&self.kept));
        self.pending = PendingRequests::new(self.alloc);
        Ok(())
    }

    /// Its durable record, and nothing else of it.
    pub fn into_durable(self) -> Durable<A>
        ensures { result ≡ durable_of self.config self.state }
    {
        Durable {
            woven_from: self.layer.config().woven_from,
            synod: self.layer.into_record(),
            kept: self.kept,
        }
    }

    /// A node that is opened from a record, under a name: what `restart` makes of a node of this name with that record. The
    /// record is handed back where it is refused: with `OrderChanged` where an epoch of its snapshot would be ordered otherwise
    /// than in the store in which it came to be, else with `OutOfMemory` where it has a snapshot and a growth was refused.
    pub fn from_durable(
        alloc: Global,
        config: &Config,
        id: NodeId,
        durable: Durable<A>,
    ) -> Result<Node<A, L, S>, (Fault, Durable<A>)>
        ensures config { IfOk result (λ n. n.config ≡ config_of config.now S.points S.cold) }
        ensures state { IfOk result (λ n. durables.from_durable n.config id durable ≡ Ok n.state) }
        ensures err { IfErr result (λ refused. refused.1 ≡ durable) }
        ensures only { IfErr result (λ refused. (durables.from_durable (config_of config.now S.points S.cold) id durable ≡ Err refused.0)
            ⊎ ((is_order_changed config.now.woven_from durable.woven_from durable.kept_epochs ≡ false) × (refused.0 ≡ Fault.OutOfMemory) × (has_snapshot durable.kept_epochs ≡ true))) }
    {
        if is_order_changed(config.woven_from, durable.woven_from, &durable.kept) {
            return Err((Fault::OrderChanged, durable));
        }
        let scheduler = match scheduler_from(alloc, config, id.partition, &durable.kept) {
            Ok(scheduler) => scheduler,
            Err(fault) => return Err((fault, durable)),
        };
        let first = first_epoch(&durable.kept);
        Ok(Node {
            alloc,
            layer: SequencingLayer::from_record(alloc, config, id, durable.synod, first),
            pending: PendingRequests::new(alloc),
            scheduler,
            kept: durable.kept,
        })
    }
}
