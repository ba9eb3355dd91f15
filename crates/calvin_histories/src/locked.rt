//! A node with its history and what it has sent: what stands under one lock.
ghost use Rattle.std.specs.Prelude.{◌≡◌, [], ◌∷◌, ◌++◌, length, IfErr, OnOk, OnErr};
ghost use Rattle.calvin_order.specs.Configs.{config_of};
ghost use Rattle.calvin_node_acts.specs.NodeStates.{NodeState};
ghost use Rattle.calvin_node_acts.specs.declared.act.Act.TheVariants.{Finish};
ghost use Rattle.calvin_histories.specs.declared.entry.Entry.TheVariants.{Own, Came};
ghost use Rattle.calvin_histories.specs.Locked.{IsLife, HasLived, IsNoEntry, IsNoFinish};

use crate::entry::{Entry, History};
use calvin_app::{App, Computed};
use calvin_lock::{Locks, QueueLocks};
use calvin_node::{Act, Node};
use calvin_node_packets::{Outbox, Packet};
use calvin_store::{ColdRows, Rows};
use calvin_types::{Config, Fault, NodeId};
use calvin_world::PacketName;
use std::alloc::Global;
use std::marker::Model;

/// A node, the entries of its history, and the packets that it has sent. To a contract it is what its store was opened with, its
/// name, and its history: these determine the node, and what it has sent.
#[derive(Drop)]
pub struct LockedNode<A: App + Drop, L: Locks + Drop, S: Rows<A::Row> + Drop> {
    id: NodeId,
    node: Node<A, L, S>,
    entries: Vec<Entry<A::Args, A::Row, A::Reply>>,
    sent: Outbox<A>,
}

/// Why a packet wasn't taken, and the packet.
pub type Returned<A> = (
    Fault,
    Packet<<A as App>::Args, <A as App>::Row, <A as App>::Reply>,
);

/// A node as the commands run it.
pub type StoreNode<A> = LockedNode<A, QueueLocks, ColdRows<<A as App>::Row>>;

impl<A: App + Drop, L: Locks + Drop, S: Rows<A::Row> + Drop> Model for LockedNode<A, L, S> {
    ghost use Rattle.std.specs.Coded.{codes};
    ghost use Rattle.std.specs.FinMap.{code};
    ghost use Rattle.calvin_histories.specs.Locked.{Lived, IsLife};

    ghost Value = { Lived A.Args A.Row A.Reply };

    ghost coded = { Prim.hlevel (codes, code) };

    ghost view = { λ n. record { config = n.node.config; id = n.id; history = n.entries.items } };

    ghost invariant = { λ n. IsLife A.meaning (record { config = n.node.config; id = n.id; history = n.entries.items }) n.node.state n.sent.packets };
}

impl<A: App + Drop, L: Locks + Drop, S: Rows<A::Row> + Drop> LockedNode<A, L, S> {
    /// A node at first.
    pub fn new(alloc: Global, config: &Config, id: NodeId) -> LockedNode<A, L, S>
        ensures { result ≡ record { config = config_of config.now S.points S.cold; id = id; history = [] } }
    {
        LockedNode {
            id,
            node: Node::new(alloc, config, id),
            entries: Vec::new(alloc),
            sent: Outbox::new(alloc),
        }
    }

    /// Its name.
    pub fn id(&self) -> NodeId
        ensures { result ≡ self.now.id }
    {
        self.id
    }

    /// The node, which is what its own history gives.
    pub fn node(&self) -> &Node<A, L, S>
        ensures config { result.now.config ≡ self.now.config }
        ensures life { HasLived A.meaning self.now result.now.state }
    {
        &self.node
    }

    /// How many entries its history has.
    pub fn len(&self) -> usize
        ensures { result ≡ length self.now.history }
    {
        self.entries.len()
    }

    /// The entries of its history.
    pub fn entries(&self) -> &[Entry<A::Args, A::Row, A::Reply>]
        ensures { result.now ≡ self.now.history }
    {
        self.entries.as_slice()
    }

    /// What it has sent, in order: the number of each is the one in its name.
    pub fn sent(&self) -> &Outbox<A>
        ensures { (state : NodeState A.Args A.Row) × IsLife A.meaning self.now state result.now.packets }
    {
        &self.sent
    }

    /// One of the node's own events happens. Refused as `Node::act` is, or with `OutOfMemory` where there was no room for it in the
    /// history. Where it is refused nothing changed.
    pub fn act(&mut self, act: &Act<A::Args>, app: &A) -> Result<(), Fault>
        ensures ok { OnOk result (self.new ≡ record self.old { history = self.old.history ++ Own act.now ∷ [] }) }
        ensures err { OnErr result (self.new ≡ self.old) }
        ensures only { IfErr result (IsNoEntry A.meaning self.old (Own act.now)) }
    {
        self.entries.reserve(1)?;
        match self.node.act(act, app, &mut self.sent) {
            Ok(()) => {
                self.entries.push_reserved(Entry::Own(*act));
                Ok(())
            }
            Err(fault) => Err(fault),
        }
    }

    /// Takes what came of the node's job: its own event `Finish` of that place happens. Refused as `Node::take_computed` is, or with
    /// `OutOfMemory` where there was no room for it in the history. Where it is refused nothing changed.
    pub fn finish_with(&mut self, computed: &Computed<A>) -> Result<(), Fault>
        ensures ok { OnOk result (self.new ≡ record self.old { history = self.old.history ++ Own (Finish computed.now.job.place) ∷ [] }) }
        ensures err { OnErr result (self.new ≡ self.old) }
        ensures only { IfErr result (IsNoFinish A.meaning self.old computed.now.job) }
    {
        self.entries.reserve(1)?;
        match self.node.take_computed(computed, &mut self.sent) {
            Ok(()) => {
                self.entries
                    .push_reserved(Entry::Own(Act::Finish(computed.job.place)));
                Ok(())
            }
            Err(fault) => Err(fault),
        }
    }

    /// A packet comes that its sender sent under this name. Refused as `Node::handle` is, or with `OutOfMemory` where there was no
    /// room for it in the history: the packet is handed back, and nothing changed.
    pub fn receive(
        &mut self,
        name: PacketName,
        packet: Packet<A::Args, A::Row, A::Reply>,
    ) -> Result<(), Returned<A>>
        ensures ok { OnOk result (self.new ≡ record self.old { history = self.old.history ++ Came name packet ∷ [] }) }
        ensures err { OnErr result (self.new ≡ self.old) }
        ensures back { IfErr result (λ why. why.1 ≡ packet) }
        ensures only { IfErr result (λ why. IsNoEntry A.meaning self.old (Came name packet) why.0) }
    {
        match self.entries.reserve(1) {
            Ok(()) => {}
            Err(_) => return Err((Fault::OutOfMemory, packet)),
        }
        match self.node.handle(&packet, &mut self.sent) {
            Ok(()) => {
                self.entries.push_reserved(Entry::Came(name, packet));
                Ok(())
            }
            Err(fault) => Err((fault, packet)),
        }
    }

    /// Its history alone.
    pub fn into_history(self) -> History<A>
        ensures { result ≡ self.history }
    {
        let LockedNode { entries, .. } = self;
        History { entries }
    }
}
