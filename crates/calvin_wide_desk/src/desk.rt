//! A node with the pen of its history.
ghost use Rattle.std.specs.Prelude.{◌≡◌, ◌++◌, ◌∷◌, [], IfOk, IfErr, IfSome, IsTrue, OnOk};
ghost use Rattle.calvin_histories.specs.Histories.{id_of};
ghost use Rattle.calvin_histories.specs.declared.entry.Entry.TheVariants.{Own, Came};
ghost use Rattle.calvin_node_acts.specs.declared.act.Act.TheVariants.{Finish};
ghost use Rattle.calvin_wide_desk.specs.Stopping.{HasLife};

use crate::founding::WideFounding;
use crate::receipt::{Entered, Replied, WideAnswer, WideTicket};
use calvin_app::{App, Computed};
use calvin_book::reply_at;
use calvin_chronicles::{Mark, Naming, Pen, Whole};
use calvin_histories::{Entry, History, LockedNode};
use calvin_lock::Locks;
use calvin_node::Act;
use calvin_node_packets::Packet;
use calvin_store::Rows;
use calvin_types::{Fault, NodeId, Txn};
use calvin_world::PacketName;
use std::marker::Model;

/// The pen of a node's history.
pub type NodePen<A, J> = Pen<Entry<<A as App>::Args, <A as App>::Row, <A as App>::Reply>, J>;

/// A node, and the pen that writes its history, unless another hand wrote there. To a contract it is the node.
#[derive(Drop)]
pub struct WideDesk<A: App + Drop, L: Locks + Drop, S: Rows<A::Row> + Drop, J: WideFounding> {
    pub(crate) locked: LockedNode<A, L, S>,
    pen: Option<Pen<Entry<A::Args, A::Row, A::Reply>, J>>,
}

impl<A: App + Drop, L: Locks + Drop, S: Rows<A::Row> + Drop, J: WideFounding> Model
    for WideDesk<A, L, S, J> {
    ghost use Rattle.std.specs.Prelude.{◌≡◌, IfSome};
    ghost use Rattle.std.specs.Coded.{codes};
    ghost use Rattle.std.specs.FinMap.{code};
    ghost use Rattle.calvin_histories.specs.Histories.{id_of};
    ghost use Rattle.calvin_histories.specs.Locked.{Lived};

    ghost Value = { Lived A.Args A.Row A.Reply };

    ghost coded = { Prim.hlevel (codes, code) };

    ghost view = { λ d. d.locked };

    ghost invariant = { λ d. IfSome d.pen (λ p. (p.1 ≡ d.locked.history) × (d.locked.id ≡ id_of J.config.partitions p.0)) × (d.locked.config ≡ J.config) };
}

/// Writes entries one after another into a new history, and says whether that could be done.
fn write_all<Args, Row, Reply, J: Naming>(
    pen: &mut Pen<Entry<Args, Row, Reply>, J>,
    entries: &[Entry<Args, Row, Reply>],
) -> bool
    requires { pen.old.1 ≡ [] }
    ensures { IsTrue result → pen.new ≡ (pen.old.0, entries.now) }
{
    for entry in entries {
        if !pen.write(entry) {
            return false;
        }
    }
    true
}

/// A node, and a mark of its history so far.
pub(crate) type Begun<A, L, S, J> = (
    WideDesk<A, L, S, J>,
    Mark<Entry<<A as App>::Args, <A as App>::Row, <A as App>::Reply>, J>,
);

impl<A: App + Drop, L: Locks + Drop, S: Rows<A::Row> + Drop, J: WideFounding> WideDesk<A, L, S, J> {
    /// A node, whose history is written anew, of which there is a mark. None where another hand wrote there.
    pub(crate) fn new(
        locked: LockedNode<A, L, S>,
        mut pen: Pen<Entry<A::Args, A::Row, A::Reply>, J>,
    ) -> Option<Begun<A, L, S, J>>
        requires pen { pen.1 ≡ [] }
        requires node { locked.id ≡ id_of J.config.partitions pen.0 }
        requires config { locked.config ≡ J.config }
        ensures { IfSome result (λ r. (r.0 ≡ locked) × (r.1 ≡ (pen.0, locked.history))) }
    {
        if !write_all(&mut pen, locked.entries()) {
            return None;
        }
        let mark = pen.mark();
        let pen = Some(pen);
        Some((WideDesk { locked, pen }, mark))
    }

    /// The node's name.
    pub fn id(&self) -> NodeId
        ensures { result ≡ self.now.id }
    {
        self.locked.id()
    }

    /// The node.
    pub fn locked(&self) -> &LockedNode<A, L, S>
        ensures { result.now ≡ self.now }
    {
        &self.locked
    }

    /// One of the node's own events happens and is written into its history, of which there is a mark. Refused as `LockedNode::act`
    /// is, and with `Closed` where another hand wrote into the history: then nothing happens any more.
    pub fn act(
        &mut self,
        act: &Act<A::Args>,
        app: &A,
    ) -> Result<Mark<Entry<A::Args, A::Row, A::Reply>, J>, Fault>
        ensures { IfOk result (λ mark. (self.new ≡ record self.old { history = self.old.history ++ Own act.now ∷ [] })
            × (self.old.id ≡ id_of J.config.partitions mark.0) × (mark.1 ≡ self.new.history)) }
    {
        let Some(mut pen) = self.pen.take() else {
            return Err(Fault::Closed);
        };
        match self.locked.act(act, app) {
            Ok(()) => {}
            Err(fault) => {
                self.pen = Some(pen);
                return Err(fault);
            }
        }
        if !pen.write(&Entry::Own(*act)) {
            return Err(Fault::Closed);
        }
        let mark = pen.mark();
        self.pen = Some(pen);
        Ok(mark)
    }

    /// Takes what came of the node's job, and writes that into its history. Refused as `LockedNode::finish_with` is, and with
    /// `Closed` where another hand wrote there.
    pub fn finish(&mut self, computed: &Computed<A>) -> Result<(), Fault>
        ensures { OnOk result (self.new ≡ record self.old { history = self.old.history ++ Own (Finish computed.now.job.place) ∷ [] }) }
    {
        let Some(mut pen) = self.pen.take() else {
            return Err(Fault::Closed);
        };
        match self.locked.finish_with(computed) {
            Ok(()) => {}
            Err(fault) => {
                self.pen = Some(pen);
                return Err(fault);
            }
        }
        if !pen.write(&Entry::Own(Act::Finish(computed.job.place))) {
            return Err(Fault::Closed);
        }
        self.pen = Some(pen);
        Ok(())
    }

    /// A packet comes that its sender sent under this name, and that is written into the history. Refused as `LockedNode::receive`
    /// is, and with `Closed` where another hand wrote there: the packet is handed back, unless it was written.
    pub fn receive(
        &mut self,
        name: PacketName,
        packet: Packet<A::Args, A::Row, A::Reply>,
    ) -> Result<(), (Fault, Option<Packet<A::Args, A::Row, A::Reply>>)>
        ensures { OnOk result (self.new ≡ record self.old { history = self.old.history ++ Came name packet ∷ [] }) }
    {
        let Some(mut pen) = self.pen.take() else {
            return Err((Fault::Closed, Some(packet)));
        };
        let at = self.locked.len();
        match self.locked.receive(name, packet) {
            Ok(()) => {}
            Err((fault, packet)) => {
                self.pen = Some(pen);
                return Err((fault, Some(packet)));
            }
        }
        let entries = self.locked.entries();
        if !pen.write(&entries[at]) {
            return Err((Fault::Closed, None));
        }
        self.pen = Some(pen);
        Ok(())
    }

    /// A request is submitted. Refused as `act` is.
    pub fn submit(&mut self, txn: Txn<A::Args>, app: &A) -> Result<WideTicket<A, J>, Fault>
        ensures { IfOk result (λ t. (t.node ≡ self.old.id) × (t.txn ≡ txn)) }
    {
        let node = self.locked.id();
        let entry = self.locked.len();
        let mark = self.act(&Act::Submit(txn), app)?;
        let entered = Entered { node, entry, txn };
        Ok(WideTicket { entered, mark })
    }

    /// The answer to a ticket's request that this node sent under a number. None where that packet isn't one, or the ticket's node
    /// is of another replica.
    pub fn answer(&self, ticket: &WideTicket<A, J>, number: usize) -> Option<WideAnswer<A, J>>
        ensures { IfSome result (λ a. a.ticket ≡ ticket.now) }
    {
        let Some(pen) = &self.pen else {
            return None;
        };
        let sender = self.locked.id();
        if sender.replica != ticket.entered.node.replica {
            return None;
        }
        let sent = self.locked.sent();
        let txn = &ticket.entered.txn;
        let (_place, answer) = reply_at(txn.id, txn.attempt, sent, number)?;
        let name = PacketName { sender, number };
        let replied = Replied {
            ticket: ticket.entered,
            name,
            answer,
        };
        let mark = pen.mark();
        Some(WideAnswer { replied, mark })
    }

    /// Ends the history, which gives a node's data. None where another hand wrote there.
    pub(crate) fn end(self) -> Option<Ended<A, J>>
        ensures lived { IfSome result (λ e. HasLife A.meaning J.config self.id e.0) }
        ensures ended { IfSome result (λ e. (e.0 ≡ self.history) × (e.1.1 ≡ self.history) × (self.id ≡ id_of J.config.partitions e.1.0)) }
    {
        let WideDesk { locked, pen } = self;
        let _node = locked.node();
        let history = locked.into_history();
        let Some(pen) = pen else {
            return None;
        };
        let Some(whole) = pen.end() else {
            return None;
        };
        Some((history, whole))
    }
}

/// A history that has ended.
pub(crate) type Ended<A, J> = (
    History<A>,
    Whole<Entry<<A as App>::Args, <A as App>::Row, <A as App>::Reply>, J>,
);
