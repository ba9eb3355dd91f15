//! Receipts: what they state is of the histories that the store leaves, whatever happens meanwhile.
ghost use Rattle.std.specs.Prelude.{◌≡◌};

use crate::founding::WideFounding;
use calvin_app::{Answer, App};
use calvin_chronicles::Mark;
use calvin_histories::Entry;
use calvin_types::{NodeId, Txn};
use calvin_world::PacketName;
use std::marker::Model;

/// A submission: the entry of its node's history, counted from 0, that submits a request.
#[derive(Clone, Copy)]
pub struct Entered<Args: Copy> {
    pub node: NodeId,
    pub entry: usize,
    pub txn: Txn<Args>,
}

/// An answer: the reply to a submission's request that a node sent under this name.
#[derive(Clone, Copy)]
pub struct Replied<Args: Copy, Reply: Copy> {
    pub ticket: Entered<Args>,
    pub name: PacketName,
    pub answer: Answer<Reply>,
}

/// A mark of a node's history.
pub(crate) type NodeMark<A, J> = Mark<
    Entry<<A as App>::Args, <A as App>::Row, <A as App>::Reply>,
    J,
>;

/// A receipt of a submission: this entry of its node's history submits this request.
#[derive(Drop)]
pub struct WideTicket<A: App, J: WideFounding> {
    pub(crate) entered: Entered<A::Args>,
    pub(crate) mark: Mark<Entry<A::Args, A::Row, A::Reply>, J>,
}

impl<A: App, J: WideFounding> Model for WideTicket<A, J> {
    ghost use Rattle.std.specs.Prelude.{◌≡◌};
    ghost use Rattle.calvin_histories.specs.Histories.{id_of};
    ghost use Rattle.calvin_wide_desk.specs.declared.receipt.Entered.{Entered};
    ghost use Rattle.calvin_wide_desk.specs.Receipts.{IsEntry};

    ghost Value = { Entered A.Args };

    ghost view = { λ t. t.entered };

    ghost invariant = { λ t. (t.entered.node ≡ id_of J.config.partitions t.mark.0) × IsEntry t.mark.1 t.entered };
}

impl<A: App, J: WideFounding> WideTicket<A, J> {
    /// The submission.
    pub fn entered(&self) -> &Entered<A::Args>
        ensures { result.now ≡ self.now }
    {
        &self.entered
    }
}

/// A receipt of an answer: the named node, of the replica of the submission's node, sent this answer to its request under this name.
#[derive(Drop)]
pub struct WideAnswer<A: App, J: WideFounding> {
    pub(crate) replied: Replied<A::Args, A::Reply>,
    pub(crate) mark: Mark<Entry<A::Args, A::Row, A::Reply>, J>,
}

impl<A: App, J: WideFounding> Model for WideAnswer<A, J> {
    ghost use Rattle.std.specs.Prelude.{◌≡◌};
    ghost use Rattle.calvin_histories.specs.Histories.{id_of};
    ghost use Rattle.calvin_wide_desk.specs.declared.receipt.Replied.{Replied};
    ghost use Rattle.calvin_wide_desk.specs.Receipts.{IsReply};

    ghost Value = { Replied A.Args A.Reply };

    ghost view = { λ a. a.replied };

    ghost invariant = { λ a. (a.replied.name.sender ≡ id_of J.config.partitions a.mark.0) × IsReply A.meaning J.config a.mark.1 a.replied };
}

impl<A: App, J: WideFounding> WideAnswer<A, J> {
    /// The reply, its name and its answer.
    pub fn replied(&self) -> &Replied<A::Args, A::Reply>
        ensures { result.now ≡ self.now }
    {
        &self.replied
    }
}
