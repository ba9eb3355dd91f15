//! What the store leaves.
ghost use Rattle.std.specs.Prelude.{◌≡◌, List, length, Some, slice_get, IsOkUnless};
ghost use mathlib.Core.List.{IsPrefix};
ghost use Rattle.calvin_histories.specs.declared.entry.Entry.{Entry};
ghost use Rattle.calvin_wide_desk.specs.Receipts.{IsEnteredIn, IsRepliedIn};
ghost use Rattle.calvin_wide_desk.specs.Stopping.{BeginWith, HaveLived};

use crate::desk::WideDesk;
use crate::founding::{Marks, WideFounding};
use crate::receipt::{WideAnswer, WideTicket};
use calvin_app::App;
use calvin_chronicles::{Mark, Whole};
use calvin_histories::{Entry, History};
use calvin_lock::Locks;
use calvin_store::Rows;
use calvin_types::Fault;
use std::alloc::Global;
use std::marker::Model;

/// The histories that a store leaves which has a lock for each node, replica by replica; they have ended. To a contract it is these.
#[derive(Drop)]
pub struct WideStopped<A: App, J: WideFounding> {
    histories: Vec<History<A>>,
    wholes: Vec<Whole<Entry<A::Args, A::Row, A::Reply>, J>>,
}

impl<A: App, J: WideFounding> Model for WideStopped<A, J> {
    ghost use Rattle.std.specs.Prelude.{◌≡◌, List, length};
    ghost use Rattle.std.specs.Coded.{codes};
    ghost use Rattle.std.specs.FinMap.{code};
    ghost use Rattle.calvin_histories.specs.declared.entry.Entry.{Entry};
    ghost use Rattle.calvin_wide_desk.specs.Stopping.{numbered, HaveLived};

    ghost Value = { List (List (Entry A.Args A.Row A.Reply)) };

    ghost coded = { Prim.hlevel (codes, code) };

    ghost view = { λ s. s.histories.items };

    ghost invariant = { λ s. (s.wholes.items ≡ numbered 0 s.histories.items) × (length s.histories.items ≡ J.nodes) × HaveLived A.meaning J.config s.histories.items };
}

impl<A: App, J: WideFounding> WideStopped<A, J> {
    /// The histories, replica by replica, one for each node.
    pub fn histories(&self) -> &[History<A>]
        ensures these { result.now ≡ self.now }
        ensures number { length result.now ≡ J.nodes }
    {
        self.histories.as_slice()
    }

    /// The histories alone.
    pub fn into_histories(self) -> Vec<History<A>>
        ensures { result.items ≡ self }
    {
        let WideStopped { histories, .. } = self;
        histories
    }

    /// What was marked are beginnings of the histories.
    pub fn begins(&self, marks: &Marks<A, J>)
        ensures { BeginWith marks.now.items self.now }
    {
        for mark in marks {
            self.begins_with(mark);
        }
    }

    /// What was marked is a beginning of its node's history. Each history gives a node's data.
    fn begins_with(&self, mark: &Mark<Entry<A::Args, A::Row, A::Reply>, J>)
        ensures lived { HaveLived A.meaning J.config self.now }
        ensures begins { (history : List (Entry A.Args A.Row A.Reply)) × (slice_get self.now mark.now.0 ≡ Some history) × IsPrefix mark.now.1 history }
    {
        let whole = &self.wholes[mark.node() as usize];
        whole.covers(mark);
    }

    /// What a ticket of this store states holds of the histories.
    pub fn ticket(&self, ticket: &WideTicket<A, J>)
        ensures { IsEnteredIn J.config.partitions self.now ticket.now }
    {
        self.begins_with(&ticket.mark);
    }

    /// What an answer of this store states holds of the histories.
    pub fn answer(&self, answer: &WideAnswer<A, J>)
        ensures { IsRepliedIn A.meaning J.config self.now answer.now }
    {
        self.begins_with(&answer.mark);
    }
}

/// Room for what so many nodes leave. It is taken when their store opens, so that its end wants no memory.
#[derive(Drop)]
pub struct Room<A: App, J: WideFounding> {
    nodes: usize,
    histories: Vec<History<A>>,
    wholes: Vec<Whole<Entry<A::Args, A::Row, A::Reply>, J>>,
    ghost all: { nodes ≡ J.nodes },
}

impl<A: App + Drop, J: WideFounding> Room<A, J> {
    /// Room for so many. Refused with `OutOfMemory` alone.
    pub fn new(alloc: Global, nodes: usize) -> Result<Room<A, J>, Fault>
        requires { nodes ≡ J.nodes }
        ensures only { IsOkUnless result Fault.OutOfMemory }
    {
        Ok(Room {
            nodes,
            histories: Vec::with_capacity(alloc, nodes)?,
            wholes: Vec::with_capacity(alloc, nodes)?,
        })
    }

    /// Ends the histories of all nodes. Refused with `NotEnded` where they aren't all there, in their order, or another hand wrote
    /// into one: which doesn't come.
    pub fn end_all<L: Locks + Drop, S: Rows<A::Row> + Drop>(
        self,
        desks: Vec<WideDesk<A, L, S, J>>,
    ) -> Result<WideStopped<A, J>, Fault>
        ensures only { IsOkUnless result Fault.NotEnded }
    {
        let Room {
            nodes,
            mut histories,
            mut wholes,
        } = self;
        histories.clear();
        wholes.clear();
        for desk in desks {
            let Some((history, whole)) = desk.end() else {
                return Err(Fault::NotEnded);
            };
            if whole.node() as usize != histories.len() {
                return Err(Fault::NotEnded);
            }
            if histories.push(history).is_err() || wholes.push(whole).is_err() {
                return Err(Fault::NotEnded);
            }
        }
        if histories.len() != nodes {
            return Err(Fault::NotEnded);
        }
        Ok(WideStopped { histories, wholes })
    }
}
