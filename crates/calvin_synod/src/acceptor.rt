//! The acceptor of one replica: it promises and votes.
ghost use Rattle.std.specs.Prelude.{◌≡◌, true, false, None, IfOk, IsOk, OnOk, OnErr, IsOkUnless};
ghost use Rattle.std.specs.Option.{option_copied};
ghost use Rattle.std.specs.FinMap as map;
ghost use Rattle.calvin_synod.specs.Roles.{bars_prepare, bars_accept, promise_at, promised, voted};
ghost use Rattle.calvin_synod.specs.States.{unless};

use crate::by_slot::BySlot;
use crate::vote::{Recorded, Vote};
use calvin_types::{Ballot, Fault, Slot};
use std::alloc::Global;
use std::marker::Model;

/// What one replica promised and voted, by slot, which outlives a restart ("Paxos Made Simple", section 2.2: the
/// acceptor). `B` is the type of batches.
#[derive(Drop)]
pub struct Acceptor<B> {
    records: BySlot<Recorded<B>>,
    ready: bool,
}

impl<B> Model for Acceptor<B> {
    ghost use Rattle.std.specs.Prelude.{◌≡◌, ◌<◌, true};
    ghost use Rattle.calvin_synod.specs.States.{AcceptorState};
    ghost use Rattle.calvin_synod.specs.Codes.{coded_acceptor};

    ghost Value = { AcceptorState B };

    ghost coded = { coded_acceptor B.code };

    ghost view = { λ a. record { records = a.records.entries; ready = a.ready } };

    ghost invariant = { λ a. a.ready ≡ true → 0 < a.records.room };
}

impl<B: Drop> Acceptor<B> {
    /// An acceptor that has promised and voted nothing.
    pub fn new(alloc: Global) -> Acceptor<B>
        ensures { result ≡ record { records = map.empty; ready = false } }
    {
        Acceptor {
            records: BySlot::new(alloc),
            ready: false,
        }
    }

    /// What is recorded of a slot: its promise, and its vote, which a promise for it reports. There is nothing before
    /// the first of them.
    pub fn recorded(&self, slot: Slot) -> Option<&Recorded<B>>
        ensures { option_copied result ≡ map.get self.now.records slot }
    {
        self.records.get(slot)
    }

    /// Phase 1b: promises a ballot above every one promised for the slot, and answers nothing; the vote stays, and is
    /// what the promise reports. Where a promise that isn't less stands in the way, it is answered, and nothing changes.
    /// Refused with `OutOfMemory` where the slot's first record found no room.
    pub fn prepare(&mut self, slot: Slot, ballot: Ballot) -> Result<Option<Ballot>, Fault>
        ensures bar { IfOk result (λ bar. bar ≡ bars_prepare (promise_at self.old.records slot) ballot) }
        ensures promised { OnOk result (self.new ≡ unless (bars_prepare (promise_at self.old.records slot) ballot)
            (record { records = promised self.old.records slot ballot; ready = false }) self.old) }
        ensures err { OnErr result (self.new ≡ self.old) }
        ensures only { IsOkUnless result Fault.OutOfMemory }
        ensures first { OnErr result (map.get self.old.records slot ≡ None) }
        ensures succeeds { self.old.ready ≡ true → IsOk result }
    {
        if let Some(bar) = bar_to_prepare(self.promise(slot), ballot) {
            return Ok(Some(bar));
        }
        self.records.promise(slot, ballot)?;
        self.ready = false;
        Ok(None)
    }

    /// Makes room, so that `prepare`, made next, isn't refused. Refused with `OutOfMemory` where there is no room and a
    /// growth was refused.
    pub fn reserve_prepare(&mut self) -> Result<(), Fault>
        ensures ok { OnOk result (self.new ≡ record self.old { ready = true }) }
        ensures err { OnErr result (self.new ≡ self.old) }
        ensures only { IsOkUnless result Fault.OutOfMemory }
        ensures succeeds { self.old.ready ≡ true → IsOk result }
    {
        self.reserve()
    }

    /// Phase 2b: votes for a batch at a ballot, which it promises too, and answers nothing. Where a greater promise
    /// stands in the way, it is answered, and nothing changes: the batch is given up. Refused with `OutOfMemory` where
    /// the slot's first record found no room.
    pub fn accept(&mut self, slot: Slot, ballot: Ballot, batch: B) -> Result<Option<Ballot>, Fault>
        ensures bar { IfOk result (λ bar. bar ≡ bars_accept (promise_at self.old.records slot) ballot) }
        ensures voted { OnOk result (self.new ≡ unless (bars_accept (promise_at self.old.records slot) ballot)
            (record { records = voted self.old.records slot (record { ballot = ballot; batch = batch }); ready = false }) self.old) }
        ensures err { OnErr result (self.new ≡ self.old) }
        ensures only { IsOkUnless result Fault.OutOfMemory }
        ensures first { OnErr result (map.get self.old.records slot ≡ None) }
        ensures succeeds { self.old.ready ≡ true → IsOk result }
    {
        if let Some(bar) = bar_to_accept(self.promise(slot), ballot) {
            return Ok(Some(bar));
        }
        let vote = Some(Vote { ballot, batch });
        self.records.insert(
            slot,
            Recorded {
                promise: ballot,
                vote,
            },
        )?;
        self.ready = false;
        Ok(None)
    }

    /// Makes room, so that `accept`, made next, isn't refused. Refused with `OutOfMemory` where there is no room and a
    /// growth was refused.
    pub fn reserve_accept(&mut self) -> Result<(), Fault>
        ensures ok { OnOk result (self.new ≡ record self.old { ready = true }) }
        ensures err { OnErr result (self.new ≡ self.old) }
        ensures only { IsOkUnless result Fault.OutOfMemory }
        ensures succeeds { self.old.ready ≡ true → IsOk result }
    {
        self.reserve()
    }

    fn reserve(&mut self) -> Result<(), Fault>
        ensures ok { OnOk result (self.new ≡ record self.old { ready = true }) }
        ensures err { OnErr result (self.new ≡ self.old) }
        ensures only { IsOkUnless result Fault.OutOfMemory }
        ensures succeeds { self.old.ready ≡ true → IsOk result }
    {
        if !self.ready {
            self.records.reserve()?;
            self.ready = true;
        }
        Ok(())
    }

    fn promise(&self, slot: Slot) -> Option<Ballot>
        ensures { result ≡ promise_at self.now.records slot }
    {
        match self.records.get(slot) {
            Some(recorded) => Some(recorded.promise),
            None => None,
        }
    }
}

/// The promise that stands in the way of a prepare: one that isn't less.
fn bar_to_prepare(promise: Option<Ballot>, ballot: Ballot) -> Option<Ballot>
    ensures { result ≡ bars_prepare promise ballot }
{
    match promise {
        Some(promise) => if promise < ballot {
            None
        } else {
            Some(promise)
        },
        None => None,
    }
}

/// The promise that stands in the way of an accept: a greater one.
fn bar_to_accept(promise: Option<Ballot>, ballot: Ballot) -> Option<Ballot>
    ensures { result ≡ bars_accept promise ballot }
{
    match promise {
        Some(promise) => if ballot < promise {
            Some(promise)
        } else {
            None
        },
        None => None,
    }
}
