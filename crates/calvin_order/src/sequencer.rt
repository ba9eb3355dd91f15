//! The sequencer of one node.
ghost use Rattle.std.specs.Prelude.{◌≡◌, ℕ, ◌^◌, ◌<◌, ◌≤◌, true, false, not, length, IfOk, OnOk, OnErr, IsOk, IsOkUnless, MatchOption};
ghost use Rattle.std.specs.Option.{option_copied, unwrap_or};
ghost use Rattle.calvin_types.specs.declared.limits.TheConstants.{MOST_EPOCHS, MOST_REQUESTS, MOST_UNDECIDED};
ghost use Rattle.calvin_types.specs.Deeds.{Does, Did};
ghost use Rattle.calvin_order.specs.Keeping.{deed_of, can_submit, can_submit_cold, can_close, can_decide, KeepsRoom};
ghost use Rattle.calvin_order.specs.Sequencing as sequencing;

use crate::held_back::{ColdRequest, join_ripe};
use crate::history::History;
use crate::queue::{drop_first, first_batch, put_back};
use calvin_types::{Batch, Fault, MOST_EPOCHS, MOST_UNDECIDED, Txn};
use std::alloc::Global;
use std::collections::VecDeque;
use std::marker::Model;

/// The requests that reached a node, in order, until their batches are decided (Thomson et al. 2012, section 3.1: all
/// requests that reach a sequencer in one epoch are one batch; section 4: a request that may touch cold rows is held back,
/// so that they can be warmed before it runs).
#[derive(Drop)]
pub struct Sequencer<Args> {
    alloc: Global,
    delay: u8,
    queue: VecDeque<Txn<Args>>,
    // each has room in the queue
    held_back: VecDeque<ColdRequest<Args>>,
    history: History<Args>,
    // the batch of the queue's front, once it is made ready
    ready: Option<Batch<Args>>,
}

impl<Args> Model for Sequencer<Args> {
    ghost use Rattle.std.specs.Prelude.{◌+◌, ◌-◌, ◌≤◌, is_some};
    ghost use Rattle.std.specs.VecDeque.{deque_len, deque_capacity};
    ghost use Rattle.std.specs.Coded.{codes};
    ghost use Rattle.std.specs.FinMap.{code};
    ghost use Rattle.calvin_order.specs.Keeping as keeping;

    ghost Value = { keeping.Sequenced Args };

    ghost coded = { Prim.hlevel (codes, code) };

    ghost view = { λ s. record {
      sequencing = keeping.sequencing_of s.history.state s.queue.items s.held_back.items;
      delay = s.delay;
      queue_room = deque_capacity s.queue - (deque_len s.queue + deque_len s.held_back);
      held_room = deque_capacity s.held_back - deque_len s.held_back;
      closed_room = s.history.closed_room;
      decided_room = s.history.decided_room;
      is_ready = is_some s.ready;
    } };

    ghost invariant = { λ s. keeping.IsSequenced s.history.state s.queue.items s.held_back.items s.ready × (deque_len s.queue + deque_len s.held_back ≤ deque_capacity s.queue) };
}

impl<Args: Copy> Sequencer<Args> {
    /// Nothing is queued, held back, closed or decided, and epoch 0 is next. A request that may touch cold rows is held back
    /// for `delay` closings.
    pub fn new(alloc: Global, delay: u8) -> Sequencer<Args>
        ensures sequencing { result.sequencing ≡ sequencing.sequencing_from 0 }
        ensures delay { result.delay ≡ delay }
    {
        Sequencer::from_epoch(alloc, delay, Some(0))
    }

    /// A sequencer that goes on after what was restored: nothing is queued, held back, closed or decided, and `first` is
    /// next. No epoch is left where it is none, as after epoch 2^64 - 1. A request that may touch cold rows is held back
    /// for `delay` closings.
    pub fn from_epoch(alloc: Global, delay: u8, first: Option<u64>) -> Sequencer<Args>
        ensures sequencing { result.sequencing ≡ sequencing.sequencing_from (unwrap_or first (2 ^ 64)) }
        ensures delay { result.delay ≡ delay }
    {
        Sequencer {
            alloc,
            delay,
            queue: VecDeque::new(alloc),
            held_back: VecDeque::new(alloc),
            history: History::new(alloc, first),
            ready: None,
        }
    }

    /// After how many closings a request that is held back joins the queue.
    pub fn delay(&self) -> u8
        ensures { result ≡ self.now.delay }
    {
        self.delay
    }

    /// The least epoch, from the first one on, that is neither closed here nor known as decided. There is none where all
    /// up to 2^64 - 1 are. It takes constant time.
    pub fn next_epoch(&self) -> Option<u64>
        ensures next { MatchOption result (sequencing.next_epoch self.now.sequencing ≡ 2 ^ 64) (λ epoch. epoch ≡ sequencing.next_epoch self.now.sequencing) }
        ensures unused { sequencing.is_used self.now.sequencing (sequencing.next_epoch self.now.sequencing) ≡ false }
        ensures least { (e : ℕ) → self.now.sequencing.opening ≤ e → e < sequencing.next_epoch self.now.sequencing → sequencing.is_used self.now.sequencing e ≡ true }
    {
        self.history.next()
    }

    /// The batch that was closed here for an epoch, also once it is decided.
    pub fn closed(&self, epoch: u64) -> Option<&Batch<Args>>
        ensures { option_copied result ≡ sequencing.closed_in self.now.sequencing.closed epoch }
    {
        self.history.closed(epoch)
    }

    /// How many requests are queued.
    pub fn queued(&self) -> usize
        ensures { result ≡ length self.now.sequencing.queue }
    {
        self.queue.len()
    }

    /// How many requests are held back.
    pub fn held_back(&self) -> usize
        ensures { result ≡ length self.now.sequencing.held_back }
    {
        self.held_back.len()
    }

    /// How many requests are queued, held back, or closed and undecided.
    fn load(&self) -> usize
        ensures { result ≡ sequencing.load self.now.sequencing }
    {
        self.history.undecided() + self.queue.len() + self.held_back.len()
    }

    /// Refuses where `submit` and `submit_cold` refuse a request for another cause than memory.
    pub fn check_submit(&self, txn: &Txn<Args>) -> Result<(), Fault>
        ensures deed { (next : sequencing.Sequencing Args) → sequencing.submit_to txn.now self.now.sequencing next ≡ deed_of result next }
        ensures few { OnOk result (sequencing.load self.now.sequencing < MOST_UNDECIDED) }
    {
        if self.load() >= MOST_UNDECIDED {
            return Err(Fault::QueueFull);
        }
        if !txn.has_key() {
            return Err(Fault::EmptySets);
        }
        if !txn.is_in_time() {
            return Err(Fault::TooManyAttempts);
        }
        Ok(())
    }

    /// Room for so many more requests in the queue, beside those that are held back.
    fn reserve_queue(&mut self, requests: usize) -> Result<(), Fault>
        requires few { requests ≤ MOST_REQUESTS }
        ensures ok { OnOk result (requests ≤ self.new.queue_room) }
        ensures same { self.new ≡ record self.old { queue_room = self.new.queue_room } }
        ensures kept { self.old.queue_room ≤ self.new.queue_room }
        ensures only { IsOkUnless result Fault.OutOfMemory }
        ensures succeeds { requests ≤ self.old.queue_room → IsOk result }
    {
        self.queue.reserve(self.held_back.len() + requests)?;
        Ok(())
    }

    /// A request joins the queue's end. Refused with `QueueFull` where 4,096 requests are queued, held back, or closed and
    /// undecided, with `EmptySets` where it declares no key, with `TooManyAttempts` where its attempt isn't 1 to 8, else with
    /// `OutOfMemory` where a growth was refused.
    pub fn submit(&mut self, txn: Txn<Args>) -> Result<(), Fault>
        ensures did { Did (not (can_submit self.old)) result (sequencing.submit txn self.old.sequencing) self.old.sequencing self.new.sequencing }
        ensures delay { self.new.delay ≡ self.old.delay }
        ensures room { OnErr result (KeepsRoom self.old self.new) }
    {
        self.check_submit(&txn)?;
        self.reserve_submit()?;
        self.queue.push_back_reserved(txn);
        self.ready = None;
        Ok(())
    }

    /// Makes room, so that `submit`, made next, isn't refused with `OutOfMemory`. Refused with that where a growth was
    /// refused.
    pub fn reserve_submit(&mut self) -> Result<(), Fault>
        ensures ok { OnOk result (can_submit self.new ≡ true) }
        ensures same { self.new ≡ record self.old { queue_room = self.new.queue_room } }
        ensures kept { self.old.queue_room ≤ self.new.queue_room }
        ensures only { IsOkUnless result Fault.OutOfMemory }
        ensures succeeds { can_submit self.old ≡ true → IsOk result }
    {
        self.reserve_queue(1)
    }

    /// A request that may touch cold rows is held back, and joins the queue's end once `delay` batches were closed after it
    /// was submitted: at once where the delay is 0, and else after the last of them has taken its requests. Those that join
    /// together do so in the order of submission. Refused as `submit` is.
    pub fn submit_cold(&mut self, txn: Txn<Args>) -> Result<(), Fault>
        ensures did { Did (not (can_submit_cold self.old)) result (sequencing.submit_cold self.old.delay txn self.old.sequencing) self.old.sequencing self.new.sequencing }
        ensures delay { self.new.delay ≡ self.old.delay }
        ensures room { OnErr result (KeepsRoom self.old self.new) }
    {
        self.check_submit(&txn)?;
        self.reserve_submit_cold()?;
        let since = self.history.closings();
        self.held_back
            .push_back_reserved(ColdRequest { txn, since });
        join_ripe(&mut self.queue, &mut self.held_back, self.delay, since);
        self.ready = None;
        Ok(())
    }

    /// Makes room, so that `submit_cold`, made next, isn't refused with `OutOfMemory`. Refused with that where a growth was
    /// refused.
    pub fn reserve_submit_cold(&mut self) -> Result<(), Fault>
        ensures ok { OnOk result (can_submit_cold self.new ≡ true) }
        ensures same { self.new ≡ record self.old { queue_room = self.new.queue_room; held_room = self.new.held_room } }
        ensures queue { self.old.queue_room ≤ self.new.queue_room }
        ensures held { self.old.held_room ≤ self.new.held_room }
        ensures only { IsOkUnless result Fault.OutOfMemory }
        ensures succeeds { can_submit_cold self.old ≡ true → IsOk result }
    {
        self.reserve_queue(1)?;
        self.held_back.reserve(1)?;
        Ok(())
    }

    /// The epoch that is closed next. Refused with `EpochsSpent` where it is past the last one.
    fn epoch_to_close(&self) -> Result<u64, Fault>
        ensures ok { IfOk result (λ e. (e ≡ sequencing.next_epoch self.now.sequencing) × (e < MOST_EPOCHS)) }
        ensures spent { OnErr result (MOST_EPOCHS ≤ sequencing.next_epoch self.now.sequencing) }
        ensures only { IsOkUnless result Fault.EpochsSpent }
    {
        match self.next_epoch() {
            Some(epoch) if epoch < MOST_EPOCHS => Ok(epoch),
            _ => Err(Fault::EpochsSpent),
        }
    }

    /// Closes the batch of the next epoch, which is told: the requests at the queue's front, 256 or all if there are fewer.
    /// Then each request that is held back has seen one closing more, and those that have seen enough join the queue's end.
    /// Refused with `EpochsSpent` where that epoch is 2^48 or more, else with `OutOfMemory` where a growth was refused.
    pub fn close(&mut self) -> Result<u64, Fault>
        ensures did { Did (not (can_close self.old)) result (sequencing.close self.old.delay self.old.sequencing) self.old.sequencing self.new.sequencing }
        ensures delay { self.new.delay ≡ self.old.delay }
        ensures room { OnErr result (KeepsRoom self.old self.new) }
    {
        let epoch = self.epoch_to_close()?;
        self.reserve_close()?;
        let Some(batch) = self.ready.take() else {
            return Err(Fault::EpochsSpent);
        };
        drop_first(&mut self.queue, batch.len());
        self.history.close(epoch, batch);
        let closings = self.history.closings();
        join_ripe(&mut self.queue, &mut self.held_back, self.delay, closings);
        Ok(epoch)
    }

    /// Makes the next batch ready, and room for it, so that `close`, made next, isn't refused with `OutOfMemory`. Refused
    /// with that where a growth was refused.
    pub fn reserve_close(&mut self) -> Result<(), Fault>
        ensures ok { OnOk result (can_close self.new ≡ true) }
        ensures same { self.new ≡ record self.old { closed_room = self.new.closed_room; is_ready = self.new.is_ready } }
        ensures closed { self.old.closed_room ≤ self.new.closed_room }
        ensures ready { self.old.is_ready ≡ true → self.new.is_ready ≡ true }
        ensures only { IsOkUnless result Fault.OutOfMemory }
        ensures succeeds { can_close self.old ≡ true → IsOk result }
    {
        self.history.reserve_closed()?;
        if self.ready.is_none() {
            self.ready = Some(first_batch(&self.queue, self.alloc)?);
        }
        Ok(())
    }

    /// The batch of an epoch is known as decided: the requests closed here for it that aren't in it, by id and attempt,
    /// stand at the queue's front again, in their order. Where that is known already nothing changes, and no memory is
    /// needed. Else refused with `OutOfMemory` where a growth was refused.
    pub fn decided(&mut self, epoch: u64, batch: &Batch<Args>) -> Result<(), Fault>
        ensures did { Did (not (can_decide self.old epoch)) result (Does (sequencing.decide epoch batch.now self.old.sequencing) tt) self.old.sequencing self.new.sequencing }
        ensures delay { self.new.delay ≡ self.old.delay }
        ensures room { OnErr result (KeepsRoom self.old self.new) }
    {
        if self.history.is_decided(epoch) {
            return Ok(());
        }
        self.reserve_decided(epoch)?;
        put_back(&mut self.queue, self.history.closed(epoch), batch);
        self.history.decide(epoch);
        self.ready = None;
        Ok(())
    }

    /// Makes room, so that `decided`, made next for this epoch, isn't refused. Refused with `OutOfMemory` where a growth was
    /// refused.
    pub fn reserve_decided(&mut self, epoch: u64) -> Result<(), Fault>
        ensures ok { OnOk result (can_decide self.new epoch ≡ true) }
        ensures same { self.new ≡ record self.old { queue_room = self.new.queue_room; decided_room = self.new.decided_room } }
        ensures queue { self.old.queue_room ≤ self.new.queue_room }
        ensures decided { self.old.decided_room ≤ self.new.decided_room }
        ensures only { IsOkUnless result Fault.OutOfMemory }
        ensures succeeds { can_decide self.old epoch ≡ true → IsOk result }
    {
        if self.history.is_decided(epoch) {
            return Ok(());
        }
        self.history.reserve_decided()?;
        let closed = self.history.closed_len(epoch);
        self.reserve_queue(closed)
    }
}
