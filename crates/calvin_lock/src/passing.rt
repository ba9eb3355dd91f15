//! Keys that are passed on by a place that is released.
ghost use Rattle.std.specs.Prelude.{◌≡◌, ◌+◌, List, [], true, cond, ℕ, IsTrue, None};
ghost use Rattle.std.specs.Option.{option_map};
ghost use Rattle.calvin_types.specs.declared.key.Key.{Key};
ghost use Rattle.calvin_types.specs.declared.place.Place.{Place};
ghost use Rattle.calvin_types.specs.Keys.{rises};
ghost use Rattle.calvin_lock.specs.declared.queue.Ask.{Ask};
ghost use Rattle.calvin_lock.specs.Queues.{Fits, IsQueueOf, IsSettled, waits_in, waits_of, asked, queue_at, AreQueuesOrEmpty, AreQueues, NoneIsEmpty, NoneIsNew, AllFit, Leaves, LeavesAt};
ghost use Rattle.calvin_lock.specs.Unreleased.{IsUnreleased, WaitsFor, pending_at};

use crate::kept_sets::{KeptKey, has_key};
use crate::queue::Queue;
use crate::queues::Queues;
use crate::unreleased::Unreleased;
use calvin_types::Key;

/// Lets those who wait first hold the key of a queue, as far as they may.
fn settle(queue: &mut Queue, unreleased: &mut Unreleased)
    requires kept { IsUnreleased unreleased.old }
    requires fits { Fits queue.old }
    ensures kept { IsUnreleased unreleased.new }
    ensures fits { Fits queue.new }
    ensures queue { (asks : List Ask) → IsQueueOf asks queue.old.holders queue.old.waiting.items → IsQueueOf asks queue.new.holders queue.new.waiting.items }
    ensures settled { IsSettled queue.new.holders queue.new.waiting.items }
    ensures sets { (q : Place) → option_map (λ p. p.sets) (pending_at unreleased.new.places.entries q) ≡ option_map (λ p. p.sets) (pending_at unreleased.old.places.entries q) }
    ensures order { unreleased.new.order.items ≡ unreleased.old.order.items }
    ensures waits { (more : Place → ℕ) → WaitsFor (λ q. more q + waits_in q queue.old.waiting.items) unreleased.old.places.entries
        → WaitsFor (λ q. more q + waits_in q queue.new.waiting.items) unreleased.new.places.entries }
{
    while let Some(place) = queue.grant_next() {
        unreleased.grant(place);
    }
}

impl Queues {
    /// One that holds a key leaves its queue, and those who wait first hold it, as far as they may. A queue that no place is
    /// in any more is let go.
    fn pass_on(&mut self, unreleased: &mut Unreleased, key: Key)
        requires kept { IsUnreleased unreleased.old }
        requires fits { AllFit self.old.queues.entries }
        ensures kept { IsUnreleased unreleased.new }
        ensures fits { AllFit self.new.queues.entries }
        ensures sets { (q : Place) → option_map (λ p. p.sets) (pending_at unreleased.new.places.entries q) ≡ option_map (λ p. p.sets) (pending_at unreleased.old.places.entries q) }
        ensures order { unreleased.new.order.items ≡ unreleased.old.order.items }
        ensures queues { (before after : Key → List Ask) → AreQueuesOrEmpty before self.old.queues.entries → LeavesAt key before after → AreQueuesOrEmpty after self.new.queues.entries }
        ensures gone { (before after : Key → List Ask) → AreQueuesOrEmpty before self.old.queues.entries → LeavesAt key before after → after key ≡ [] → queue_at self.new.queues.entries key ≡ None }
        ensures none_new { NoneIsNew self.old.queues.entries self.new.queues.entries }
        ensures waits { WaitsFor (λ q. waits_of q self.old.queues.entries) unreleased.old.places.entries → WaitsFor (λ q. waits_of q self.new.queues.entries) unreleased.new.places.entries }
    {
        let Some(at) = self.queues.get_index_of(&key) else {
            return;
        };
        let (_, queue) = self.queues.pair_mut(at);
        queue.leave();
        settle(queue, unreleased);
        if queue.is_free() {
            let _queue = self.queues.swap_remove_index(at);
        }
    }

    /// A place that holds some keys but for others leaves their queues, and those who wait first hold them, as far as they
    /// may.
    pub(crate) fn leave(
        &mut self,
        unreleased: &mut Unreleased,
        keys: &[KeptKey],
        except: &[KeptKey],
    )
        requires kept { IsUnreleased unreleased.old }
        requires fits { AllFit self.old.queues.entries }
        requires rising { IsTrue (rises keys.now) }
        ensures kept { IsUnreleased unreleased.new }
        ensures fits { AllFit self.new.queues.entries }
        ensures sets { (q : Place) → option_map (λ p. p.sets) (pending_at unreleased.new.places.entries q) ≡ option_map (λ p. p.sets) (pending_at unreleased.old.places.entries q) }
        ensures order { unreleased.new.order.items ≡ unreleased.old.order.items }
        ensures queues { (before after : Key → List Ask) → AreQueuesOrEmpty before self.old.queues.entries
            → ((k : Key) → asked keys.now except.now k ≡ true → Leaves (before k) (after k))
            → AreQueuesOrEmpty (λ k. cond (asked keys.now except.now k) (after k) (before k)) self.new.queues.entries }
        ensures nobody { (before after : Key → List Ask) → AreQueues before self.old.queues.entries
            → ((k : Key) → asked keys.now except.now k ≡ true → Leaves (before k) (after k))
            → NoneIsEmpty (λ k. cond (asked keys.now except.now k) (after k) (before k)) self.new.queues.entries }
        ensures waits { (before after : Key → List Ask) → AreQueuesOrEmpty before self.old.queues.entries
            → ((k : Key) → asked keys.now except.now k ≡ true → Leaves (before k) (after k))
            → WaitsFor (λ q. waits_of q self.old.queues.entries) unreleased.old.places.entries
            → WaitsFor (λ q. waits_of q self.new.queues.entries) unreleased.new.places.entries }
    {
        for i in 0..keys.len() {
            let kept = keys[i];
            let key = kept.key;
            if has_key(except, key) {
                continue;
            }
            self.pass_on(unreleased, key);
        }
    }
}
