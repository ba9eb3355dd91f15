//! The queues of all keys.
ghost use Rattle.std.specs.Prelude.{◌≡◌, ◌+◌, ◌≤◌, ◌++◌, List, [], ◌∷◌, true, false, cond, None, OnOk, IsOkUnless, if◌then◌else◌};
ghost use Rattle.calvin_types.specs.declared.key.Key.{Key};
ghost use Rattle.calvin_types.specs.declared.place.Place.{Place};
ghost use Rattle.calvin_types.specs.declared.limits.TheConstants.{MOST_KEYS};
ghost use Rattle.calvin_types.specs.Keys.{has};
ghost use Rattle.calvin_types.specs.SameKeys.{equal_keys};
ghost use Rattle.calvin_lock.specs.declared.queue.Kind.{Kind};
ghost use Rattle.calvin_lock.specs.declared.queue.Ask.{Ask};
ghost use Rattle.calvin_lock.specs.Queues.{equal_places, is_of, ask_if, asked, waits_of, queue_at, AreQueuesOrEmpty, AreQueues, NoneIsNew, AllFit, HasRoomAt};

use crate::queue::{Ask, Kind, Queue};
use calvin_types::{Fault, Key, KeySet, Place};
use indexmap::IndexMap;
use indexmap::map::Entry;
use std::alloc::Global;

/// The queue of each key that is asked for. A queue is found in expected constant time; one that no place is in any more
/// is let go.
#[derive(Drop)]
pub(crate) struct Queues {
    pub(crate) alloc: Global,
    pub(crate) queues: IndexMap<Key, Queue>,
}

impl Queues {
    /// No queue.
    pub(crate) fn new(alloc: Global) -> Queues
        ensures { AreQueues (λ _. []) result.queues.entries }
    {
        Queues {
            alloc,
            queues: IndexMap::new(alloc),
        }
    }

    /// Makes room in the queue of a key for one more place, which asks so.
    fn reserve_key(&mut self, key: Key, kind: Kind) -> Result<(), Fault>
        ensures kept { (asks : Key → List Ask) → AreQueuesOrEmpty asks self.old.queues.entries → AreQueuesOrEmpty asks self.new.queues.entries }
        ensures waits { (q : Place) → waits_of q self.new.queues.entries ≡ waits_of q self.old.queues.entries }
        ensures room { (k : Key) (other : Kind) → HasRoomAt self.old.queues.entries k other → HasRoomAt self.new.queues.entries k other }
        ensures others { (k : Key) → equal_keys key k ≡ false → queue_at self.old.queues.entries k ≡ None → queue_at self.new.queues.entries k ≡ None }
        ensures ok { OnOk result (HasRoomAt self.new.queues.entries key kind) }
        ensures only { IsOkUnless result Fault.OutOfMemory }
    {
        match self.queues.entry(key)? {
            Entry::Occupied(entry) => entry.into_mut().reserve(kind),
            Entry::Vacant(entry) => {
                let mut queue = Queue::new(self.alloc);
                queue.reserve(kind)?;
                let _queue = entry.insert(queue);
                Ok(())
            }
        }
    }

    /// Makes room for one more place, which asks so for each of some keys but for others.
    pub(crate) fn reserve(
        &mut self,
        keys: &KeySet,
        except: &KeySet,
        kind: Kind,
    ) -> Result<(), Fault>
        ensures kept { (asks : Key → List Ask) → AreQueuesOrEmpty asks self.old.queues.entries → AreQueuesOrEmpty asks self.new.queues.entries }
        ensures waits { (q : Place) → waits_of q self.new.queues.entries ≡ waits_of q self.old.queues.entries }
        ensures room { (k : Key) (other : Kind) → HasRoomAt self.old.queues.entries k other → HasRoomAt self.new.queues.entries k other }
        ensures others { (k : Key) → asked keys.now except.now k ≡ false → queue_at self.old.queues.entries k ≡ None → queue_at self.new.queues.entries k ≡ None }
        ensures ok { OnOk result ((k : Key) → asked keys.now except.now k ≡ true → HasRoomAt self.new.queues.entries k kind) }
        ensures only { IsOkUnless result Fault.OutOfMemory }
    {
        for i in 0..keys.len() {
            let key = keys.at(i);
            if except.has(key) {
                continue;
            }
            self.reserve_key(key, kind)?;
        }
        Ok(())
    }

    /// Lets the queue of a key go where it is empty.
    fn drop_empty(&mut self, key: Key)
        ensures fits { AllFit self.old.queues.entries → AllFit self.new.queues.entries }
        ensures kept { (asks : Key → List Ask) → AreQueuesOrEmpty asks self.old.queues.entries → AreQueuesOrEmpty asks self.new.queues.entries }
        ensures waits { (asks : Key → List Ask) → AreQueuesOrEmpty asks self.old.queues.entries → (q : Place) → waits_of q self.new.queues.entries ≡ waits_of q self.old.queues.entries }
        ensures gone { (asks : Key → List Ask) → AreQueuesOrEmpty asks self.old.queues.entries → asks key ≡ [] → queue_at self.new.queues.entries key ≡ None }
        ensures none_new { NoneIsNew self.old.queues.entries self.new.queues.entries }
    {
        if let Some(queue) = self.queues.get(&key) {
            if queue.is_free() {
                let _queue = self.queues.swap_remove(&key);
            }
        }
    }

    /// Lets the queues of keys that are empty go.
    pub(crate) fn drop_all_empty(&mut self, keys: &KeySet)
        ensures kept { (asks : Key → List Ask) → AreQueuesOrEmpty asks self.old.queues.entries → AreQueuesOrEmpty asks self.new.queues.entries }
        ensures waits { (asks : Key → List Ask) → AreQueuesOrEmpty asks self.old.queues.entries → (q : Place) → waits_of q self.new.queues.entries ≡ waits_of q self.old.queues.entries }
        ensures gone { (asks : Key → List Ask) → AreQueuesOrEmpty asks self.old.queues.entries → (k : Key) → has keys.now k ≡ true → asks k ≡ [] → queue_at self.new.queues.entries k ≡ None }
        ensures none_new { NoneIsNew self.old.queues.entries self.new.queues.entries }
    {
        for i in 0..keys.len() {
            self.drop_empty(keys.at(i));
        }
    }

    /// Adds a place to the queue of a key, which has room for it, and says whether it holds the key at once.
    fn join_key(&mut self, key: Key, ask: Ask) -> bool
        requires { HasRoomAt self.old.queues.entries key ask.kind }
        ensures kept { (asks : Key → List Ask) → AreQueuesOrEmpty asks self.old.queues.entries → AreQueuesOrEmpty (λ k. cond (equal_keys key k) (asks k ++ ask ∷ []) (asks k)) self.new.queues.entries }
        ensures waits { (q : Place) → waits_of q self.new.queues.entries ≡ waits_of q self.old.queues.entries + (if result then 0 else is_of q ask) }
        ensures room { (k : Key) (other : Kind) → equal_keys key k ≡ false → HasRoomAt self.old.queues.entries k other → HasRoomAt self.new.queues.entries k other }
        ensures none_new { NoneIsNew self.old.queues.entries self.new.queues.entries }
    {
        match self.queues.get_mut(&key) {
            Some(queue) => queue.join(ask),
            None => true,
        }
    }

    /// Adds a place to the queues of some keys but for others, which have room for it, and says of how many it waits.
    pub(crate) fn join(&mut self, place: Place, keys: &KeySet, except: &KeySet, kind: Kind) -> usize
        requires { (k : Key) → asked keys.now except.now k ≡ true → HasRoomAt self.old.queues.entries k kind }
        ensures kept { (asks : Key → List Ask) → AreQueuesOrEmpty asks self.old.queues.entries
            → AreQueuesOrEmpty (λ k. asks k ++ ask_if place kind (asked keys.now except.now k)) self.new.queues.entries }
        ensures waits { (q : Place) → waits_of q self.new.queues.entries ≡ waits_of q self.old.queues.entries + (if equal_places q place then result else 0) }
        ensures room { (k : Key) (other : Kind) → asked keys.now except.now k ≡ false → HasRoomAt self.old.queues.entries k other → HasRoomAt self.new.queues.entries k other }
        ensures none_new { NoneIsNew self.old.queues.entries self.new.queues.entries }
        ensures few { result ≤ MOST_KEYS }
    {
        let mut waits = 0;
        for i in 0..keys.len() {
            let key = keys.at(i);
            if except.has(key) {
                continue;
            }
            if !self.join_key(key, Ask { place, kind }) {
                waits += 1;
            }
        }
        waits
    }
}
