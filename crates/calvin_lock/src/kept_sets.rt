//! The sets of an unreleased place.
ghost use Rattle.std.specs.Prelude.{◌≡◌, ◌+◌, ◌≤◌, ◌++◌, length, IsTrue, IsOk, IfOk, IsOkUnless};
ghost use Rattle.smallvec.specs.SmallVec.{HasRoomFor};
ghost use Rattle.calvin_types.specs.Keys.{has, rises};
ghost use Rattle.calvin_lock.specs.declared.kept_sets.TheConstants.{FEW_KEYS};

use calvin_types::{Fault, Key, KeySet};
use smallvec::SmallVec;
use std::alloc::Global;
use std::marker::Model;

/// How many keys stand in the value itself.
const FEW_KEYS: usize = 4;

/// A key that is kept, with a default for the places that aren't used. Contracts see the key.
#[derive(Clone, Copy, Drop)]
pub(crate) struct KeptKey {
    pub key: Key,
}

impl Model for KeptKey {
    ghost use Rattle.calvin_types.specs.declared.key.Key.{Key};

    ghost Value = { Key };

    ghost view = { λ k. k.key };

    ghost inverse = { λ k. record { key = k } };
}

impl Default for KeptKey {
    fn default() -> KeptKey {
        KeptKey {
            key: Key { table: 0, id: 0 },
        }
    }
}

/// The keys that a place reads, and behind them those that it writes: up to four in the value itself, and more in memory of
/// their own, in just the room that they take. Contracts see the two sets.
#[derive(Drop)]
pub(crate) struct KeptSets {
    keys: SmallVec<KeptKey, FEW_KEYS>,
    reads: usize,
}

impl Model for KeptSets {
    ghost use Rattle.std.specs.Prelude.{take, drop};
    ghost use Rattle.calvin_types.specs.declared.key_set.Sets.{Sets};
    ghost use Rattle.calvin_lock.specs.LocksCode.{coded_sets};
    ghost use Rattle.calvin_lock.specs.KeptSets.{AreSets};

    ghost Value = { Sets };

    ghost coded = { coded_sets };

    ghost view = { λ s. record { reads = take s.reads s.keys.items; writes = drop s.reads s.keys.items } };

    ghost invariant = { λ s. AreSets s.reads s.keys.items };
}

/// Puts the keys of a set at the end, for which there is room.
fn push_all(all: &mut SmallVec<KeptKey, FEW_KEYS>, keys: &KeySet)
    requires { HasRoomFor all.old (length keys.now) }
    ensures items { all.new.items ≡ all.old.items ++ keys.now }
    ensures capacity { all.new.capacity ≡ all.old.capacity }
{
    for i in 0..keys.len() {
        all.push_reserved(KeptKey { key: keys.at(i) });
    }
}

/// Whether a key is one of these.
pub(crate) fn has_key(keys: &[KeptKey], key: Key) -> bool
    ensures { result ≡ has keys.now key }
{
    for i in 0..keys.len() {
        let kept = keys[i];
        if kept.key == key {
            return true;
        }
    }
    false
}

impl KeptSets {
    /// These sets. Refused with `OutOfMemory` where they have more than four keys and there is no memory for them; a key that
    /// is read and written counts twice.
    pub(crate) fn new(alloc: Global, reads: &KeySet, writes: &KeySet) -> Result<KeptSets, Fault>
        ensures ok { IfOk result (λ s. s ≡ record { reads = reads.now; writes = writes.now }) }
        ensures only { IsOkUnless result Fault.OutOfMemory }
        ensures succeeds { length reads.now + length writes.now ≤ FEW_KEYS → IsOk result }
    {
        let mut keys = SmallVec::with_capacity(alloc, reads.len() + writes.len())?;
        push_all(&mut keys, reads);
        push_all(&mut keys, writes);
        Ok(KeptSets {
            keys,
            reads: reads.len(),
        })
    }

    /// The keys that are read.
    pub(crate) fn reads(&self) -> &[KeptKey]
        ensures keys { result.now ≡ self.now.reads }
        ensures rising { IsTrue (rises result.now) }
    {
        &self.keys.as_slice()[..self.reads]
    }

    /// The keys that are written.
    pub(crate) fn writes(&self) -> &[KeptKey]
        ensures keys { result.now ≡ self.now.writes }
        ensures rising { IsTrue (rises result.now) }
    {
        &self.keys.as_slice()[self.reads..]
    }
}
