//! What a keeper of rows is.
ghost use Rattle.std.specs.Prelude.{◌≡◌, ◌+◌, ◌-◌, ◌≤◌, ◌++◌, ℕ, Bool, false, None, length, IfOk, IsOk, OnOk, OnErr, IsOkUnless};
ghost use Rattle.std.specs.FinMap as map;
ghost use Rattle.calvin_types.specs.Deeds.{Did};
ghost use Rattle.calvin_app.specs.Stores.{Store, loaded, put_at, is_hot, warmed};
ghost use Rattle.calvin_store.specs.Points.{mark_at, cool_key, rows_of, warm_grows, IsMarked};

use crate::snapshot::Snapshot;
use calvin_app::Writes;
use calvin_types::{Fault, Key, Place, Sets};
use std::alloc::Global;

/// Keeps the rows of one partition (Thomson et al. 2012, section 3: any storage that reads and writes single rows can
/// stand below the scheduler). Contracts see them as a store, and beside it the room: how many rows can be put before
/// memory has to be taken.
///
/// Who writes makes room for as many rows as are written, whether their keys have a row or not. A keeper may need memory
/// for a key that has one too: for a second version of it beside the one that an open point keeps, or where its row was
/// cold and is in memory from now on. So room is asked for all writes, and there is at least that much less of it after
/// them.
pub trait Rows<Row: Copy> {
    /// What is kept: the rows by key, and what an open point and cold keys add to them.
    ghost store: { Self → Store Row };

    /// How many rows can be put without growing.
    ghost room: { Self → ℕ };

    /// Whether points of consistency can be opened (section 5).
    ghost points: { Bool };

    /// Whether there is a cold table (section 4).
    ghost cold: { Bool };

    /// No rows, and no room.
    fn empty(alloc: Global) -> Self
        ensures store { store result ≡ loaded map.empty }
        ensures room { room result ≡ 0 };

    /// How many keys have a row.
    fn len(&self) -> usize
        ensures { result ≡ map.len (store self.now).map };

    /// The row of a key, if it has one.
    fn get(&self, key: &Key) -> Option<Row>
        ensures { result ≡ map.get (store self.now).map key.now };

    /// How many rows can be put without growing.
    fn room(&self) -> usize
        ensures { result ≡ room self.now };

    /// Makes room for `n` rows at least. Refused with `OutOfMemory` where there is less room and a growth was refused.
    fn reserve(&mut self, n: usize) -> Result<(), Fault>
        ensures store { store self.new ≡ store self.old }
        ensures ok { OnOk result (n ≤ room self.new) }
        ensures room { room self.old ≤ room self.new }
        ensures only { IsOkUnless result Fault.OutOfMemory }
        ensures succeeds { n ≤ room self.old → IsOk result };

    /// Puts what the request at a place wrote. There is room for each of the writes. Takes no memory.
    fn put_all(&mut self, place: Place, writes: &Writes<Row>)
        requires { length writes.now ≤ room self.old }
        ensures store { store self.new ≡ put_at place writes.now (store self.old) }
        ensures room { room self.old - length writes.now ≤ room self.new };

    /// All rows as they are now. Refused with `OutOfMemory` where a growth was refused.
    fn snapshot(&self) -> Result<Snapshot<Row>, Fault>
        ensures ok { IfOk result (λ s. s ≡ (store self.now).map) }
        ensures only { IsOkUnless result Fault.OutOfMemory };

    /// Replaces all that is kept by the rows of a snapshot; there is no less room. Refused with `OutOfMemory` where a
    /// growth was refused.
    fn load(&mut self, snapshot: &Snapshot<Row>) -> Result<(), Fault>
        ensures ok { OnOk result (store self.new ≡ loaded snapshot.now) }
        ensures err { OnErr result (store self.new ≡ store self.old) }
        ensures room { room self.old ≤ room self.new }
        ensures only { IsOkUnless result Fault.OutOfMemory };

    /// Opens a point at the end of an epoch: from now on the rows that requests up to it leave are kept beside the present
    /// ones. Refused with `PointOpen` where one is open, and with `NoPoints` where the keeper has none. Takes no memory.
    fn mark(&mut self, epoch: u64) -> Result<(), Fault>
        ensures did { Did false result (mark_at points (record { epoch = epoch + 1; n = 0 }) (store self.old)) (store self.old) (store self.new) }
        ensures room { room self.old ≤ room self.new };

    /// The epoch at whose end the open point is, if one is open.
    fn marked(&self) -> Option<u64>
        ensures { IsMarked (store self.now).point result };

    /// The rows of the open point; no rows where none is open. Refused with `OutOfMemory` where one is open and a growth was
    /// refused.
    fn point(&self) -> Result<Snapshot<Row>, Fault>
        ensures ok { IfOk result (λ s. s ≡ rows_of (store self.now).point) }
        ensures only { IsOkUnless result Fault.OutOfMemory }
        ensures succeeds { (store self.now).point ≡ None → IsOk result };

    /// Closes the open point; the present rows stay. Refused with `OutOfMemory` where one is open and a growth was refused.
    fn close_point(&mut self) -> Result<(), Fault>
        ensures ok { OnOk result (store self.new ≡ record (store self.old) { point = None }) }
        ensures err { OnErr result (store self.new ≡ store self.old) }
        ensures room { room self.old ≤ room self.new }
        ensures only { IsOkUnless result Fault.OutOfMemory }
        ensures succeeds { (store self.old).point ≡ None → IsOk result };

    /// Whether a key has a row that isn't cold.
    fn is_hot(&self, key: &Key) -> bool
        ensures { result ≡ is_hot (store self.now) key.now };

    /// The rows of the keys of these sets come back from the cold table, where they are there. Refused with `OutOfMemory`
    /// where there is a cold table, one of these keys has its row there, and a growth was refused.
    fn warm(&mut self, sets: &Sets) -> Result<(), Fault>
        ensures ok { OnOk result (store self.new ≡ warmed (sets.now.reads ++ sets.now.writes) (store self.old)) }
        ensures err { OnErr result (store self.new ≡ store self.old) }
        ensures room { room self.old ≤ room self.new }
        ensures only { IsOkUnless result Fault.OutOfMemory }
        ensures succeeds { warm_grows cold (sets.now.reads ++ sets.now.writes) (store self.old) ≡ false → IsOk result };

    /// The row of a key goes to the cold table. Refused with `PointOpen` where a point is open, with `NoRow` where the key has
    /// no row that isn't cold, and with `NoColdTable` where there is no such table; else with `OutOfMemory` where a growth
    /// was refused.
    fn cool(&mut self, key: &Key) -> Result<(), Fault>
        ensures did { Did cold result (cool_key cold key.now (store self.old)) (store self.old) (store self.new) }
        ensures room { room self.old ≤ room self.new };
}
