//! All rows, in memory.
ghost use Rattle.std.specs.Prelude.{◌≡◌, ◌+◌, ◌<◌, ◌≤◌, ◌↔◌, ◌⊎◌, true, false, [], is_some, IfOk, IfErr, IsOk, IsErrOf, OnOk, OnErr, IsOkUnless};
ghost use Rattle.std.specs.FinMap as map;
ghost use Rattle.std.specs.HashMap.{spare, IsUnique};
ghost use Rattle.calvin_types.specs.Keys.{key_cmp, has, are_distinct};
ghost use Rattle.calvin_types.specs.SameKeys.{equal_keys};
ghost use Rattle.calvin_app.specs.Rows.{view, overwritten};
ghost use Rattle.calvin_app.specs.Writing.{keys_of};

use crate::look::{Look, look_up};
use crate::view::View;
use crate::writes::Writes;
use calvin_types::{Fault, Key, KeySet};
use std::alloc::{AllocError, Global};
use std::collections::HashMap;
use std::marker::Model;

/// Rows by key, which contracts see as a finite map. A row is found and written in expected constant time.
#[derive(Drop)]
pub struct Table<Row> {
    rows: HashMap<Key, Row>,
}

impl<Row> Model for Table<Row> {
    ghost use Rattle.std.specs.FinMap as map;
    ghost use Rattle.calvin_types.specs.Keys.{key_cmp};
    ghost use Rattle.calvin_types.specs.Codes.{coded_key};

    ghost Value = { map.FinMap key_cmp Row };

    ghost coded = { map.code coded_key Row.code };

    ghost view = { λ a. map.from_entries a.rows.entries };
}

impl<Row: Copy> Table<Row> {
    /// No rows.
    pub fn new(alloc: Global) -> Table<Row>
        ensures { result ≡ map.empty }
    {
        Table {
            rows: HashMap::new(alloc),
        }
    }

    /// These rows. Refused with `Repeated` where a key comes twice, and else for want of memory: where memory is refused,
    /// each pair of keys is compared.
    pub fn from_rows(alloc: Global, rows: &[(Key, Row)]) -> Result<Table<Row>, Fault>
        ensures ok { IfOk result (λ all. all ≡ overwritten map.empty rows.now) }
        ensures repeated { IsErrOf result Fault.Repeated ↔ (are_distinct (keys_of rows.now) ≡ false) }
        ensures only { IfErr result (λ fault. (fault ≡ Fault.OutOfMemory) ⊎ (fault ≡ Fault.Repeated)) }
    {
        let mut all = HashMap::new(alloc);
        if all.reserve(rows.len()).is_err() {
            return Err(first_fault(rows));
        }
        for &(key, row) in rows {
            if put_row(&mut all, key, row) {
                return Err(Fault::Repeated);
            }
        }
        Ok(Table { rows: all })
    }

    /// Makes room for so many rows more. Refused for want of memory.
    pub fn reserve(&mut self, rows: usize) -> Result<(), Fault>
        ensures kept { self.new ≡ self.old }
        ensures only { IsOkUnless result Fault.OutOfMemory }
    {
        self.rows.reserve(rows)?;
        Ok(())
    }

    /// The row of a key, if it has one.
    pub fn get(&self, key: &Key) -> Option<Row>
        ensures { result ≡ map.get self.now key.now }
    {
        self.rows.get(key).copied()
    }

    /// Puts the rows of some keys into a view that has none yet; keys without a row are left out.
    pub fn look_up(&self, keys: &KeySet, seen: &mut View<Row>)
        requires { seen.old ≡ map.empty }
        ensures { seen.new ≡ view self.now keys.now }
    {
        look_up(self, keys, seen);
    }

    /// All rows with their keys, in ascending order of the keys. Refused for want of memory.
    pub fn to_vec(&self, alloc: Global) -> Result<Vec<(Key, Row)>, AllocError>
        ensures rows { IfOk result (λ rows. rows.items ≡ map.entries self.now) }
        // So they make the same rows again.
        ensures whole { IfOk result (λ rows. overwritten map.empty rows.items ≡ self.now) }
        ensures distinct { IfOk result (λ rows. are_distinct (keys_of rows.items) ≡ true) }
    {
        let mut rows = entries_of(alloc, &self.rows)?;
        rows.sort_unstable_by_key(key_of);
        Ok(rows)
    }

    /// Overwrites rows, all of them or none: refused for want of memory before the first is written, and never where
    /// there is none to write.
    pub fn overwrite(&mut self, writes: &Writes<Row>) -> Result<(), Fault>
        ensures ok { OnOk result (self.new ≡ overwritten self.old writes.now) }
        ensures err { OnErr result (self.new ≡ self.old) }
        ensures only { IsOkUnless result Fault.OutOfMemory }
        ensures succeeds { writes.now ≡ [] → IsOk result }
    {
        self.rows.reserve(writes.len())?;
        for i in 0..writes.len() {
            let (key, row) = writes.at(i);
            let put: Result<_, _> = self.rows.insert(key, row);
            let _before = put.unwrap();
        }
        Ok(())
    }
}

/// The key of a row.
fn key_of<Row: Copy>(row: &(Key, Row)) -> Key
    ensures { result ≡ row.now.0 }
{
    row.0
}

/// All rows with their keys, as they lie there.
fn entries_of<Row: Copy>(
    alloc: Global,
    rows: &HashMap<Key, Row>,
) -> Result<Vec<(Key, Row)>, AllocError>
    ensures entries { IfOk result (λ all. all.items ≡ rows.now.entries) }
    ensures unique { IsUnique equal_keys rows.now }
{
    let entries = rows.iter();
    let mut all = Vec::with_capacity(alloc, entries.len())?;
    for (key, row) in entries {
        all.push((*key, *row))?;
    }
    Ok(all)
}

/// Puts a row under a key where there is room for one, and says whether the key had one.
fn put_row<Row: Copy>(rows: &mut HashMap<Key, Row>, key: Key, row: Row) -> bool
    requires { 0 < spare rows.old }
    ensures put { map.from_entries {R = key_cmp} rows.new.entries ≡ map.insert (map.from_entries rows.old.entries) key row }
    ensures had { result ≡ is_some (map.get (map.from_entries {R = key_cmp} rows.old.entries) key) }
    ensures room { spare rows.old ≤ spare rows.new + 1 }
{
    let put: Result<_, _> = rows.insert(key, row);
    put.unwrap().is_some()
}

/// Why rows are refused for which there is no memory.
fn first_fault<Row: Copy>(rows: &[(Key, Row)]) -> Fault
    ensures repeated { (result ≡ Fault.Repeated) ↔ (are_distinct (keys_of rows.now) ≡ false) }
    ensures only { (result ≡ Fault.OutOfMemory) ⊎ (result ≡ Fault.Repeated) }
{
    for i in 0..rows.len() {
        let (key, _row) = rows[i];
        if is_among(key, &rows[..i]) {
            return Fault::Repeated;
        }
    }
    Fault::OutOfMemory
}

/// Whether one of these rows has the key.
fn is_among<Row: Copy>(key: Key, rows: &[(Key, Row)]) -> bool
    ensures { result ≡ has (keys_of rows.now) key }
{
    for &(other, _row) in rows {
        if key == other {
            return true;
        }
    }
    false
}

impl<Row: Copy> Look<Row> for Table<Row> {
    ghost shown = { λ rows. rows };

    fn look(&self, key: &Key) -> Option<Row> {
        self.get(key)
    }
}
