//! A copy of the rows at one time.
ghost use Rattle.std.specs.Prelude.{◌≡◌, [], IfOk, IsOk, IsOkUnless};
ghost use Rattle.std.specs.FinMap as map;
ghost use Rattle.std.specs.List.{IsDistinct};
ghost use Rattle.calvin_types.specs.SameKeys.{equal_keys};
ghost use Rattle.calvin_app.specs.Entries.{shown, rising};
ghost use Rattle.calvin_app.specs.Writing.{keys_of};

use calvin_types::{Fault, Key, Shared};
use std::alloc::Global;
use std::marker::Model;

/// All rows of a keeper at one time, which contracts see as a finite map. None can be changed, and copies share the
/// memory. One of no rows takes none.
#[derive(Debug, Drop, PartialEq, Eq)]
pub struct Snapshot<Row> {
    // none where there are no rows
    pairs: Option<Shared<(Key, Row)>>,
}

impl<Row> Model for Snapshot<Row> {
    ghost use Rattle.std.specs.FinMap as map;
    ghost use Rattle.calvin_types.specs.Keys.{key_cmp};
    ghost use Rattle.calvin_types.specs.Codes.{coded_key};
    ghost use Rattle.calvin_app.specs.Entries.{shown};
    ghost use Rattle.calvin_store.specs.Held.{pairs_in, held, AreHeld};
    ghost use Rattle.calvin_store.specs.HeldLaws.{held_again};

    ghost Value = { map.FinMap key_cmp Row };

    ghost coded = { map.code coded_key Row.code };

    ghost view = { λ s. shown (pairs_in s.pairs) };

    ghost invariant = { λ s. AreHeld s.pairs };

    ghost inverse = { λ m. record { pairs = held (map.entries m) } };

    ghost inverse_ok = { λ s h i. record { pairs = held_again s.pairs h i } };
}

impl<Row: Copy> Snapshot<Row> {
    /// The rows of these pairs, which stand by ascending key: what a keeper makes of the rows that it has. Refused with
    /// `OutOfMemory` where there is a pair and a growth was refused.
    pub fn new(alloc: Global, pairs: Vec<(Key, Row)>) -> Result<Snapshot<Row>, Fault>
        requires { rising pairs.items }
        ensures ok { IfOk result (λ s. s ≡ shown pairs.items) }
        ensures only { IsOkUnless result Fault.OutOfMemory }
        ensures succeeds { pairs.items ≡ [] → IsOk result }
    {
        if pairs.is_empty() {
            return Ok(Snapshot { pairs: None });
        }
        let pairs = Shared::new(alloc, pairs)?;
        Ok(Snapshot { pairs: Some(pairs) })
    }

    /// The rows of these pairs, in whatever order they stand, of which no two have one key. Refused with `OutOfMemory`
    /// where a growth was refused.
    pub(crate) fn sorted(alloc: Global, pairs: Vec<(Key, Row)>) -> Result<Snapshot<Row>, Fault>
        requires { IsDistinct equal_keys (keys_of pairs.items) }
        ensures ok { IfOk result (λ s. s ≡ map.from_entries pairs.items) }
        ensures only { IsOkUnless result Fault.OutOfMemory }
    {
        let mut pairs = pairs;
        pairs.sort_unstable_by(|a, b| a.0.cmp(&b.0));
        Snapshot::new(alloc, pairs)
    }

    /// How many keys have a row.
    pub fn len(&self) -> usize
        ensures { result ≡ map.len self.now }
    {
        self.pairs().len()
    }

    /// Each key that has a row, with its row, by ascending key.
    pub fn pairs(&self) -> &[(Key, Row)]
        ensures { result.now ≡ map.entries self.now }
    {
        match &self.pairs {
            Some(pairs) => pairs.as_slice(),
            None => &[],
        }
    }

    /// Another owner of the same memory. It takes none of its own, and is refused with `OutOfMemory` only where there
    /// are 2^63 - 1 owners.
    pub fn copy(&self) -> Result<Snapshot<Row>, Fault>
        ensures ok { IfOk result (λ s. s ≡ self.now) }
        ensures only { IsOkUnless result Fault.OutOfMemory }
    {
        let Some(pairs) = &self.pairs else {
            return Ok(Snapshot { pairs: None });
        };
        let pairs = pairs.share()?;
        Ok(Snapshot { pairs: Some(pairs) })
    }
}
