//! A key of the store.
ghost use Rattle.std.specs.Prelude.{◌+◌, ◌*◌, ◌%◌, ◌^◌};
ghost use Rattle.std.proofs.Common.{rules};
ghost use Rattle.std.specs.Cmp.Rules.{comparing, hashing};
ghost use Rattle.std.specs.Hash as fed;

use std::hash::{Hash, Hasher};

/// A key: its table, and its number there. Keys are ordered by table first. The number alone chooses the partition that
/// stores the key's row.
#[derive(Clone, Copy, Debug, PartialEq, Eq, PartialOrd, Ord)]
pub struct Key {
    pub table: u8,
    pub id: u64,
}

/// Both parts as one number, so that a table of keys hashes once.
impl Hash for Key {
    ghost hash_input = { λ k. fed.u64 ((k.id + k.table * 2 ^ 56) % 2 ^ 64) };

    ghost respects_eq = { Prim.search (hashing, comparing, rules) };

    fn hash<H: Hasher>(&self, state: &mut H) {
        self.id
            .wrapping_add(u64::from(self.table) * (1 << 56))
            .hash(state);
    }
}
