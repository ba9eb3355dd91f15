//! When two requests conflict.
ghost use Rattle.std.specs.Prelude.{◌≡◌, ◌↔◌, IsTrue};
ghost use Rattle.std.specs.List.{list_any};
ghost use Rattle.calvin_types.specs.Keys.{has};
ghost use Rattle.calvin_lock.specs.Ready.{Conflict};

use calvin_types::{KeySet, Sets};

/// Whether two sets have a key in common.
fn meets(a: &KeySet, b: &KeySet) -> bool
    ensures { result ≡ list_any (has b.now) a.now }
{
    for i in 0..a.len() {
        if b.has(a.at(i)) {
            return true;
        }
    }
    false
}

/// Whether one of two requests writes a key that the other reads or writes.
pub(crate) fn conflict(a: &Sets, b: &Sets) -> bool
    ensures { IsTrue result ↔ Conflict a.now b.now }
{
    meets(&a.writes, &b.reads) || meets(&a.writes, &b.writes) || meets(&a.reads, &b.writes)
}
