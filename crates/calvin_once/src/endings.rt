//! Declared sets that end in the key of a kept reply.
ghost use Rattle.std.specs.Prelude.{◌≡◌, ◌∷◌, ◌++◌, [], List, false, IfSome, IfNone};
ghost use Rattle.calvin_types.specs.declared.key.Key.{Key};
ghost use Rattle.calvin_types.specs.declared.key_set.Sets.{Sets};
ghost use Rattle.calvin_types.specs.SameKeys.{same_keys, same_sets};

use calvin_types::{Key, KeySet, Sets};

/// The keys before the last one, if that is this one.
fn before(keys: &KeySet, last: Key) -> Option<KeySet>
    ensures some { IfSome result (λ others. keys.now ≡ others ++ last ∷ []) }
    ensures none { IfNone result ((s : List Key) → same_keys (s ++ last ∷ []) keys.now ≡ false) }
{
    if keys.is_empty() {
        return None;
    }
    let count = keys.len() - 1;
    if last != keys.at(count) {
        return None;
    }
    let mut others = KeySet::new();
    for i in 0..count {
        others.grow(keys.at(i));
    }
    Some(others)
}

/// The sets without their last keys, if that is this key in both.
pub(crate) fn without_last(sets: &Sets, last: Key) -> Option<Sets>
    ensures some { IfSome result (λ others. (s : Sets) → same_sets (record { reads = s.reads ++ last ∷ []; writes = s.writes ++ last ∷ [] }) sets.now ≡ same_sets s others) }
    ensures none { IfNone result ((s : Sets) → same_sets (record { reads = s.reads ++ last ∷ []; writes = s.writes ++ last ∷ [] }) sets.now ≡ false) }
{
    let reads = before(&sets.reads, last)?;
    let writes = before(&sets.writes, last)?;
    Some(Sets { reads, writes })
}
