//! Keys, and sets of keys.
ghost use Rattle.std.specs.Prelude.{◌≡◌, [], Option, option_map};
ghost use Rattle.serde_json.specs.Data.{Data};
ghost use Rattle.serde_json.specs.View.{view};
ghost use Rattle.calvin_types.specs.declared.key.Key.{Key};
ghost use Rattle.calvin_script.specs.KeyLists.{key, key_set};

use crate::fields::{u8_of, u64_of};
use calvin_types::{Key, KeySet};
use serde_json::Value;

/// A way to write keys.
pub trait KeyForm {
    ghost form: { Data → Option Key };

    /// The key that a piece of JSON spells.
    fn key_of(value: &Value) -> Option<Key>
        ensures { result ≡ form (view value.now) };
}

/// A key with its table: `[table,id]`.
pub struct WholeKey;

impl KeyForm for WholeKey {
    ghost use Rattle.calvin_script.specs.KeyLists.{key};

    ghost form = { key };

    #[tactic(auto, unfolding(crate::specs::KeyLists::key))]
    fn key_of(value: &Value) -> Option<Key> {
        if value.get(2).is_some() {
            return None;
        }
        let table = u8_of(value.get(0)?)?;
        let id = u64_of(value.get(1)?)?;
        Some(Key { table, id })
    }
}

/// Adds the keys that a list spells, at most 16 in any order and none twice, to a set that has none. Where it spells no
/// such keys there is no answer, and the set may have some of them.
#[tactic(auto, unfolding(crate::specs::KeyLists::key_set), using(crate::proofs::KeySets::items_more, crate::proofs::KeySets::items_refused, crate::proofs::KeySets::grown_end))]
pub fn read_key_set<F: KeyForm>(value: &Value, keys: &mut KeySet) -> Option<()>
    requires { keys.old ≡ [] }
    ensures { key_set F.form (view value.now) ≡ option_map (λ _. keys.new) result }
{
    let items = value.as_array()?;
    for item in items {
        let key = F::key_of(item)?;
        if !keys.add(key) {
            return None;
        }
    }
    Some(())
}
