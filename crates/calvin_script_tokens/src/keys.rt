//! Keys, and sets of keys.
ghost use Rattle.std.specs.Prelude.{◌≡◌, [], OnSome, IfSome};
ghost use Rattle.calvin_script.specs.KeyLists.{key_set};
ghost use Rattle.calvin_script_tokens.specs.Spelled.{Spells};

use crate::tokens::{closes_array, ends_array, opens_array, u8_of, u64_of};
use calvin_script::{KeyForm, WholeKey};
use calvin_types::{Key, KeySet};
use json::Reader;

/// A way to write keys, read from tokens.
pub trait KeyTokens: KeyForm {
    /// The key that the next tokens spell.
    fn key_at(reader: &mut Reader<'_>) -> Option<Key>
        ensures { IfSome result (λ k. Spells Self.form 1 reader.old k reader.new) };
}

impl KeyTokens for WholeKey {
    #[tactic(auto, using(crate::proofs::Operations::key_spelled))]
    fn key_at(reader: &mut Reader<'_>) -> Option<Key> {
        opens_array(reader)?;
        let table = u8_of(reader)?;
        let id = u64_of(reader)?;
        closes_array(reader)?;
        Some(Key { table, id })
    }
}

/// Adds the keys that the next tokens list, at most 16 in any order and none twice, to a set that has none. Where they
/// list no such keys there is no answer, and the set may have some of them.
pub fn read_key_set<F: KeyTokens>(reader: &mut Reader<'_>, keys: &mut KeySet) -> Option<()>
    requires { keys.old ≡ [] }
    ensures { OnSome result (Spells (key_set F.form) 2 reader.old keys.new reader.new) }
{
    opens_array(reader)?;
    'items: while !ends_array(reader) {
        let key = F::key_at(reader)?;
        if !keys.add_or_clear(key) {
            return None;
        }
    }
    Some(())
}
