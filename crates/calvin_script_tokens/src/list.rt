//! Lists of what tokens spell.
ghost use Rattle.std.specs.Prelude.{◌≡◌, ℕ, suc, Option, OnSome, IfSome, map};
ghost use Rattle.serde_json.specs.Data.{Data};
ghost use Rattle.calvin_script.specs.Spelling.{list};
ghost use Rattle.calvin_script_tokens.specs.Spelled.{Spells, SpellsOneMore};

use crate::tokens::{ends_array, opens_array};
use json::Reader;
use std::alloc::Global;

/// What tokens can spell.
pub trait Piece: Drop {
    /// What a value is, apart from where it lies in memory.
    ghost Meaning: { Type 0 };

    ghost meaning: { Self → Meaning };

    /// What a piece of JSON spells.
    ghost spelled: { Data → Option Meaning };

    /// How many levels it may nest.
    ghost deep: { ℕ };

    /// How many more a list makes room for where so many take all its room.
    fn room_behind(len: usize) -> usize;

    /// Puts what the next tokens spell at the end of a list.
    fn push_tokens(alloc: Global, reader: &mut Reader<'_>, found: &mut Vec<Self>) -> Option<()>
        ensures { OnSome result (SpellsOneMore spelled deep reader.old
            (map meaning found.old.items) (map meaning found.new.items) reader.new) };
}

/// Makes room for one more, where there is none.
#[inline(always)]
fn make_room<T: Piece>(found: &mut Vec<T>) -> Option<()>
    ensures { OnSome result (found.new.items ≡ found.old.items) }
{
    let len = found.len();
    if len == found.capacity() {
        found.reserve_exact(T::room_behind(len)).ok()?;
    }
    Some(())
}

/// The list that the next tokens spell. It keeps no more memory than it needs.
pub fn list_of<T: Piece>(alloc: Global, reader: &mut Reader<'_>) -> Option<Vec<T>>
    ensures { IfSome result (λ v. Spells (list T.spelled) (suc T.deep) reader.old
        (map T.meaning v.items) reader.new) }
{
    opens_array(reader)?;
    if ends_array(reader) {
        return Some(Vec::new(alloc));
    }
    let mut found = Vec::new(alloc);
    'items: while !ends_array(reader) {
        make_room(&mut found)?;
        T::push_tokens(alloc, reader, &mut found)?;
    }
    found.shrink_to_fit();
    Some(found)
}
