//! Lists of what can be spelled.
ghost use Rattle.std.specs.Prelude.{◌≡◌, Option, map};
ghost use Rattle.serde_json.specs.Data.{Data};
ghost use Rattle.serde_json.specs.View.{view};
ghost use Rattle.calvin_script.specs.Spelling.{list, then_one};
ghost use Rattle.calvin_script.specs.Gives.{Gives};

use calvin_types::{Fault, MOST_REQUESTS};
use serde_json::Value;
use std::alloc::Global;

/// What JSON can spell.
pub trait Spelled: Drop {
    /// What a value is, apart from where it lies in memory.
    ghost Meaning: { Type 0 };

    ghost meaning: { Self → Meaning };

    /// What a piece of JSON spells.
    ghost spelled: { Data → Option Meaning };

    /// Puts what a piece of JSON spells at the end of a list. Refused with `BadScript` where it spells nothing, and with
    /// `OutOfMemory`. The JSON is given back as it is read, so that its memory serves what is found.
    fn push_json(alloc: Global, value: Value, found: &mut Vec<Self>) -> Result<(), Fault>
        ensures { Gives (λ _. map meaning found.new.items) result
            (then_one (map meaning found.old.items) (spelled (view value))) };
}

/// The list that a piece of JSON spells. Refused with `BadScript` where it spells none, and with `OutOfMemory`.
pub fn list_of<T: Spelled>(alloc: Global, value: Value) -> Result<Vec<T>, Fault>
    ensures { Gives (λ v. map T.meaning v.items) result (list T.spelled (view value)) }
{
    let Value::Array(items) = value else {
        return Err(Fault::BadScript);
    };
    // room for a whole batch is had at once; a longer list grows
    let mut found = Vec::with_capacity(alloc, items.len().min(MOST_REQUESTS))?;
    for item in items {
        T::push_json(alloc, item, &mut found)?;
    }
    Ok(found)
}
