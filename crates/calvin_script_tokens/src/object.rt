//! Objects, whose members come in any order.
ghost use Rattle.std.specs.Prelude.{suc, ℕ, OnSome};
ghost use Rattle.serde_json.specs.Data.{Members, no_members};
ghost use Rattle.calvin_script_tokens.specs.Spelled.{MemberRead, ObjectRead};

use crate::tokens::{key_at, opens_object};
use json::Reader;
use std::alloc::Global;

/// What is gathered from an object member by member.
pub trait Object {
    /// What was gathered is what these members spell.
    ghost holds: { Members → Self → Type 0 };

    /// How many levels a member may nest.
    ghost deep: { ℕ };

    /// Reads the member of this name, whose value comes next.
    fn read_member(&mut self, alloc: Global, reader: &mut Reader<'_>, name: &str) -> Option<()>
        ensures { OnSome result ((found : Members) → holds found self.old
            → MemberRead holds deep found name.now reader.old self.new reader.new) };
}

/// Reads an object, of which nothing was gathered before. Of a name that is given twice the last one counts.
pub fn read_object<T: Object>(alloc: Global, reader: &mut Reader<'_>, object: &mut T) -> Option<()>
    requires { T.holds no_members object.old }
    ensures { OnSome result (ObjectRead T.holds (suc T.deep) reader.old object.new reader.new) }
{
    opens_object(reader)?;
    'members: while let Some(name) = key_at(reader)? {
        object.read_member(alloc, reader, name)?;
    }
    Some(())
}
