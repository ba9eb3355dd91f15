//! Texts, of which a list may be.
use crate::list::Piece;
use crate::tokens::string_at;
use json::Reader;
use std::alloc::Global;

impl Piece for String {
    ghost use Rattle.std.specs.Prelude.{ℕ, List, string_bytes};
    ghost use Rattle.serde_json.specs.Find.{as_str};

    ghost Meaning = { List ℕ };

    ghost meaning = { string_bytes };

    ghost spelled = { as_str };

    ghost deep = { 0 };

    fn room_behind(len: usize) -> usize {
        len.max(1)
    }

    fn push_tokens(alloc: Global, reader: &mut Reader<'_>, found: &mut Vec<String>) -> Option<()> {
        let text = string_at(reader)?;
        let Ok(text) = String::from_str(alloc, text) else {
            return None;
        };
        let Ok(()) = found.push(text) else {
            return None;
        };
        Some(())
    }
}
