//! Texts that are expected.
ghost use Rattle.std.specs.Prelude.{◌≡◌, map, None, Some, option_map, string_bytes};
ghost use Rattle.serde_json.specs.View.{view};
ghost use Rattle.calvin_script.specs.Spelling.{where_given};
ghost use Rattle.calvin_script.specs.Gives.{Gives};
ghost use Rattle.calvin_script_events.specs.EventScripts.{texts};

use calvin_types::Fault;
use serde_json::Value;
use std::alloc::Global;

/// The texts that a list spells. Refused with `BadScript` where it spells none, and with `OutOfMemory`.
fn texts_of(alloc: Global, value: &Value) -> Result<Vec<String>, Fault>
    ensures { Gives (λ v. map string_bytes v.items) result (texts (view value.now)) }
{
    let items = value.as_array().ok_or(Fault::BadScript)?;
    let mut found = Vec::with_capacity(alloc, items.len())?;
    for item in items {
        let text = item.as_str().ok_or(Fault::BadScript)?;
        let text = String::from_str(alloc, text)?;
        found.push(text)?;
    }
    Ok(found)
}

/// The texts of a member that may be left out.
pub(crate) fn expected(alloc: Global, value: Option<&Value>) -> Result<Option<Vec<String>>, Fault>
    ensures { Gives (option_map (λ v. map string_bytes v.items)) result
        (where_given texts (option_map (λ v. view v.now) value.entry)) }
{
    match value {
        None => Ok(None),
        Some(value) => {
            let texts = texts_of(alloc, value)?;
            Ok(Some(texts))
        }
    }
}
