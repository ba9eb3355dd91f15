//! Members and numbers.
ghost use Rattle.std.specs.Prelude.{◌≡◌, ◌<◌, ◌^◌, IfSome, map, bytes_eq, option_map};
ghost use Rattle.std.specs.List.{list_any};
ghost use Rattle.std.specs.Option.{ForSome};
ghost use Rattle.serde_json.specs.View.{view, members_view};
ghost use Rattle.calvin_types.specs.declared.limits.TheConstants.{MOST_EPOCHS};
ghost use Rattle.calvin_script.specs.Spelling.{has_only, are_named, below, between, where_given};

use calvin_types::MOST_EPOCHS;
use serde_json::{Map, Value};

/// Whether it is one of these names.
fn is_among(key: &str, names: &[&str]) -> bool
    ensures { result ≡ list_any (bytes_eq key.now) (map (λ name. name.now) names.now) }
{
    for name in names {
        if key == *name {
            return true;
        }
    }
    false
}

fn are_among(members: &Map<String, Value>, names: &[&str]) -> bool
    ensures { result ≡ are_named (map (λ name. name.now) names.now) (members_view members.now.entries) }
{
    for (key, _member) in members.iter() {
        if !is_among(key.as_str(), names) {
            return false;
        }
    }
    true
}

/// Whether it is an object with no other members than these.
pub fn has_only(value: &Value, names: &[&str]) -> bool
    ensures { result ≡ has_only (map (λ name. name.now) names.now) (view value.now) }
{
    match value.as_object() {
        Some(members) => are_among(members, names),
        None => false,
    }
}

/// The whole number below 2^64 that a piece of JSON spells.
pub(crate) fn u64_of(value: &Value) -> Option<u64>
    ensures { result ≡ below (2 ^ 64) (view value.now) }
{
    value.as_u64()
}

/// The whole number below 2^32 that a piece of JSON spells.
pub fn u32_of(value: &Value) -> Option<u32>
    ensures { result ≡ below (2 ^ 32) (view value.now) }
{
    let n = value.as_u64()?;
    u32::try_from(n).ok()
}

/// The whole number below 256 that a piece of JSON spells.
pub fn u8_of(value: &Value) -> Option<u8>
    ensures { result ≡ below (2 ^ 8) (view value.now) }
{
    let n = value.as_u64()?;
    u8::try_from(n).ok()
}

/// The whole number from the least to the most that a piece of JSON spells.
pub fn between(least: u8, most: u8, value: &Value) -> Option<u8>
    ensures { result ≡ between least most (view value.now) }
{
    let n = value.as_u64()?;
    if least as u64 <= n && n <= most as u64 {
        Some(n as u8)
    } else {
        None
    }
}

/// The number of an epoch, which is below 2^48.
pub fn epoch_of(value: &Value) -> Option<u64>
    ensures { result ≡ below MOST_EPOCHS (view value.now) }
{
    let epoch = value.as_u64()?;
    if epoch < MOST_EPOCHS {
        Some(epoch)
    } else {
        None
    }
}

/// The first epoch whose batches are woven, of a member that may be left out: then there is none. There is no answer where
/// the member is no number of an epoch.
pub fn first_woven(value: Option<&Value>) -> Option<Option<u64>>
    ensures given { result ≡ where_given (below MOST_EPOCHS) (option_map (λ v. view v.now) value.entry) }
    ensures in_range { IfSome result (λ woven_from. ForSome woven_from (λ epoch. epoch < MOST_EPOCHS)) }
{
    match value {
        None => Some(None),
        Some(value) => {
            let epoch = epoch_of(value)?;
            Some(Some(epoch))
        }
    }
}
