//! How deep JSON nests.
ghost use Rattle.std.specs.Prelude.{◌≡◌, nat_le};
ghost use Rattle.serde_json.specs.Data.{depth, items_depth, members_depth};
ghost use Rattle.serde_json.specs.View.{view, items_view, members_view};

use serde_json::{Map, Value};

/// Whether a piece of JSON has at most so many levels of arrays and objects.
#[cycle(nests_within)]
pub(crate) fn nests_within(value: &Value, levels: u8) -> bool
    ensures { result ≡ nat_le (depth (view value.now)) levels }
{
    match value {
        Value::Array(items) => 0 < levels && items_nest_within(items, levels - 1),
        Value::Object(members) => 0 < levels && members_nest_within(members, levels - 1),
        _ => true,
    }
}

#[cycle(nests_within)]
#[tactic(auto, using(crate::proofs::Depths::too_deep))]
fn items_nest_within(items: &Vec<Value>, levels: u8) -> bool
    ensures { result ≡ nat_le (items_depth (items_view items.now.items)) levels }
{
    for item in items {
        if !nests_within(item, levels) {
            return false;
        }
    }
    true
}

#[cycle(nests_within)]
#[tactic(auto, using(crate::proofs::Depths::too_deep))]
fn members_nest_within(members: &Map<String, Value>, levels: u8) -> bool
    ensures { result ≡ nat_le (members_depth (members_view members.now.entries)) levels }
{
    for (_name, member) in members.iter() {
        if !nests_within(member, levels) {
            return false;
        }
    }
    true
}
