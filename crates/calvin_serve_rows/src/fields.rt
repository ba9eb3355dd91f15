//! What stands in a list.
ghost use Rattle.std.specs.Prelude.{◌≡◌, ◌<◌, ◌^◌, option_and_then, option_map};
ghost use Rattle.std.specs.Option.{ForSome};
ghost use Rattle.serde_json.specs.Data.{unsigned, number as number_data};
ghost use Rattle.serde_json.specs.Find.{at, as_str};
ghost use Rattle.serde_json.specs.View.{view};
ghost use Rattle.calvin_script.specs.Spelling.{below};
ghost use Rattle.calvin_serve_rows.specs.StockForms.{or_null};
ghost use Rattle.calvin_serve_rows.specs.Spelled.{number_or_null};

use serde_json::Value;

/// The name that stands first.
pub(crate) fn name_of(value: &Value) -> Option<&str>
    ensures { option_map (λ s. s.now) result ≡ option_and_then as_str (at 0 (view value.now)) }
{
    value.get(0)?.as_str()
}

/// The whole number below 2^64 at a place.
pub(crate) fn number_at(value: &Value, place: usize) -> Option<u64>
    ensures { result ≡ option_and_then (below (2 ^ 64)) (at place (view value.now)) }
{
    value.get(place)?.as_u64()
}

/// The whole number below 2^64 that a piece of JSON spells, or none where it is `null`.
pub(crate) fn number_or_null(value: &Value) -> Option<Option<u64>>
    ensures { result ≡ or_null (below (2 ^ 64)) (view value.now) }
{
    if value.is_null() {
        return Some(None);
    }
    Some(Some(value.as_u64()?))
}

/// A whole number as JSON.
pub(crate) fn number_json(number: u64) -> Value
    ensures data { view result ≡ number_data (unsigned number) }
    ensures small { number < 2 ^ 64 }
{
    Value::from(number)
}

/// A whole number as JSON, or `null` for none.
pub(crate) fn number_or_null_json(number: Option<u64>) -> Value
    ensures data { view result ≡ number_or_null number }
    ensures small { ForSome number (λ n. n < 2 ^ 64) }
{
    match number {
        Some(number) => number_json(number),
        None => Value::Null,
    }
}

/// The number of a table as JSON.
pub(crate) fn table_json(table: u8) -> Value
    ensures data { view result ≡ number_data (unsigned table) }
    ensures small { table < 2 ^ 8 }
{
    Value::from(table)
}
