//! The numbers of an operation.
ghost use Rattle.std.specs.Prelude.{◌≡◌};
ghost use Rattle.serde_json.specs.View.{view};
ghost use Rattle.calvin_script.specs.Numbers.{one_number, two_numbers, three_numbers};

use crate::fields::u64_of;
use serde_json::Value;

/// The number below 2^64 that follows a name, in a list of these two.
#[tactic(auto, unfolding(crate::specs::Numbers::one_number))]
pub fn one_number(value: &Value) -> Option<u64>
    ensures { result ≡ one_number (view value.now) }
{
    if value.get(2).is_some() {
        return None;
    }
    u64_of(value.get(1)?)
}

/// The two numbers that follow the name of an operation.
#[tactic(auto, unfolding(crate::specs::Numbers::two_numbers))]
pub(crate) fn two_numbers(value: &Value) -> Option<(u64, u64)>
    ensures { result ≡ two_numbers (view value.now) }
{
    if value.get(3).is_some() {
        return None;
    }
    let first = u64_of(value.get(1)?)?;
    let second = u64_of(value.get(2)?)?;
    Some((first, second))
}

/// The three numbers that follow the name of an operation.
#[tactic(auto, unfolding(crate::specs::Numbers::three_numbers))]
pub(crate) fn three_numbers(value: &Value) -> Option<(u64, u64, u64)>
    ensures { result ≡ three_numbers (view value.now) }
{
    if value.get(4).is_some() {
        return None;
    }
    let first = u64_of(value.get(1)?)?;
    let second = u64_of(value.get(2)?)?;
    let third = u64_of(value.get(3)?)?;
    Some((first, second, third))
}
