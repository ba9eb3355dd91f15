//! The numbers behind the name of an operation.
ghost use Rattle.std.specs.Prelude.{IfSome};
ghost use Rattle.calvin_script.specs.Numbers.{one_number, two_numbers, three_numbers};
ghost use Rattle.calvin_script_tokens.specs.Spelled.{SpellsBehind};

use crate::tokens::{closes_array, number};
use json::Reader;

/// The number that follows the name of an operation or of an event, and nothing behind it.
#[tactic(auto, using(crate::proofs::NumberTurns::one_spelled))]
pub fn one_number(reader: &mut Reader<'_>) -> Option<u64>
    ensures { IfSome result (λ n. SpellsBehind one_number 0 reader.old n reader.new) }
{
    let only = number(reader)?;
    closes_array(reader)?;
    Some(only)
}

/// The two numbers that follow the name of an operation.
#[tactic(auto, using(crate::proofs::NumberTurns::two_spelled))]
pub(crate) fn two_numbers(reader: &mut Reader<'_>) -> Option<(u64, u64)>
    ensures { IfSome result (λ n. SpellsBehind two_numbers 0 reader.old n reader.new) }
{
    let first = number(reader)?;
    let second = number(reader)?;
    closes_array(reader)?;
    Some((first, second))
}

/// The three numbers that follow the name of an operation.
#[tactic(auto, using(crate::proofs::NumberTurns::three_spelled))]
pub(crate) fn three_numbers(reader: &mut Reader<'_>) -> Option<(u64, u64, u64)>
    ensures { IfSome result (λ n. SpellsBehind three_numbers 0 reader.old n reader.new) }
{
    let first = number(reader)?;
    let second = number(reader)?;
    let third = number(reader)?;
    closes_array(reader)?;
    Some((first, second, third))
}
