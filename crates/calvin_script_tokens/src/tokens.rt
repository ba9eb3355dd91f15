//! Tokens that stand where they usually do. Where others stand there is no answer, and any tokens may be left.
ghost use Rattle.std.specs.Prelude.{◌≡◌, ◌∷◌, ◌^◌, ◌+◌, ◌*◌, ◌<◌, ◌≤◌, length, option_map, IfSome, OnSome, IsTrue, IsFalse};
ghost use Rattle.std.specs.Char.{digit_value};
ghost use Rattle.std.specs.Str.Parse.{AllDigits, digits_value};
ghost use Rattle.json.specs.Token as token;
ghost use Rattle.serde_json.specs.Data.{unsigned, number};
ghost use Rattle.serde_json.specs.Read.{number_of};
ghost use Rattle.calvin_types.specs.declared.limits.TheConstants.{MOST_EPOCHS};
ghost use Rattle.calvin_script.specs.Spelling.{below, between};
ghost use Rattle.calvin_script_tokens.specs.Spelled.{Reads, Spells, key_or_end};

use calvin_types::MOST_EPOCHS;
use fast_float::Numeral;
use json::{Reader, Token};

/// The number that is written by the digits of another one and one digit behind them.
#[inline(always)]
fn next_digit(n: u64, byte: u8) -> Option<u64>
    requires { n < 10 ^ 18 }
    ensures { IfSome result (λ more. (digit_value byte < 10) × (more ≡ n * 10 + digit_value byte)) }
{
    if !byte.is_ascii_digit() {
        return None;
    }
    Some(n * 10 + (byte - b'0') as u64)
}

/// The number that at most 19 digits write. Most have one or two, and pass no loop.
#[inline(always)]
fn short_digits(bytes: &[u8]) -> Option<u64>
    requires { length bytes.now ≤ 19 }
    ensures { IfSome result (λ n. AllDigits 10 bytes.now × (n ≡ digits_value 10 bytes.now)) }
{
    if bytes.is_empty() {
        return Some(0);
    }
    let mut n = next_digit(0, bytes[0])?;
    if bytes.len() == 1 {
        return Some(n);
    }
    n = next_digit(n, bytes[1])?;
    let mut i = 2;
    while i + 1 < bytes.len() {
        n = next_digit(n, bytes[i])?;
        n = next_digit(n, bytes[i + 1])?;
        i += 2;
    }
    if i < bytes.len() {
        n = next_digit(n, bytes[i])?;
    }
    Some(n)
}

/// The number that a text of any length writes in digits alone, below 2^64. It stands apart, as few are so long, so that
/// what reads the others stays small.
#[cold]
#[inline(never)]
#[tactic(auto, unfolding(serde_json::specs::Read::number_of))]
fn long_digits(text: &str) -> Option<u64>
    ensures { IfSome result (λ n. number_of text.now ≡ Some (unsigned n)) }
{
    let bytes = text.as_bytes();
    if bytes.is_empty() || bytes[0] == b'-' {
        return None;
    }
    Numeral::scan(bytes).to_u64()
}

/// The number that a text writes in digits alone, below 2^64.
#[inline(always)]
#[tactic(auto, using(crate::proofs::Digits::short_number))]
fn digits_of(text: &str) -> Option<u64>
    ensures { IfSome result (λ n. number_of text.now ≡ Some (unsigned n)) }
{
    let bytes = text.as_bytes();
    if bytes.is_empty() || bytes.len() >= 20 {
        return long_digits(text);
    }
    short_digits(bytes)
}

/// A whole number below 2^64, written in digits alone, where it is next.
#[inline(always)]
#[tactic(auto, using(crate::proofs::Steps::number_reads))]
pub fn number(reader: &mut Reader<'_>) -> Option<u64>
    ensures { IfSome result (λ n. Reads 0 reader.old (number (unsigned n)) reader.new) }
{
    let Token::Number(text) = reader.next()? else {
        return None;
    };
    let n = digits_of(text)?;
    Some(n)
}

/// A whole number below 2^64.
#[inline(always)]
#[tactic(auto, using(crate::proofs::Steps::below_spelled))]
pub(crate) fn u64_of(reader: &mut Reader<'_>) -> Option<u64>
    ensures { IfSome result (λ n. Spells (below (2 ^ 64)) 0 reader.old n reader.new) }
{
    let n = number(reader)?;
    Some(n)
}

/// A whole number below 2^32.
#[inline(always)]
#[tactic(auto, using(crate::proofs::Steps::below_spelled))]
pub(crate) fn u32_of(reader: &mut Reader<'_>) -> Option<u32>
    ensures { IfSome result (λ n. Spells (below (2 ^ 32)) 0 reader.old n reader.new) }
{
    let n = number(reader)?;
    u32::try_from(n).ok()
}

/// A whole number below 256.
#[inline(always)]
#[tactic(auto, using(crate::proofs::Steps::below_spelled))]
pub(crate) fn u8_of(reader: &mut Reader<'_>) -> Option<u8>
    ensures { IfSome result (λ n. Spells (below (2 ^ 8)) 0 reader.old n reader.new) }
{
    let n = number(reader)?;
    u8::try_from(n).ok()
}

/// The same as `number`, for the value of a member and for a number of an event. It stands apart, so that what reads these
/// stays small enough to be put in its callers.
#[inline(never)]
fn number_value(reader: &mut Reader<'_>) -> Option<u64>
    ensures { IfSome result (λ n. Reads 0 reader.old (number (unsigned n)) reader.new) }
{
    number(reader)
}

/// A whole number below 2^32, for the value of a member or a number of an event.
#[inline(always)]
#[tactic(auto, using(crate::proofs::Steps::below_spelled))]
pub fn u32_value(reader: &mut Reader<'_>) -> Option<u32>
    ensures { IfSome result (λ n. Spells (below (2 ^ 32)) 0 reader.old n reader.new) }
{
    let value = number_value(reader)?;
    u32::try_from(value).ok()
}

/// A whole number below 256, for the value of a member or a number of an event.
#[inline(always)]
#[tactic(auto, using(crate::proofs::Steps::below_spelled))]
pub fn u8_value(reader: &mut Reader<'_>) -> Option<u8>
    ensures { IfSome result (λ n. Spells (below (2 ^ 8)) 0 reader.old n reader.new) }
{
    let value = number_value(reader)?;
    u8::try_from(value).ok()
}

/// The number of an epoch, which is below 2^48, for the value of a member or a number of an event.
#[tactic(auto, using(crate::proofs::Steps::below_spelled))]
pub fn epoch_value(reader: &mut Reader<'_>) -> Option<u64>
    ensures { IfSome result (λ n. Spells (below MOST_EPOCHS) 0 reader.old n reader.new) }
{
    let epoch = number_value(reader)?;
    if epoch < MOST_EPOCHS {
        Some(epoch)
    } else {
        None
    }
}

/// A whole number from the least to the most.
#[tactic(auto, using(crate::proofs::Steps::between_spelled))]
pub fn between(least: u8, most: u8, reader: &mut Reader<'_>) -> Option<u8>
    ensures { IfSome result (λ n. Spells (between least most) 0 reader.old n reader.new) }
{
    let n = number(reader)?;
    if least as u64 <= n && n <= most as u64 {
        Some(n as u8)
    } else {
        None
    }
}

/// Takes the bracket that opens an array, where it is next.
#[inline(always)]
pub fn opens_array(reader: &mut Reader<'_>) -> Option<()>
    ensures { OnSome result (reader.old ≡ token.begin_array ∷ reader.new) }
{
    match reader.next()? {
        Token::BeginArray => Some(()),
        _ => None,
    }
}

/// Takes the brace that opens an object, where it is next.
#[inline(always)]
pub(crate) fn opens_object(reader: &mut Reader<'_>) -> Option<()>
    ensures { OnSome result (reader.old ≡ token.begin_object ∷ reader.new) }
{
    match reader.next()? {
        Token::BeginObject => Some(()),
        _ => None,
    }
}

/// Whether an array ends here; then its bracket is taken.
#[inline(always)]
#[tactic(auto, using(json::proofs::Grammar::closed_array))]
pub fn ends_array(reader: &mut Reader<'_>) -> bool
    ensures ended { IsTrue result → reader.old ≡ token.end_array ∷ reader.new }
    ensures kept { IsFalse result → reader.new ≡ reader.old }
{
    reader.take_end_array()
}

/// Takes the bracket that closes an array, where it is next.
#[inline(always)]
pub fn closes_array(reader: &mut Reader<'_>) -> Option<()>
    ensures { OnSome result (reader.old ≡ token.end_array ∷ reader.new) }
{
    if ends_array(reader) { Some(()) } else { None }
}

/// Whether two texts are one.
#[inline(always)]
pub fn is_same(text: &str, other: &str) -> bool
    ensures { IsTrue result → text.now ≡ other.now }
{
    text == other
}

/// A string, where it is next.
#[inline(always)]
pub fn string_at<'a>(reader: &mut Reader<'a>) -> Option<&'a str>
    ensures { IfSome result (λ text. reader.old ≡ token.string text.now ∷ reader.new) }
{
    match reader.next()? {
        Token::String(text) => Some(text),
        _ => None,
    }
}

/// The name of a member, or none at the brace that closes its object.
#[inline(always)]
pub(crate) fn key_at<'a>(reader: &mut Reader<'a>) -> Option<Option<&'a str>>
    ensures { IfSome result (λ k. reader.old ≡ key_or_end (option_map (λ name. name.now) k) ∷ reader.new) }
{
    match reader.next()? {
        Token::Key(name) => Some(Some(name)),
        Token::EndObject => Some(None),
        _ => None,
    }
}
