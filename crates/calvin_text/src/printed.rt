//! What is written of an answer.
ghost use Rattle.std.specs.Prelude.{◌≡◌, ◌≤◌, ◌<◌, ◌+◌, ◌++◌, ℕ, List, OnOk, codes, decimal, vec_len, vec_capacity};
ghost use Rattle.calvin_text.specs.Texts.{value_text, values_text, kv_text, stock_text};

use calvin_app::KvReply;
use calvin_stock::StockReply;
use calvin_types::Few;
use itoa::Buffer;
use std::alloc::AllocError;

/// The least number that has more than five digits.
pub(crate) const SHORT: u32 = 100_000;

/// What has a text. Where memory is wanting, a beginning of it may have been added.
pub trait Printed {
    /// The text.
    ghost printed: { Self → List ℕ };

    /// Adds the text to what is there.
    fn push_to(&self, text: &mut Vec<u8>) -> Result<(), AllocError>
        ensures { OnOk result (text.new.items ≡ text.old.items ++ printed self.now) };
}

/// A digit as it is written.
#[inline(always)]
fn digit(n: u32) -> u8
    requires { n < 10 }
    ensures { result ≡ 48 + n }
{
    b'0' + n as u8
}

/// Adds a number of one digit, for which there is room.
#[inline(always)]
#[tactic(auto, using(crate::proofs::ShortNumbers::one_digit))]
fn put_one(text: &mut Vec<u8>, n: u32)
    requires short { n < 10 }
    requires room { vec_len text.old + 1 ≤ vec_capacity text.old }
    ensures number { text.new.items ≡ text.old.items ++ decimal n }
    ensures len { vec_len text.new ≡ vec_len text.old + 1 }
    ensures room { vec_capacity text.new ≡ vec_capacity text.old }
{
    text.push_reserved(digit(n));
}

/// Adds a number of two digits, for which there is room.
#[inline(always)]
#[tactic(auto, using(crate::proofs::ShortNumbers::one_more))]
fn put_two(text: &mut Vec<u8>, n: u32)
    requires short { (10 ≤ n) × (n < 100) }
    requires room { vec_len text.old + 2 ≤ vec_capacity text.old }
    ensures number { text.new.items ≡ text.old.items ++ decimal n }
    ensures len { vec_len text.new ≡ vec_len text.old + 2 }
    ensures room { vec_capacity text.new ≡ vec_capacity text.old }
{
    put_one(text, n / 10);
    text.push_reserved(digit(n % 10));
}

/// Adds a number of three digits, for which there is room.
#[inline(always)]
#[tactic(auto, using(crate::proofs::ShortNumbers::one_more))]
fn put_three(text: &mut Vec<u8>, n: u32)
    requires short { (100 ≤ n) × (n < 1000) }
    requires room { vec_len text.old + 3 ≤ vec_capacity text.old }
    ensures number { text.new.items ≡ text.old.items ++ decimal n }
    ensures len { vec_len text.new ≡ vec_len text.old + 3 }
    ensures room { vec_capacity text.new ≡ vec_capacity text.old }
{
    put_two(text, n / 10);
    text.push_reserved(digit(n % 10));
}

/// Adds a number of four digits, for which there is room.
#[inline(always)]
#[tactic(auto, using(crate::proofs::ShortNumbers::one_more))]
fn put_four(text: &mut Vec<u8>, n: u32)
    requires short { (1000 ≤ n) × (n < 10000) }
    requires room { vec_len text.old + 4 ≤ vec_capacity text.old }
    ensures number { text.new.items ≡ text.old.items ++ decimal n }
    ensures len { vec_len text.new ≡ vec_len text.old + 4 }
    ensures room { vec_capacity text.new ≡ vec_capacity text.old }
{
    put_three(text, n / 10);
    text.push_reserved(digit(n % 10));
}

/// Adds a number of five digits, for which there is room.
#[inline(always)]
#[tactic(auto, using(crate::proofs::ShortNumbers::one_more))]
fn put_five(text: &mut Vec<u8>, n: u32)
    requires short { (10000 ≤ n) × (n < 100000) }
    requires room { vec_len text.old + 5 ≤ vec_capacity text.old }
    ensures number { text.new.items ≡ text.old.items ++ decimal n }
    ensures len { vec_len text.new ≡ vec_len text.old + 5 }
    ensures room { vec_capacity text.new ≡ vec_capacity text.old }
{
    put_four(text, n / 10);
    text.push_reserved(digit(n % 10));
}

/// Adds a number of at most five digits, for which there is room.
#[inline(always)]
pub(crate) fn put_short(text: &mut Vec<u8>, n: u32)
    requires short { n < SHORT }
    requires room { vec_len text.old + 5 ≤ vec_capacity text.old }
    ensures number { text.new.items ≡ text.old.items ++ decimal n }
    ensures len { vec_len text.new ≤ vec_len text.old + 5 }
    ensures room { vec_capacity text.new ≡ vec_capacity text.old }
{
    if n < 10 {
        put_one(text, n);
    } else if n < 100 {
        put_two(text, n);
    } else if n < 1000 {
        put_three(text, n);
    } else if n < 10_000 {
        put_four(text, n);
    } else {
        put_five(text, n);
    }
}

/// Adds a number in decimal. Most have few digits, and these are put there without a text of their own.
#[inline(always)]
pub fn push_number(text: &mut Vec<u8>, n: u64) -> Result<(), AllocError>
    ensures { OnOk result (text.new.items ≡ text.old.items ++ decimal n) }
{
    if n < SHORT as u64 {
        text.reserve(5)?;
        put_short(text, n as u32);
        return Ok(());
    }
    let mut buffer = Buffer::new();
    text.extend_from_slice(buffer.format(n).as_bytes())
}

/// Adds a number, or that there is none.
#[inline(always)]
fn push_value(text: &mut Vec<u8>, value: Option<u64>) -> Result<(), AllocError>
    ensures { OnOk result (text.new.items ≡ text.old.items ++ value_text value) }
{
    match value {
        Some(n) => {
            text.extend_from_slice(b"value ")?;
            push_number(text, n)
        }
        None => text.extend_from_slice(b"none"),
    }
}

/// Adds a space, and a number or that there is none.
#[inline(always)]
fn push_next_value(text: &mut Vec<u8>, value: Option<u64>) -> Result<(), AllocError>
    ensures { OnOk result (text.new.items ≡ text.old.items ++ codes " " ++ value_text value) }
{
    match value {
        Some(n) => {
            text.extend_from_slice(b" value ")?;
            push_number(text, n)
        }
        None => text.extend_from_slice(b" none"),
    }
}

/// Adds numbers, joined by one space.
fn push_values(text: &mut Vec<u8>, values: &Few<Option<u64>>) -> Result<(), AllocError>
    ensures { OnOk result (text.new.items ≡ text.old.items ++ values_text values.now) }
{
    let Some(first) = values.get(0) else {
        return Ok(());
    };
    push_value(text, first)?;
    for i in 1..values.len() {
        push_next_value(text, values.at(i))?;
    }
    Ok(())
}

impl Printed for KvReply {
    ghost printed = { kv_text };

    fn push_to(&self, text: &mut Vec<u8>) -> Result<(), AllocError> {
        match self {
            KvReply::Done => text.extend_from_slice(b"done"),
            KvReply::Limit => text.extend_from_slice(b"limit"),
            KvReply::Short => text.extend_from_slice(b"short"),
            KvReply::Value(sum) => push_value(text, Some(*sum)),
            KvReply::Values(values) => push_values(text, values),
            KvReply::Found(value) => push_value(text, *value),
        }
    }
}

/// Adds a word that ends with a space, and a number.
#[inline(always)]
fn push_amount(text: &mut Vec<u8>, word: &[u8], amount: u64) -> Result<(), AllocError>
    ensures { OnOk result (text.new.items ≡ text.old.items ++ word.now ++ decimal amount) }
{
    text.extend_from_slice(word)?;
    push_number(text, amount)
}

impl Printed for StockReply {
    ghost printed = { stock_text };

    fn push_to(&self, text: &mut Vec<u8>) -> Result<(), AllocError> {
        match self {
            StockReply::Done => text.extend_from_slice(b"done"),
            StockReply::Limit => text.extend_from_slice(b"limit"),
            StockReply::Exists => text.extend_from_slice(b"exists"),
            StockReply::NoItem => text.extend_from_slice(b"noitem"),
            StockReply::NoCustomer => text.extend_from_slice(b"nocustomer"),
            StockReply::OrderExists => text.extend_from_slice(b"orderexists"),
            StockReply::Short => text.extend_from_slice(b"short"),
            StockReply::Ordered(total) => push_amount(text, b"ordered ", *total),
            StockReply::NothingOpen => text.extend_from_slice(b"nothingopen"),
            StockReply::Poor => text.extend_from_slice(b"poor"),
            StockReply::Settled(total) => push_amount(text, b"settled ", *total),
            StockReply::Cents(balance) => push_amount(text, b"cents ", *balance),
        }
    }
}
