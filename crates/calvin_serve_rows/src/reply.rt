//! The replies of the application Stock, which are kept where each request's name counts once.
ghost use Rattle.std.specs.Prelude.{◌≡◌, ◌<◌, ◌^◌, IfOk};
ghost use Rattle.std.specs.Option.{ForSome};
ghost use Rattle.serde_json.specs.View.{view};
ghost use Rattle.calvin_serve_rows.specs.OnceForms.{plain_reply, reply_of as spelled_reply};
ghost use Rattle.calvin_serve_rows.specs.Spelled.{parts, reply_data};

use crate::fields::{name_of, number_json};
use calvin_script::one_number;
use calvin_stock::StockReply;
use serde_json::{Value, json};
use std::alloc::{AllocError, Global};

/// The reply of this name that tells no number.
fn plain_reply(name: &str) -> Option<StockReply>
    ensures { result ≡ plain_reply name.now }
{
    match name {
        "done" => Some(StockReply::Done),
        "limit" => Some(StockReply::Limit),
        "exists" => Some(StockReply::Exists),
        "noitem" => Some(StockReply::NoItem),
        "nocustomer" => Some(StockReply::NoCustomer),
        "orderexists" => Some(StockReply::OrderExists),
        "short" => Some(StockReply::Short),
        "nothingopen" => Some(StockReply::NothingOpen),
        "poor" => Some(StockReply::Poor),
        _ => None,
    }
}

/// The reply that a piece of JSON spells.
#[tactic(auto, unfolding(crate::specs::OnceForms::reply_of))]
pub(crate) fn reply_of(value: &Value) -> Option<StockReply>
    ensures { result ≡ spelled_reply (view value.now) }
{
    match name_of(value)? {
        "ordered" => one_number(value).map(StockReply::Ordered),
        "settled" => one_number(value).map(StockReply::Settled),
        "cents" => one_number(value).map(StockReply::Cents),
        name => {
            if value.get(1).is_some() {
                return None;
            }
            plain_reply(name)
        }
    }
}

/// The name of a reply, and the number that it tells.
fn parts_of(reply: &StockReply) -> (&'static str, Option<u64>)
    ensures name { result.0.now ≡ (parts reply.now).0 }
    ensures number { result.1 ≡ (parts reply.now).1 }
{
    match reply {
        StockReply::Done => ("done", None),
        StockReply::Limit => ("limit", None),
        StockReply::Exists => ("exists", None),
        StockReply::NoItem => ("noitem", None),
        StockReply::NoCustomer => ("nocustomer", None),
        StockReply::OrderExists => ("orderexists", None),
        StockReply::Short => ("short", None),
        StockReply::Ordered(total) => ("ordered", Some(*total)),
        StockReply::NothingOpen => ("nothingopen", None),
        StockReply::Poor => ("poor", None),
        StockReply::Settled(total) => ("settled", Some(*total)),
        StockReply::Cents(balance) => ("cents", Some(*balance)),
    }
}

/// A reply as JSON. The number that it tells is below 2^64.
pub(crate) fn reply_json(alloc: Global, reply: &StockReply) -> Result<Value, AllocError>
    ensures data { IfOk result (λ v. view v ≡ reply_data reply.now) }
    ensures small { ForSome (parts reply.now).1 (λ n. n < 2 ^ 64) }
{
    let (name, told) = parts_of(reply);
    match told {
        Some(told) => {
            let number = number_json(told);
            json!(in alloc; [name, number])
        }
        None => json!(in alloc; [name]),
    }
}
