//! The rows of the application Stock, each request's name once.
ghost use Rattle.std.specs.Prelude.{◌≡◌, ◌<◌, ◌^◌, IfOk};
ghost use Rattle.std.specs.Option.{ForSome};
ghost use Rattle.serde_json.specs.View.{view};
ghost use Rattle.calvin_serve_rows.specs.OnceForms.{kept_reply};
ghost use Rattle.calvin_serve_rows.specs.Spelled.{parts, kept_data};

use crate::fields::name_of;
use crate::reply::{reply_json, reply_of};
use crate::stored::StoredRow;
use calvin_once::OnceRow;
use calvin_stock::{StockReply, StockRow};
use serde_json::{Value, json};
use std::alloc::{AllocError, Global};

/// The reply that stands behind the name `reply`.
#[tactic(auto, unfolding(crate::specs::OnceForms::kept_reply))]
fn kept_reply_of(value: &Value) -> Option<StockReply>
    ensures { result ≡ kept_reply (view value.now) }
{
    if value.get(2).is_some() {
        return None;
    }
    reply_of(value.get(1)?)
}

/// A kept reply as JSON. The number that it tells is below 2^64.
fn kept_reply_json(alloc: Global, reply: &StockReply) -> Result<Value, AllocError>
    ensures data { IfOk result (λ v. view v ≡ kept_data reply.now) }
    ensures small { ForSome (parts reply.now).1 (λ n. n < 2 ^ 64) }
{
    let told = reply_json(alloc, reply)?;
    json!(in alloc; ["reply", told])
}

impl StoredRow for OnceRow<StockRow, StockReply> {
    ghost use Rattle.calvin_serve_rows.specs.OnceForms.{once_row};

    ghost form = { once_row };

    #[tactic(auto, unfolding(crate::specs::OnceForms::once_row))]
    fn of_json(value: &Value) -> Option<OnceRow<StockRow, StockReply>> {
        if name_of(value)? == "reply" {
            return kept_reply_of(value).map(OnceRow::Reply);
        }
        StockRow::of_json(value).map(OnceRow::Row)
    }

    fn to_json(&self, alloc: Global) -> Result<Value, AllocError> {
        match self {
            OnceRow::Row(row) => row.to_json(alloc),
            OnceRow::Reply(reply) => kept_reply_json(alloc, reply),
        }
    }
}
