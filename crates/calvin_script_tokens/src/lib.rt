//! Scripts read straight from the tokens of JSON, where they are written as usual. What a script is stays what
//! `serde_json`'s reading says: every other text is read by `calvin_script`.
#![tactic(auto)]

mod batch;
mod keys;
mod kv;
mod list;
mod numbers;
mod object;
mod once;
mod operation;
mod request;
mod script;
mod stock;
mod texts;
mod tokens;
mod usual;

pub use json::Scratch;
pub use keys::{KeyTokens, read_key_set};
pub use list::{Piece, list_of};
pub use numbers::one_number;
pub use object::{Object, read_object};
pub use operation::OperationTokens;
pub use request::request_at;
pub use script::{script_from, text_of, usual_script};
pub use tokens::{
    between, closes_array, ends_array, epoch_value, is_same, number, opens_array, string_at,
    u8_value, u32_value,
};
pub use usual::read_script;
