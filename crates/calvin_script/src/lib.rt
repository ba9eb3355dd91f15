//! The scripts that the bytes of JSON spell: epochs of batches of requests, for any application that says how its own
//! operations are written. It alone has `serde_json` read bytes; crates above it look into what that gives.
#![tactic(auto)]

mod contents;
mod fields;
mod kept;
mod key_list;
mod kv;
mod list;
mod listing;
mod members;
mod numbers;
mod once;
mod operation;
mod reading;
mod request;
mod script;
mod stock;

pub use contents::{Epoch, GroupBatch, Request, Script};
pub use fields::{between, epoch_of, first_woven, has_only, u8_of, u32_of};
pub use kept::Kept;
pub use key_list::{KeyForm, WholeKey, read_key_set};
pub use kv::RowNumber;
pub use list::{Spelled, list_of};
pub use listing::requests_of;
pub use numbers::one_number;
pub use operation::Operation;
pub use reading::{AppName, AppScript, Document, script_from};
pub use stock::order_of_lines;
