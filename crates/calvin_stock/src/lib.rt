//! The application Stock: customers pay in, order items, and settle their orders.
#![tactic(auto)]

mod customers;
mod items;
mod keys;
mod limits;
mod line_list;
mod once;
mod order;
mod placing;
mod reply;
mod request;
mod rows;
mod settling;
mod stock;
mod totals;

pub use limits::{MOST_CENTS, MOST_LINES, MOST_PIECES};
pub use line_list::LineList;
pub use once::stock_once;
pub use order::{Line, Order};
pub use reply::StockReply;
pub use request::StockRequest;
pub use rows::{Customer, Item, Placed, StockRow};
pub use stock::Stock;
pub use totals::{run_on_no_rows, totals_hold};
