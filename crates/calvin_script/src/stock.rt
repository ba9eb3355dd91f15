//! The operations of the application Stock.
ghost use Rattle.std.specs.Prelude.{◌≡◌, option_map};
ghost use Rattle.serde_json.specs.View.{view};
ghost use Rattle.calvin_script.specs.StockOperations.{line, lines, order, order_of_lines, additem, restock, open_of, payin, settle, balance, stock_operation};

use crate::fields::{u32_of, u64_of};
use crate::numbers::{one_number, three_numbers, two_numbers};
use crate::operation::Operation;
use calvin_stock::{Line, LineList, MOST_LINES, Order, StockRequest};
use calvin_types::{KeySet, RequestId, Sets};
use serde_json::Value;

/// A line of an order: an item, and how many pieces of it.
#[tactic(auto, unfolding(crate::specs::StockOperations::line))]
fn line_of(value: &Value) -> Option<Line>
    ensures { result ≡ line (view value.now) }
{
    if value.get(2).is_some() {
        return None;
    }
    let item = u64_of(value.get(0)?)?;
    let pieces = u32_of(value.get(1)?)?;
    Some(Line { item, pieces })
}

/// The lines of a list, at most four.
#[tactic(auto, unfolding(crate::specs::StockOperations::lines), using(crate::proofs::OrderLines::lines_begin, crate::proofs::OrderLines::lines_more, crate::proofs::OrderLines::lines_refused, crate::proofs::OrderLines::lines_end, crate::proofs::OrderLines::lines_too_many))]
fn lines_of(value: &Value) -> Option<LineList>
    ensures { result ≡ lines (view value.now) }
{
    let items = value.as_array()?;
    if items.len() > MOST_LINES {
        return None;
    }
    let mut found = LineList::new();
    for item in items {
        let line = line_of(item)?;
        found.push(line);
    }
    Some(found)
}

/// The order with these lines, where they are the lines of one.
pub fn order_of_lines(customer: u64, number: u64, lines: &LineList) -> Option<Order>
    ensures { result ≡ order_of_lines customer number lines.now }
{
    Order::of(customer, number, lines)
}

/// The order that the items behind the name of an operation spell.
#[tactic(auto, unfolding(crate::specs::StockOperations::order))]
fn order_of(value: &Value) -> Option<Order>
    ensures { result ≡ order (view value.now) }
{
    if value.get(4).is_some() {
        return None;
    }
    let customer = u64_of(value.get(1)?)?;
    let number = u64_of(value.get(2)?)?;
    let lines = lines_of(value.get(3)?)?;
    order_of_lines(customer, number, &lines)
}

/// What the items behind the name `additem` spell.
#[tactic(auto, unfolding(crate::specs::StockOperations::additem))]
fn new_item_of(value: &Value) -> Option<StockRequest>
    ensures { result ≡ additem (view value.now) }
{
    let (item, pieces, price) = three_numbers(value)?;
    Some(StockRequest::AddItem {
        item,
        pieces,
        price,
    })
}

/// What the items behind the name `restock` spell.
#[tactic(auto, unfolding(crate::specs::StockOperations::restock))]
fn restock_of(value: &Value) -> Option<StockRequest>
    ensures { result ≡ restock (view value.now) }
{
    let (item, pieces) = two_numbers(value)?;
    Some(StockRequest::Restock { item, pieces })
}

/// What the items behind the name `open` spell.
#[tactic(auto, unfolding(crate::specs::StockOperations::open_of))]
fn open_of(value: &Value) -> Option<StockRequest>
    ensures { result ≡ open_of (view value.now) }
{
    let customer = one_number(value)?;
    Some(StockRequest::Open { customer })
}

/// What the items behind the name `payin` spell.
#[tactic(auto, unfolding(crate::specs::StockOperations::payin))]
fn payment_of(value: &Value) -> Option<StockRequest>
    ensures { result ≡ payin (view value.now) }
{
    let (customer, cents) = two_numbers(value)?;
    Some(StockRequest::PayIn { customer, cents })
}

/// What the items behind the name `settle` spell.
#[tactic(auto, unfolding(crate::specs::StockOperations::settle))]
fn settlement_of(value: &Value) -> Option<StockRequest>
    ensures { result ≡ settle (view value.now) }
{
    let customer = one_number(value)?;
    Some(StockRequest::Settle { customer })
}

/// What the items behind the name `balance` spell.
#[tactic(auto, unfolding(crate::specs::StockOperations::balance))]
fn balance_of(value: &Value) -> Option<StockRequest>
    ensures { result ≡ balance (view value.now) }
{
    let customer = one_number(value)?;
    Some(StockRequest::Balance { customer })
}

/// The operation that a list of a name and what stands behind it spells.
#[tactic(auto, unfolding(crate::specs::StockOperations::stock_operation))]
fn operation_of(value: &Value) -> Option<StockRequest>
    ensures { result ≡ stock_operation (view value.now) }
{
    let name = value.get(0)?.as_str()?;
    match name {
        "additem" => new_item_of(value),
        "restock" => restock_of(value),
        "open" => open_of(value),
        "payin" => payment_of(value),
        "order" => order_of(value).map(StockRequest::Order),
        "settle" => settlement_of(value),
        "balance" => balance_of(value),
        _ => None,
    }
}

impl Operation for StockRequest {
    ghost use Rattle.calvin_script.specs.StockOperations.{stock_grammar};

    ghost grammar = { stock_grammar };

    fn app_name() -> &'static str {
        "stock"
    }

    fn blank() -> StockRequest {
        StockRequest::Balance { customer: 0 }
    }

    fn read(&mut self, _id: RequestId, value: &Value) -> Option<()> {
        *self = operation_of(value)?;
        Some(())
    }

    fn add_first_sets(&self, sets: &mut Sets) {
        self.add_first_needs(sets);
    }

    fn add_first_reads(&self, reads: &mut KeySet) {
        self.add_needed_reads(reads);
    }

    // Each operation has an item or a customer.
    #[tactic(auto, using(crate::proofs::StockKeys::first_key))]
    fn has_first_key(&self) -> bool {
        true
    }

    fn complete(&self, _sets: &mut Sets) -> Option<()> {
        Some(())
    }
}
