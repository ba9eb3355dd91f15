//! The operations of the application Stock.
ghost use Rattle.std.specs.Prelude.{◌≡◌, [], OnSome, IfSome};
ghost use Rattle.calvin_stock.specs.declared.order.Order.{Order};
ghost use Rattle.calvin_stock.specs.declared.request.StockRequest.TheVariants.{AddItem, Restock, Open, PayIn, Order as Ordering, Settle, Balance};
ghost use Rattle.calvin_script.specs.StockOperations.{line, lines, order};
ghost use Rattle.calvin_script_tokens.specs.Spelled.{Spells, SpellsBehind};

use crate::numbers::{one_number, three_numbers, two_numbers};
use crate::operation::OperationTokens;
use crate::tokens::{closes_array, ends_array, is_same, opens_array, string_at, u32_of, u64_of};
use calvin_script::order_of_lines;
use calvin_stock::{Line, LineList, MOST_LINES, Order, StockRequest};
use calvin_types::RequestId;
use json::Reader;

/// A line of an order: an item, and how many pieces of it.
#[tactic(auto, using(crate::proofs::OrderTurns::line_spelled))]
fn line_at(reader: &mut Reader<'_>) -> Option<Line>
    ensures { IfSome result (λ l. Spells line 1 reader.old l reader.new) }
{
    opens_array(reader)?;
    let item = u64_of(reader)?;
    let pieces = u32_of(reader)?;
    closes_array(reader)?;
    Some(Line { item, pieces })
}

/// Adds the lines that the next tokens list, at most four, to a list that has none.
fn read_lines(reader: &mut Reader<'_>, found: &mut LineList) -> Option<()>
    requires { found.old ≡ [] }
    ensures { OnSome result (Spells lines 2 reader.old found.new reader.new) }
{
    opens_array(reader)?;
    'lines: while !ends_array(reader) {
        if found.len() == MOST_LINES {
            return None;
        }
        let line = line_at(reader)?;
        found.push(line);
    }
    Some(())
}

// Each operation is made in a function of its own: one function for all would clear room for all of them for each.

/// A new item.
fn item_of(item: u64, pieces: u64, price: u64) -> StockRequest
    ensures { result ≡ AddItem item pieces price }
{
    StockRequest::AddItem {
        item,
        pieces,
        price,
    }
}

/// More pieces of an item.
fn restock_of(item: u64, pieces: u64) -> StockRequest
    ensures { result ≡ Restock item pieces }
{
    StockRequest::Restock { item, pieces }
}

/// A new customer.
fn customer_of(customer: u64) -> StockRequest
    ensures { result ≡ Open customer }
{
    StockRequest::Open { customer }
}

/// A payment.
fn payment_of(customer: u64, cents: u64) -> StockRequest
    ensures { result ≡ PayIn customer cents }
{
    StockRequest::PayIn { customer, cents }
}

/// The order itself.
fn placing_of(order: Order) -> StockRequest
    ensures { result ≡ Ordering order }
{
    StockRequest::Order(order)
}

/// A settlement.
fn settlement_of(customer: u64) -> StockRequest
    ensures { result ≡ Settle customer }
{
    StockRequest::Settle { customer }
}

/// The question for a balance.
fn balance_of(customer: u64) -> StockRequest
    ensures { result ≡ Balance customer }
{
    StockRequest::Balance { customer }
}

/// Becomes the order that the items behind the name of an operation spell. It stands apart, so that what reads other
/// operations stays small enough to be put in its caller, and makes no room for an order.
#[inline(never)]
fn read_order(op: &mut StockRequest, reader: &mut Reader<'_>) -> Option<()>
    ensures { OnSome result ((o : Order) × (op.new ≡ Ordering o) × SpellsBehind order 2 reader.old o reader.new) }
{
    let customer = u64_of(reader)?;
    let number = u64_of(reader)?;
    let mut lines = LineList::new();
    read_lines(reader, &mut lines)?;
    closes_array(reader)?;
    let order = order_of_lines(customer, number, &lines)?;
    *op = placing_of(order);
    Some(())
}

impl OperationTokens for StockRequest {
    // The names are tried as often as they may be expected.
    fn read_tokens(&mut self, reader: &mut Reader<'_>) -> Option<()> {
        opens_array(reader)?;
        let name = string_at(reader)?;
        if is_same(name, "order") {
            read_order(self, reader)?;
        } else if is_same(name, "payin") {
            let (customer, cents) = two_numbers(reader)?;
            *self = payment_of(customer, cents);
        } else if is_same(name, "settle") {
            let customer = one_number(reader)?;
            *self = settlement_of(customer);
        } else if is_same(name, "restock") {
            let (item, pieces) = two_numbers(reader)?;
            *self = restock_of(item, pieces);
        } else if is_same(name, "balance") {
            let customer = one_number(reader)?;
            *self = balance_of(customer);
        } else if is_same(name, "additem") {
            let (item, pieces, price) = three_numbers(reader)?;
            *self = item_of(item, pieces, price);
        } else if is_same(name, "open") {
            let customer = one_number(reader)?;
            *self = customer_of(customer);
        } else {
            return None;
        }
        Some(())
    }

    fn give_name(&mut self, _id: RequestId) -> Option<()> {
        Some(())
    }
}
