//! An order with its lines.
ghost use Rattle.std.specs.Prelude.{◌≡◌, ◌≤◌, ◌↔◌, ◌⊎◌, true, false, length, None, IsTrue, IfSome, IfOk, IfErr, IsErrOf};
ghost use Rattle.std.specs.List.{list_all};
ghost use Rattle.calvin_stock.specs.Lines.{names_item, has_distinct_items, is_in_range, are_in_range, are_lines};

use crate::limits::{MOST_LINES, MOST_PIECES};
use crate::line_list::LineList;
use calvin_types::Fault;

/// So many pieces of the item with this number.
#[derive(Clone, Copy, Debug, PartialEq, Eq)]
pub struct Line {
    pub item: u64,
    pub pieces: u32,
}

/// An order: the number of the customer whose it is, its own number, and its lines in the order in which they were given:
/// one to four, of distinct items, each of 1 to 10^9 pieces. There are no others, as the type says.
#[derive(Clone, Copy, Debug, PartialEq, Eq)]
pub struct Order {
    pub customer: u64,
    pub number: u64,
    pub lines: LineList,
    pub ghost in_range: { IsTrue (are_lines lines) },
}

impl Order {
    /// The order of these lines. Refused with `Repeated` where an item comes twice, and else with `BadConfig` where there
    /// aren't one to four lines, each of 1 to 10^9 pieces. Each line is compared with all that follow it, so who takes
    /// lines from elsewhere looks first whether there are more than `MOST_LINES`.
    pub fn new(customer: u64, number: u64, lines: &[Line]) -> Result<Order, Fault>
        ensures customer { IfOk result (λ o. o.customer ≡ customer) }
        ensures number { IfOk result (λ o. o.number ≡ number) }
        ensures lines { IfOk result (λ o. o.lines ≡ lines.now) }
        ensures repeated { IsErrOf result Fault.Repeated ↔ (has_distinct_items lines.now ≡ false) }
        ensures range { IsErrOf result Fault.BadConfig ↔ ((has_distinct_items lines.now ≡ true) × (are_in_range lines.now ≡ false)) }
        ensures only { IfErr result (λ fault. (fault ≡ Fault.Repeated) ⊎ (fault ≡ Fault.BadConfig)) }
    {
        if !has_distinct_items(lines) {
            return Err(Fault::Repeated);
        }
        if !are_in_range(lines) {
            return Err(Fault::BadConfig);
        }
        Ok(Order {
            customer,
            number,
            lines: lines_of(lines),
        })
    }

    /// The order of these lines, where they are the lines of one; `new` says what is wrong with others.
    pub fn of(customer: u64, number: u64, lines: &LineList) -> Option<Order>
        ensures customer { IfSome result (λ o. o.customer ≡ customer) }
        ensures number { IfSome result (λ o. o.number ≡ number) }
        ensures lines { IfSome result (λ o. o.lines ≡ lines.now) }
        ensures none { result ≡ None ↔ (are_lines lines.now ≡ false) }
    {
        if !are_in_range(lines.as_slice()) || !has_distinct_items(lines.as_slice()) {
            return None;
        }
        Some(Order {
            customer,
            number,
            lines: *lines,
        })
    }
}

/// Whether the pieces of a line are from 1 to 10^9.
fn is_in_range(line: &Line) -> bool
    ensures { result ≡ is_in_range line.now }
{
    1 <= line.pieces && line.pieces as u64 <= MOST_PIECES
}

/// Whether each line is in range.
fn is_each_in_range(lines: &[Line]) -> bool
    ensures { result ≡ list_all is_in_range lines.now }
{
    lines.iter().all(|line| is_in_range(line))
}

/// Whether there are one to four lines, each in range.
fn are_in_range(lines: &[Line]) -> bool
    ensures { result ≡ are_in_range lines.now }
{
    1 <= lines.len() && lines.len() <= MOST_LINES && is_each_in_range(lines)
}

/// Whether a line is of the item.
fn names_item(lines: &[Line], item: u64) -> bool
    ensures { result ≡ names_item lines.now item }
{
    lines.iter().any(|line| line.item == item)
}

/// Whether no item comes twice.
fn has_distinct_items(lines: &[Line]) -> bool
    ensures { result ≡ has_distinct_items lines.now }
{
    for i in 0..lines.len() {
        if names_item(&lines[i + 1..], lines[i].item) {
            return false;
        }
    }
    true
}

/// The same lines in a value that needs no memory of its own.
fn lines_of(lines: &[Line]) -> LineList
    requires { length lines.now ≤ MOST_LINES }
    ensures { result ≡ lines.now }
{
    let mut all = LineList::new();
    for line in lines {
        all.push(*line);
    }
    all
}
