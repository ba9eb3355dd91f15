//! The application: customers in table 1, items in table 2, orders in table 3.
ghost use Rattle.std.specs.Prelude.{◌≡◌, []};
ghost use Rattle.std.proofs.Common.{lit<};
ghost use Rattle.calvin_stock.specs.Stock.{stock, is_dependent};
ghost use Rattle.calvin_stock.specs.StockLaws.{stock_lawful, stock_settles};
ghost use Rattle.calvin_stock.specs.StockExact.{requests_exact, rows_exact, replies_exact};

use crate::customers::{open_customer, pay_in, tell_balance};
use crate::items::{add_item, restock};
use crate::keys::{customer_in, customer_key, item_in, item_key};
use crate::placing::place;
use crate::reply::StockReply;
use crate::request::StockRequest;
use crate::rows::StockRow;
use crate::settling::settle;
use calvin_app::{Answer, App, Settles, View, Writes};
use calvin_types::{KeySet, Sets};

/// The application, which keeps nothing itself: customers, items and orders are its rows.
#[derive(Clone, Copy, Debug)]
pub struct Stock;

/// Replies to a request, and adds what it writes.
#[inline(always)]
fn reply_to(args: &StockRequest, view: &View<StockRow>, writes: &mut Writes<StockRow>) -> StockReply
    requires { writes.old ≡ [] }
    ensures { (result, writes.new) ≡ stock.outcome args.now view.now }
{
    match args {
        StockRequest::AddItem {
            item,
            pieces,
            price,
        } => {
            let there = view.get(&item_key(*item));
            add_item(*item, *pieces, *price, there, writes)
        }
        StockRequest::Restock { item, pieces } => {
            restock(*item, *pieces, item_in(view, *item), writes)
        }
        StockRequest::Open { customer } => {
            let there = view.get(&customer_key(*customer));
            open_customer(*customer, there, writes)
        }
        StockRequest::PayIn { customer, cents } => {
            pay_in(*customer, *cents, customer_in(view, *customer), writes)
        }
        StockRequest::Order(order) => place(order, view, writes),
        StockRequest::Settle { customer } => settle(*customer, view, writes),
        StockRequest::Balance { customer } => tell_balance(customer_in(view, *customer)),
    }
}

impl App for Stock {
    type Args = StockRequest;

    type Row = StockRow;

    type Reply = StockReply;

    ghost meaning = { stock };

    ghost is_dependent = { is_dependent };

    ghost key_limit = { 6 };

    ghost table_limit = { 3 };

    // Four items, the order and its customer.
    fn most_keys(&self) -> usize {
        6
    }

    fn top_table(&self) -> u8 {
        3
    }

    fn dependent(&self, args: &StockRequest) -> bool {
        matches!(args, StockRequest::Settle { .. })
    }

    fn sets(&self, args: &StockRequest, view: &View<StockRow>) -> Sets {
        let mut sets = Sets {
            reads: KeySet::new(),
            writes: KeySet::new(),
        };
        args.add_needs(view, &mut sets);
        sets
    }

    fn needs_only(&self, args: &StockRequest, view: &View<StockRow>, sets: &Sets) -> bool {
        args.needs_only(view, sets)
    }

    fn run(&self, args: &StockRequest, view: &View<StockRow>) -> (StockReply, Writes<StockRow>) {
        let mut writes = Writes::new();
        let reply = reply_to(args, view, &mut writes);
        (reply, writes)
    }

    fn run_into(
        &self,
        args: &StockRequest,
        view: &View<StockRow>,
        answer: &mut Answer<StockReply>,
        writes: &mut Writes<StockRow>,
    ) {
        *answer = Answer::Reply(reply_to(args, view, writes));
    }

    ghost lawful = { stock_lawful };

    ghost rows_fit = { lit< tt };

    ghost job_fits = { lit< tt };

    ghost work_fits = { lit< tt };

    ghost args_exact = { requests_exact };

    ghost rows_exact = { rows_exact };

    ghost replies_exact = { replies_exact };
}

impl Settles for Stock {
    ghost settles = { stock_settles };
}
