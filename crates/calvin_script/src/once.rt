//! The operations of the application Stock, each request's name once.
use crate::operation::Operation;
use calvin_once::Named;
use calvin_stock::{StockRequest, stock_once};
use calvin_types::{KeySet, RequestId, Sets};
use serde_json::Value;

impl Operation for Named<StockRequest> {
    ghost use Rattle.calvin_script.specs.OnceOperations.{once_grammar};

    ghost grammar = { once_grammar };

    fn app_name() -> &'static str {
        "once"
    }

    fn blank() -> Named<StockRequest> {
        let id = RequestId {
            client: 0,
            number: 0,
        };
        Named {
            id,
            args: StockRequest::blank(),
        }
    }

    fn read(&mut self, id: RequestId, value: &Value) -> Option<()> {
        self.id = id;
        self.args.read(id, value)
    }

    fn add_first_sets(&self, sets: &mut Sets) {
        self.args.add_first_sets(sets);
        let key = stock_once().kept_key(self.id);
        sets.reads.grow(key);
        sets.writes.grow(key);
    }

    fn add_first_reads(&self, reads: &mut KeySet) {
        self.args.add_first_reads(reads);
        reads.grow(stock_once().kept_key(self.id));
    }

    // Each has at least the key of its kept reply.
    fn has_first_key(&self) -> bool {
        true
    }

    fn complete(&self, sets: &mut Sets) -> Option<()> {
        let key = stock_once().kept_key(self.id);
        sets.reads.insert(key).ok()?;
        sets.writes.insert(key).ok()?;
        Some(())
    }
}
