//! Rows that a keeper holds, to be looked at.
ghost use Rattle.std.specs.Prelude.{◌≡◌};
ghost use Rattle.std.specs.FinMap as map;
ghost use Rattle.calvin_app.specs.Rows.{part};

use calvin_app::Look;
use calvin_store::Rows;
use calvin_types::{Config, Key};

/// The rows of a keeper that a partition stores: a key that is stored elsewhere has none.
#[derive(Drop)]
pub struct Reading<'a, S> {
    pub rows: &'a S,
    pub config: &'a Config,
    pub partition: u8,
}

impl<'a, Row: Copy, S: Rows<Row>> Look<Row> for Reading<'a, S> {
    ghost shown = { λ r. part r.config.now.partitions r.partition (S.store r.rows.now).map };

    fn look(&self, key: &Key) -> Option<Row> {
        if self.config.partition_of(key) != self.partition {
            return None;
        }
        self.rows.get(key)
    }
}
