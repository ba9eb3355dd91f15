//! Where rows are looked at.
ghost use Rattle.std.specs.Prelude.{◌≡◌};
ghost use Rattle.std.specs.FinMap as map;
ghost use Rattle.calvin_app.specs.Rows.{Rows, view};

use crate::view::View;
use calvin_types::{Key, KeySet};

/// Rows that can be looked at one by one. Nothing promises that they stay as they are afterwards.
pub trait Look<Row> {
    /// The rows that are shown.
    ghost shown: { Self → Rows Row };

    /// The row of a key, if it has one.
    fn look(&self, key: &Key) -> Option<Row>
        ensures { result ≡ map.get (shown self.now) key.now };
}

/// Puts the rows of some keys into a view that has none yet; keys without a row are left out.
pub fn look_up<Row: Copy, L: Look<Row>>(rows: &L, keys: &KeySet, seen: &mut View<Row>)
    requires { seen.old ≡ map.empty }
    ensures { seen.new ≡ view (L.shown rows.now) keys.now }
{
    for i in 0..keys.len() {
        let key = keys.at(i);
        match rows.look(&key) {
            Some(row) => seen.put(key, row),
            None => {}
        }
    }
}
