//! The rows of the application within, and what it does among kept replies.
ghost use Rattle.std.specs.Prelude.{◌≡◌, ◌+◌, ◌<◌, ◌≤◌, false, [], ◌∷◌, ◌++◌};
ghost use Rattle.std.specs.FinMap as finmap;
ghost use Rattle.calvin_types.specs.Keys.{has};
ghost use Rattle.calvin_app.specs.Writing.{keys_of};
ghost use Rattle.calvin_once.specs.Once.{inside, with_inner, as_reply, as_rows, IsAmongFew};
ghost use Rattle.calvin_once.specs.declared.kept.OnceRow.TheVariants as kept;

use crate::kept::OnceRow;
use calvin_app::{View, Writes};
use calvin_types::Key;

/// Puts the rows of the application within, those of tables up to the top one, into a view that has none yet.
pub(crate) fn add_inside<Row: Copy, Reply: Copy>(
    view: &View<OnceRow<Row, Reply>>,
    top: u8,
    rows: &mut View<Row>,
)
    requires { rows.old ≡ finmap.empty }
    ensures { rows.new ≡ inside top view.now }
{
    for i in 0..view.len() {
        let (key, found) = view.at(i);
        put_inner(rows, top, key, found);
    }
}

/// Puts a row in if it is one of the application within.
fn put_inner<Row: Copy, Reply: Copy>(
    rows: &mut View<Row>,
    top: u8,
    key: Key,
    found: OnceRow<Row, Reply>,
)
    requires { finmap.len rows.old < 16 }
    ensures rows { rows.new ≡ with_inner top (key, found) rows.old }
    ensures few { finmap.len rows.new ≤ finmap.len rows.old + 1 }
{
    let OnceRow::Row(row) = found else {
        return;
    };
    if key.table > top {
        return;
    }
    rows.put(key, row);
}

/// The reply that is kept, if it is one.
pub(crate) fn as_reply<Row: Copy, Reply: Copy>(found: Option<OnceRow<Row, Reply>>) -> Option<Reply>
    ensures { result ≡ as_reply found }
{
    match found {
        Some(OnceRow::Reply(reply)) => Some(reply),
        _ => None,
    }
}

/// Adds the writes of the application within, and the reply to be kept, to writes that are none yet.
pub(crate) fn keep<Row: Copy, Reply: Copy>(
    done: &Writes<Row>,
    key: Key,
    reply: Reply,
    writes: &mut Writes<OnceRow<Row, Reply>>,
)
    requires none { writes.old ≡ [] }
    requires among { IsAmongFew (keys_of done.now) }
    requires absent { has (keys_of done.now) key ≡ false }
    ensures { writes.new ≡ as_rows done.now ++ (key, kept.Reply reply) ∷ [] }
{
    for i in 0..done.len() {
        let (other, row) = done.at(i);
        writes.push(other, OnceRow::Row(row));
    }
    writes.push(key, OnceRow::Reply(reply));
}
