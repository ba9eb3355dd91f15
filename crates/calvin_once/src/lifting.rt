//! Rows of before, among which no reply is kept.
ghost use Rattle.std.specs.Prelude.{◌≡◌, None, IfOk, IsOkUnless};
ghost use Rattle.std.specs.FinMap as finmap;
ghost use Rattle.calvin_types.specs.declared.place.RequestId.{RequestId};
ghost use Rattle.calvin_app.specs.Meaning.{AllUpTo};
ghost use Rattle.calvin_app.specs.Rows.{overwritten};
ghost use Rattle.calvin_app.specs.Writing.{keys_of};
ghost use Rattle.calvin_once.specs.Once.{as_rows, inside, kept_at};

use crate::kept::{Keepable, OnceRow};
use calvin_types::{Fault, Key};
use std::alloc::Global;

/// Makes rows of an application to those of `Once` round it. No reply is kept among them, so that each name is new. Their
/// keys are to be in tables up to the application's top one: then they are the rows that it finds within. Refused for want
/// of memory alone.
pub fn lift<A: Keepable>(
    alloc: Global,
    rows: &[(Key, A::Row)],
) -> Result<Vec<(Key, OnceRow<A::Row, A::Reply>)>, Fault>
    ensures rows { IfOk result (λ lifted. lifted.items ≡ as_rows rows.now) }
    ensures new { IfOk result (λ lifted. (id : RequestId) → kept_at A.table_limit (overwritten finmap.empty lifted.items) id ≡ None) }
    ensures within { IfOk result (λ lifted. AllUpTo A.table_limit (keys_of rows.now) → inside A.table_limit (overwritten finmap.empty lifted.items) ≡ overwritten finmap.empty rows.now) }
    ensures only { IsOkUnless result Fault.OutOfMemory }
{
    let mut lifted = Vec::with_capacity(alloc, rows.len())?;
    for &(key, row) in rows {
        lifted.push((key, OnceRow::Row(row)))?;
    }
    Ok(lifted)
}
