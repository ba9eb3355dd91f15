//! What a run of any list keeps: each name has its effect once.
ghost use Rattle.std.specs.Prelude.{◌≡◌, ◌↔◌, ◌⊎◌, false, IfOk, IfErr, IsErrOf};
ghost use Rattle.std.specs.FinMap as finmap;
ghost use Rattle.calvin_types.specs.Keys.{are_distinct};
ghost use Rattle.calvin_app.specs.Rows.{overwritten};
ghost use Rattle.calvin_app.specs.Serial.{serial};
ghost use Rattle.calvin_app.specs.Writing.{keys_of};
ghost use Rattle.calvin_once.specs.Once.{once};
ghost use Rattle.calvin_once.specs.ToldAgain.{ToldAgain, NewUntilTold};

use crate::kept::{Keepable, Named, OnceRow};
use crate::once::Once;
use calvin_app::{Answer, Serial};
use calvin_types::{Fault, Key, Txn};
use std::alloc::Global;

/// Runs requests one after another on these rows, be they none, lifted ones or those of another run: the rows after the
/// last one, and the answer to each. Once a name was answered with a reply, each later request of that name writes nothing,
/// and is answered with the same reply, or `Changed` where its declared sets aren't those that it needs. `Changed` isn't
/// kept: a name to which it was the only answer is as new as it was. Refused with `Repeated` where a key comes twice, and
/// else for want of memory.
pub fn run_on<A: Keepable + Drop>(
    alloc: Global,
    app: Once<A>,
    rows: &[(Key, OnceRow<A::Row, A::Reply>)],
    txns: &[Txn<Named<A::Args>>],
) -> Result<(Serial<Once<A>>, Vec<Answer<A::Reply>>), Fault>
    ensures rows { IfOk result (λ r. r.0 ≡ (serial (once A.meaning A.key_limit A.table_limit) txns.now (overwritten finmap.empty rows.now)).0) }
    ensures answers { IfOk result (λ r. r.1.items ≡ (serial (once A.meaning A.key_limit A.table_limit) txns.now (overwritten finmap.empty rows.now)).1) }
    ensures again { IfOk result (λ r. ToldAgain (once A.meaning A.key_limit A.table_limit) txns.now (overwritten finmap.empty rows.now) r.1.items) }
    ensures new { IfOk result (λ r. NewUntilTold (once A.meaning A.key_limit A.table_limit) A.table_limit txns.now (overwritten finmap.empty rows.now) r.1.items) }
    ensures repeated { IsErrOf result Fault.Repeated ↔ (are_distinct (keys_of rows.now) ≡ false) }
    ensures only { IfErr result (λ fault. (fault ≡ Fault.OutOfMemory) ⊎ (fault ≡ Fault.Repeated)) }
{
    let mut run = Serial::from_rows(alloc, app, rows)?;
    let mut answers = Vec::new(alloc);
    for txn in txns {
        answers.push(run.apply(txn)?)?;
    }
    Ok((run, answers))
}
