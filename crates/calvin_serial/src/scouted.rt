//! The lines of a serial run whose undeclared sets are scouted.
ghost use Rattle.std.specs.Prelude.{◌≡◌, Ok, IfOk, IsOkAnd, OnOk, IsOkUnless};
ghost use Rattle.calvin_order.specs.Configs.{merged};
ghost use Rattle.calvin_script.specs.Scripts.{contents, requests_at};
ghost use Rattle.calvin_serial.specs.Scouting.{serial_config, scouted_txn, scouted_epoch, RunsOn};

use crate::listed::ListedBatches;
use crate::order::requests_in;
use crate::text::push_request;
use calvin_app::{Answer, Serial, Settles, Table, View, Writes};
use calvin_order::{BatchSource, EpochRequests};
use calvin_recon::settled_sets;
use calvin_script::{Kept, Operation, Script};
use calvin_text::Printed;
use calvin_types::{Fault, Place, Txn};
use std::alloc::Global;

/// A request with the sets that it declares, or else with those that are found over these rows.
fn scouted_txn<A: Settles>(app: &A, rows: &Table<A::Row>, request: &Kept<A::Args>) -> Txn<A::Args>
where
    A::Args: Operation,
    ensures { scouted_txn A.meaning rows.now request.now ≡ Ok result }
{
    let mut txn = request.txn();
    if !request.is_declared() {
        txn.sets = settled_sets(app, &txn.args, rows);
    }
    txn
}

/// The requests of an epoch with their places and sets, over the rows before it.
fn scouted_epoch<A: Settles, B: BatchSource<Kept<A::Args>>>(
    alloc: Global,
    app: &A,
    rows: &Table<A::Row>,
    requests: EpochRequests<'_, Kept<A::Args>, B>,
) -> Result<Vec<(Place, Txn<A::Args>)>, Fault>
where
    A::Args: Operation,
    ensures scouted { IfOk result (λ placed. scouted_epoch A.meaning rows.now requests.entry ≡ Ok placed.items) }
    ensures only { IsOkUnless result Fault.OutOfMemory }
{
    let mut scouted = Vec::new(alloc);
    for (place, request) in requests {
        scouted.push((place, scouted_txn(app, rows, request)))?;
    }
    Ok(scouted)
}

/// Runs the requests of an epoch, and adds a line for each. All their sets are found before the first of them is run.
pub(crate) fn push_scouted<A: Settles, B: BatchSource<Kept<A::Args>>>(
    alloc: Global,
    app: &A,
    store: &mut Serial<A>,
    requests: EpochRequests<'_, Kept<A::Args>, B>,
    text: &mut Vec<u8>,
) -> Result<(), Fault>
where
    A::Args: Operation,
    A::Reply: Printed,
    ensures ok { OnOk result (IsOkAnd (scouted_epoch A.meaning store.old requests.entry) (λ placed.
        RunsOn A.meaning A.Reply.printed placed store.old store.new text.old.items text.new.items)) }
    ensures only { IsOkUnless result Fault.OutOfMemory }
{
    let scouted = scouted_epoch(alloc, app, store.rows(), requests)?;
    let mut seen = View::new();
    let mut answer = Answer::Changed;
    let mut writes = Writes::new();
    for (place, txn) in &scouted {
        push_request(
            store,
            *place,
            txn,
            &mut seen,
            &mut answer,
            &mut writes,
            text,
        )?;
    }
    Ok(())
}

/// Runs the requests of an epoch of a script, and adds a line for each. All their sets are found before the first of them
/// is run.
pub(crate) fn push_scouted_epoch<A: Settles>(
    alloc: Global,
    app: &A,
    store: &mut Serial<A>,
    script: &Script<Kept<A::Args>>,
    epoch: usize,
    text: &mut Vec<u8>,
) -> Result<(), Fault>
where
    A::Args: Operation,
    A::Reply: Printed,
    ensures ok { OnOk result (IsOkAnd (scouted_epoch A.meaning store.old (merged (serial_config (contents script.now)) (requests_at (contents script.now)) epoch)) (λ placed.
        RunsOn A.meaning A.Reply.printed placed store.old store.new text.old.items text.new.items)) }
    ensures only { IsOkUnless result Fault.OutOfMemory }
{
    let listed = ListedBatches { script };
    push_scouted(alloc, app, store, requests_in(&listed, epoch), text)
}
