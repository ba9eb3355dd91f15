//! The lines of a serial run.
ghost use Rattle.std.specs.Prelude.{◌≡◌, ◌<◌, ◌++◌, OnOk, IsOkUnless, length, map};
ghost use Rattle.calvin_app.specs.Serial.{answer_one, after_one};
ghost use Rattle.calvin_order.specs.Configs.{merged};
ghost use Rattle.calvin_script.specs.Scripts.{contents, batch_at};
ghost use Rattle.calvin_text.specs.Texts.{line};
ghost use Rattle.calvin_serial.specs.FirstSets.{NeedsFirst};
ghost use Rattle.calvin_serial.specs.Scouting.{serial_config, placed_txn, RunsOn};

use crate::listed::ListedBatches;
use crate::order::{is_woven, joined_requests, requests_in};
use calvin_app::{Answer, App, Serial, View, Writes};
use calvin_order::{BatchSource, EpochRequests};
use calvin_script::{Kept, Operation, Script};
use calvin_text::{Printed, push_line};
use calvin_types::{Fault, KeySet, Place, Sets, Txn};

/// Runs one request, and adds its line.
#[tactic(auto, unfolding(calvin_app::specs::Serial::answer_on, calvin_app::specs::Serial::writes_on))]
pub(crate) fn push_request<A: App>(
    store: &mut Serial<A>,
    place: Place,
    txn: &Txn<A::Args>,
    seen: &mut View<A::Row>,
    answer: &mut Answer<A::Reply>,
    writes: &mut Writes<A::Row>,
    text: &mut Vec<u8>,
) -> Result<(), Fault>
where
    A::Reply: Printed,
    ensures line { OnOk result (text.new.items ≡ text.old.items ++ line A.Reply.printed place txn.now.id (answer_one A.meaning txn.now store.old)) }
    ensures rows { OnOk result (store.new ≡ after_one A.meaning txn.now store.old) }
    ensures only { IsOkUnless result Fault.OutOfMemory }
{
    store.apply_into(txn, seen, answer, writes)?;
    push_line(text, place, txn.id, answer)?;
    Ok(())
}

/// Runs one request of a script where it stands. The sets that it needs for that come in place of those that are there:
/// where they weren't declared and don't depend on rows, the keys that it reads alone.
#[inline(always)]
#[tactic(auto, unfolding(calvin_app::specs::Serial::answer_on, calvin_app::specs::Serial::writes_on))]
fn apply_kept<A: App>(
    store: &mut Serial<A>,
    kept: &Kept<A::Args>,
    sets: &mut Sets,
    seen: &mut View<A::Row>,
    answer: &mut Answer<A::Reply>,
    writes: &mut Writes<A::Row>,
) -> Result<(), Fault>
where
    A::Args: Operation,
    requires first { NeedsFirst A.Args.grammar A.meaning }
    ensures answer { OnOk result (answer.new ≡ answer_one A.meaning kept.now.txn store.old) }
    ensures rows { OnOk result (store.new ≡ after_one A.meaning kept.now.txn store.old) }
    ensures only { IsOkUnless result Fault.OutOfMemory }
{
    if kept.is_declared() || store.is_dependent(kept.args()) {
        kept.put_sets(sets);
        store.apply_parts(kept.args(), sets, seen, answer, writes)?;
        return Ok(());
    }
    kept.put_reads(&mut sets.reads);
    store.apply_first(kept.args(), &sets.reads, seen, answer, writes)?;
    Ok(())
}

/// Runs one request of a script where it stands, and adds its line.
#[inline(always)]
fn push_kept<A: App>(
    store: &mut Serial<A>,
    place: Place,
    kept: &Kept<A::Args>,
    sets: &mut Sets,
    seen: &mut View<A::Row>,
    answer: &mut Answer<A::Reply>,
    writes: &mut Writes<A::Row>,
    text: &mut Vec<u8>,
) -> Result<(), Fault>
where
    A::Args: Operation,
    A::Reply: Printed,
    requires first { NeedsFirst A.Args.grammar A.meaning }
    ensures line { OnOk result (text.new.items ≡ text.old.items ++ line A.Reply.printed place kept.now.txn.id (answer_one A.meaning kept.now.txn store.old)) }
    ensures rows { OnOk result (store.new ≡ after_one A.meaning kept.now.txn store.old) }
    ensures only { IsOkUnless result Fault.OutOfMemory }
{
    apply_kept(store, kept, sets, seen, answer, writes)?;
    push_line(text, place, kept.id(), answer)?;
    Ok(())
}

/// Runs requests where they stand, one after another, and adds a line for each.
#[inline(always)]
pub(crate) fn push_requests<A: App, B: BatchSource<Kept<A::Args>>>(
    store: &mut Serial<A>,
    requests: EpochRequests<'_, Kept<A::Args>, B>,
    seen: &mut View<A::Row>,
    answer: &mut Answer<A::Reply>,
    writes: &mut Writes<A::Row>,
    text: &mut Vec<u8>,
) -> Result<(), Fault>
where
    A::Args: Operation,
    A::Reply: Printed,
    requires first { NeedsFirst A.Args.grammar A.meaning }
    ensures ok { OnOk result (RunsOn A.meaning A.Reply.printed (map placed_txn requests.entry)
        store.old store.new text.old.items text.new.items) }
    ensures only { IsOkUnless result Fault.OutOfMemory }
{
    let mut sets = Sets {
        reads: KeySet::new(),
        writes: KeySet::new(),
    };
    for (place, kept) in requests {
        push_kept(store, place, kept, &mut sets, seen, answer, writes, text)?;
    }
    Ok(())
}

/// Runs the requests of an epoch of a script, as they stand there, and adds a line for each. One place for sets, one view,
/// one answer and one place for writes serve all requests.
pub(crate) fn push_epoch<A: App>(
    store: &mut Serial<A>,
    script: &Script<Kept<A::Args>>,
    epoch: usize,
    seen: &mut View<A::Row>,
    answer: &mut Answer<A::Reply>,
    writes: &mut Writes<A::Row>,
    text: &mut Vec<u8>,
) -> Result<(), Fault>
where
    A::Args: Operation,
    A::Reply: Printed,
    requires first { NeedsFirst A.Args.grammar A.meaning }
    requires within { epoch < length script.now.epochs.items }
    ensures ok { OnOk result (RunsOn A.meaning A.Reply.printed (merged (serial_config (contents script.now)) (batch_at (contents script.now)) epoch)
        store.old store.new text.old.items text.new.items) }
    ensures only { IsOkUnless result Fault.OutOfMemory }
{
    if script.epochs[epoch].batches.is_empty() {
        return Ok(());
    }
    let listed = ListedBatches { script };
    if is_woven(script, epoch) {
        let requests = requests_in(&listed, epoch);
        return push_requests(store, requests, seen, answer, writes, text);
    }
    let requests = joined_requests(&listed, epoch);
    push_requests(store, requests, seen, answer, writes, text)
}
