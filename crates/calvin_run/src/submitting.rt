//! The submissions of a script, in a book.
ghost use Rattle.std.specs.Prelude.{◌≡◌, ◌+◌, ◌≤◌, ◌<◌, [], true, ℕ, length, OnOk, IsOkUnless};
ghost use Rattle.calvin_types.specs.declared.limits.TheConstants.{MOST_EPOCHS, MOST_UNDECIDED};
ghost use Rattle.calvin_script.specs.Scripts.{all_listed, are_taken, contents, requests_of};
ghost use Rattle.calvin_book.specs.Books.{world_after};
ghost use Rattle.calvin_sim.specs.Simulations.{submitting, submitting_epoch, submissions, fits, AllTaken};
ghost use Rattle.calvin_sim.specs.Sequencers.{IsOpen, AreOpen};
ghost use Rattle.calvin_run.specs.Growing.{IsGrown};

use calvin_app::App;
use calvin_book::Book;
use calvin_lock::Locks;
use calvin_node::Act;
use calvin_script::{Epoch, Kept, Operation, Script, requests_of};
use calvin_store::Rows;
use calvin_types::{Fault, NodeId};
use calvin_world::Event;

/// The node at which the requests of a group are submitted: that of replica 0.
fn sequencer_of(group: u8) -> NodeId
    ensures { result ≡ record { replica = 0; partition = group } }
{
    NodeId {
        replica: 0,
        partition: group,
    }
}

/// Submits the requests of a batch at the group's node, and closes it there.
fn submit_batch<A: App + Drop, L: Locks + Drop, S: Rows<A::Row> + Drop>(
    book: &mut Book<A, L, S>,
    group: u8,
    requests: &[Kept<A::Args>],
) -> Result<(), Fault>
where
    A::Args: Operation,
    ensures ok { OnOk result (IsGrown A.meaning book.old (submitting group requests.now) book.new) }
    ensures only { (n e : ℕ) → IsOpen (world_after A.meaning book.old.config book.old.events) group n e → are_taken requests.now ≡ true
        → n + length requests.now ≤ MOST_UNDECIDED → e < MOST_EPOCHS → IsOkUnless result Fault.OutOfMemory }
{
    let id = sequencer_of(group);
    for request in requests {
        book.apply(&Event::At(id, Act::Submit(request.txn())))?;
    }
    book.apply(&Event::At(id, Act::Close))
}

/// Submits the batches of an epoch, and closes the epoch for each group.
fn submit_epoch<A: App + Drop, L: Locks + Drop, S: Rows<A::Row> + Drop>(
    book: &mut Book<A, L, S>,
    partitions: u8,
    epoch: &Epoch<Kept<A::Args>>,
) -> Result<(), Fault>
where
    A::Args: Operation,
    ensures ok { OnOk result (IsGrown A.meaning book.old (submitting_epoch partitions (all_listed epoch.now)) book.new) }
    ensures only { (n : ℕ → ℕ) (e : ℕ) → AreOpen (world_after A.meaning book.old.config book.old.events) partitions n e
        → ((g : ℕ) → g < partitions → are_taken (requests_of g (all_listed epoch.now)) ≡ true)
        → ((g : ℕ) → g < partitions → n g + length (requests_of g (all_listed epoch.now)) ≤ MOST_UNDECIDED) → e < MOST_EPOCHS → IsOkUnless result Fault.OutOfMemory }
{
    for group in 0..partitions {
        submit_batch(book, group, requests_of(epoch, group))?;
    }
    Ok(())
}

/// Submits all batches of a script in a new book, epoch by epoch.
pub(crate) fn submit_all<A: App + Drop, L: Locks + Drop, S: Rows<A::Row> + Drop>(
    book: &mut Book<A, L, S>,
    script: &Script<Kept<A::Args>>,
) -> Result<(), Fault>
where
    A::Args: Operation,
    requires new { book.old.events ≡ [] }
    requires there { 0 < book.old.config.replicas }
    requires partitions { book.old.config.partitions ≡ script.now.partitions }
    requires taken { AllTaken (contents script.now) }
    requires fits { fits (contents script.now) ≡ true }
    ensures ok { OnOk result (book.new ≡ record { config = book.old.config; events = submissions (contents script.now) }) }
    ensures only { IsOkUnless result Fault.OutOfMemory }
{
    for epoch in &script.epochs {
        submit_epoch(book, script.partitions, epoch)?;
    }
    Ok(())
}
