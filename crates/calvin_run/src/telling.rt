//! What is told of a run.
ghost use Rattle.std.specs.Prelude.{◌≡◌, ◌<◌, ◌≤◌, false, true, IfOk, IfErr, IsOkUnless};
ghost use Rattle.calvin_types.specs.Limits.{IsInRange};
ghost use Rattle.calvin_order.specs.Configs.{over, store_config};
ghost use Rattle.calvin_script.specs.Scripts.{contents};
ghost use Rattle.calvin_book.specs.Books.{world_after};
ghost use Rattle.calvin_sim.specs.Simulations.{submissions, fits, AllTaken};
ghost use Rattle.calvin_sim.specs.Telling.{IsTold};
ghost use Rattle.calvin_run.specs.Engine.{Begins, IsClusterFault};

use crate::outside::Outside;
use crate::running::bring_on;
use crate::submitting::submit_all;
use crate::team::Team;
use calvin_app::App;
use calvin_book::Book;
use calvin_cluster::Gate;
use calvin_lock::Locks;
use calvin_report::{Epochs, finished, push_replies, replies_of, told_is_serial};
use calvin_script::{Kept, Operation, Script};
use calvin_store::Rows;
use calvin_text::{Printed, push_last};
use calvin_types::Fault;
use calvin_wide::opened_for;
use calvin_wide_run::bring_on_wide;
use std::alloc::Global;
use std::marker::Brand;
use std::sync::Wait;
use std::thread::Threads;

/// The lines of the replies of the epochs up to the last one at whose end every node stands, and that epoch: they are those of the
/// serial run of the batches that were chosen. Refused with `OutOfMemory` alone.
fn text_of<A: App + Drop, L: Locks + Drop, S: Rows<A::Row> + Drop>(
    alloc: Global,
    book: &Book<A, L, S>,
) -> Result<Vec<u8>, Fault>
where
    A::Reply: Printed,
    ensures told { IfOk result (λ text. IsTold A.meaning A.Reply.printed (world_after A.meaning book.now.config book.now.events) text.items) }
    ensures only { IsOkUnless result Fault.OutOfMemory }
{
    told_is_serial::<A>();
    let world = book.world();
    let last = finished(world);
    let replies = replies_of(alloc, world.packets())?;
    let mut text = Vec::new(alloc);
    push_replies(&mut text, &replies, Epochs::UpTo(last))?;
    push_last(&mut text, last)?;
    Ok(text)
}

/// A new book in which all batches of a script are submitted and closed. Refused with `OutOfMemory` alone.
fn submitted<A: App + Drop, L: Locks + Drop, S: Rows<A::Row> + Drop>(
    alloc: Global,
    app: A,
    script: &Script<Kept<A::Args>>,
    replicas: u8,
) -> Result<Book<A, L, S>, Fault>
where
    A::Args: Operation,
    requires in_range { IsInRange script.now.partitions replicas }
    requires taken { AllTaken (contents script.now) }
    requires fits { fits (contents script.now) ≡ true }
    ensures config { IfOk result (λ b. b.config ≡ over (store_config script.now.partitions replicas 0 script.now.woven_from) S.points S.cold) }
    ensures events { IfOk result (λ b. b.events ≡ submissions (contents script.now)) }
    ensures only { IsOkUnless result Fault.OutOfMemory }
{
    let config = script.config(replicas);
    let mut book = Book::<A, L, S>::new(alloc, &config, app)?;
    match submit_all(&mut book, script) {
        Ok(()) => Ok(book),
        Err(fault) => Err(fault),
    }
}

/// Lets a cluster of a team bring a book to the last of so many epochs, with a lock for each node where the team is wide. Refused as
/// `bring_on` is, or as `bring_on_wide` is.
fn brought_on<A, L, S, G, R>(
    rt: R,
    alloc: Global,
    app: A,
    book: Book<A, L, S>,
    epochs: u64,
    team: &Team,
    gate: G,
) -> Result<Book<A, L, S>, Fault>
where
    A: App + Copy + Drop + Send + Sync + 'static,
    A::Args: Send + Sync + 'static,
    A::Row: Send + Sync + 'static,
    A::Reply: Send + Sync + 'static,
    L: Locks + Drop + Send + 'static,
    S: Rows<A::Row> + Drop + Send + 'static,
    G: Gate + 'static,
    R: Threads + Wait + Copy + Send + Sync + 'static,
    ensures config { IfOk result (λ b. b.config ≡ book.config) }
    ensures begins { IfOk result (λ b. Begins A.meaning book.config book.events b.events team.now.wide) }
    ensures only { IfErr result (IsClusterFault team.now.wide) }
{
    if team.wide {
        let opened = opened_for(&book);
        let gate = Outside { gate };
        bring_on_wide::<A, L, S, Outside<G>, Brand, R>(
            rt,
            alloc,
            app,
            opened,
            book,
            epochs,
            team.workers,
            gate,
        )
    } else {
        bring_on(rt, alloc, app, book, epochs, team.workers, gate)
    }
}

/// Submits a script in a new book, lets a cluster bring it to the last epoch, and tells the replies of the epochs that every node
/// finished. Refused with `Closed`, `NotEnded` or `NoRun` where the cluster is, and else with `OutOfMemory` alone.
pub(crate) fn run_and_tell<A, L, S, G, R>(
    rt: R,
    alloc: Global,
    app: A,
    script: &Script<Kept<A::Args>>,
    team: &Team,
    gate: G,
) -> Result<(Book<A, L, S>, Vec<u8>), Fault>
where
    A: App + Copy + Drop + Send + Sync + 'static,
    A::Args: Operation + Send + Sync + 'static,
    A::Row: Send + Sync + 'static,
    A::Reply: Printed + Send + Sync + 'static,
    L: Locks + Drop + Send + 'static,
    S: Rows<A::Row> + Drop + Send + 'static,
    G: Gate + 'static,
    R: Threads + Wait + Copy + Send + Sync + 'static,
    requires taken { AllTaken (contents script.now) }
    requires fits { fits (contents script.now) ≡ true }
    ensures config { IfOk result (λ r. r.0.config ≡ over (store_config script.now.partitions team.now.replicas 0 script.now.woven_from) S.points S.cold) }
    ensures begins { IfOk result (λ r. Begins A.meaning r.0.config (submissions (contents script.now)) r.0.events team.now.wide) }
    ensures told { IfOk result (λ r. IsTold A.meaning A.Reply.printed (world_after A.meaning r.0.config r.0.events) r.1.items) }
    ensures only { IfErr result (IsClusterFault team.now.wide) }
{
    let book = submitted::<A, L, S>(alloc, app, script, team.replicas)?;
    let epochs = script.epochs.len() as u64;
    let book = brought_on(rt, alloc, app, book, epochs, team, gate)?;
    let text = text_of(alloc, &book)?;
    Ok((book, text))
}
