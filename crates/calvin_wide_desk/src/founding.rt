//! How the nodes of a store get their pens.
ghost use Rattle.std.specs.Prelude.{◌≡◌, ◌*◌, IfOk, IsOkUnless};
ghost use Rattle.calvin_wide_desk.specs.Stopping.{AreMarked};

use crate::desk::WideDesk;
use calvin_app::App;
use calvin_book::Book;
use calvin_chronicles::{Mark, Naming, Pens};
use calvin_histories::{Entry, lock_nodes};
use calvin_lock::Locks;
use calvin_store::Rows;
use calvin_types::Fault;
use std::alloc::Global;
use std::marker::Brand;

/// Which histories the nodes of a store write, and what it was opened with. Each call of a program picks them for a proof; at run
/// time nothing of it is there.
pub trait WideFounding: Naming {
    ghost use Rattle.calvin_order.specs.Configs.{Config};

    ghost config: { Config };
}

impl WideFounding for Brand {
    ghost use Rattle.std.specs.Prelude.{None};
    ghost use Rattle.calvin_order.specs.Configs.{store_config};

    ghost config = { store_config 0 0 0 None };
}

/// The pens of the histories of a store's nodes.
pub type NodePens<A, J> = Pens<Entry<<A as App>::Args, <A as App>::Row, <A as App>::Reply>, J>;

/// Marks of them.
pub type Marks<A, J> = Vec<Mark<Entry<<A as App>::Args, <A as App>::Row, <A as App>::Reply>, J>>;

/// The nodes with their pens, and marks of what had happened at each.
pub type Founded<A, L, S, J> = (Vec<WideDesk<A, L, S, J>>, Marks<A, J>);

/// The nodes of a book, in their order, each with a pen that has written its history, and a mark of each. Refused with
/// `OutOfMemory` where there was no room, and where another hand wrote into a history, which doesn't come.
pub fn found_all<A: App + Drop, L: Locks + Drop, S: Rows<A::Row> + Drop, J: WideFounding>(
    alloc: Global,
    app: &A,
    book: &Book<A, L, S>,
    mut pens: Pens<Entry<A::Args, A::Row, A::Reply>, J>,
) -> Result<Founded<A, L, S, J>, Fault>
    requires pens { pens ≡ 0 }
    requires number { J.nodes ≡ book.now.config.replicas * book.now.config.partitions }
    requires config { book.now.config ≡ J.config }
    ensures marks { IfOk result (λ r. AreMarked A.meaning book.now r.1.items) }
    ensures only { IsOkUnless result Fault.OutOfMemory }
{
    let nodes = lock_nodes(alloc, book.world().config(), app, book)?;
    let mut desks = Vec::new(alloc);
    let mut marks = Vec::new(alloc);
    for node in nodes {
        let Some((desk, mark)) = WideDesk::new(node, pens.take()) else {
            return Err(Fault::OutOfMemory);
        };
        desks.push(desk)?;
        marks.push(mark)?;
    }
    Ok((desks, marks))
}
