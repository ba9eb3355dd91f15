//! What is told of scripts that are run with a lock for each node.
use crate::scripts::{REPLICAS, same, tells, wide_team};
use crate::worked::{ANSWERED_ONCE, MOVE, MOVED, ONCE, SETTLE, SETTLED};
use calvin_app::{Kv, KvRequest};
use calvin_book::StoreBook;
use calvin_node::Act;
use calvin_run::Ran;
use calvin_types::{Key, NodeId};
use calvin_world::Event;
use std::process::Abort;
use std::test::Fail;

fn key(id: u64) -> Key {
    Key { table: 0, id }
}

/// The act of a node with so many before it.
fn act_of(book: &StoreBook<Kv>, id: NodeId, before: u32) -> Option<Act<KvRequest>> {
    let mut left = before;
    for number in 0..book.events().len() {
        if let Some(Event::At(at, act)) = book.events().get(number) {
            if at == id && left == 0 {
                return Some(act);
            }
            if at == id {
                left = left.saturating_sub(1);
            }
        }
    }
    None
}

/// It is the submission of this request of the client.
fn submits(act: Option<Act<KvRequest>>, number: u32) -> bool {
    match act {
        Some(Act::Submit(txn)) => txn.id.number == number,
        _ => false,
    }
}

/// What the script of the move has at each node comes first there.
fn begins_at_nodes(rt: &impl Abort, book: &StoreBook<Kv>) {
    let first = NodeId {
        replica: 0,
        partition: 0,
    };
    let second = NodeId {
        replica: 0,
        partition: 1,
    };
    same(rt, submits(act_of(book, first, 0), 1), true);
    same(rt, submits(act_of(book, first, 1), 2), true);
    same(rt, act_of(book, first, 2), Some(Act::Close));
    same(rt, act_of(book, second, 0), Some(Act::Close));
}

#[test]
fn wide_with_workers(rt: HostRuntime) -> Result<(), Fail> {
    for workers in [1, 4] {
        let outcome = tells(rt, rt.alloc(), MOVE, &wide_team(&rt, workers), MOVED)?;
        // Each replica runs the first request at one node, and the second one at two.
        same(&rt, outcome.begun >= 9, true);
        let Ran::Kv(book) = &outcome.book else {
            return Err(Fail::new("a book of numbers by key"));
        };
        for replica in 0..REPLICAS {
            same(&rt, book.world().peek(replica, &key(1)), Some(6));
            same(&rt, book.world().peek(replica, &key(2)), Some(4));
        }
        begins_at_nodes(&rt, book);
    }
    Ok(())
}

#[test]
fn wide_of_no_epochs(rt: HostRuntime) -> Result<(), Fail> {
    let none = r#"{"partitions":1,"app":"kv","epochs":[]}"#;
    let three =
        r#"{"partitions":2,"app":"kv","epochs":[[],[{"group":1,"txns":[{"client":7,"number":1,"op":["put",2,9]}]}],[]]}"#;
    let two = wide_team(&rt, 2);
    tells(rt, rt.alloc(), none, &two, "finished none\n")?;
    tells(rt, rt.alloc(), three, &two, "1.0 7:1 done\nfinished 2\n")?;
    Ok(())
}

#[test]
fn wide_of_each_application(rt: HostRuntime) -> Result<(), Fail> {
    let four = wide_team(&rt, 4);
    tells(rt, rt.alloc(), SETTLE, &four, SETTLED)?;
    tells(rt, rt.alloc(), ONCE, &four, ANSWERED_ONCE)?;
    Ok(())
}
