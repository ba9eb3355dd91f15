//! What is told of scripts.
use crate::scripts::{REPLICAS, same, team, tells};
use crate::worked::{MOVE, MOVED, SETTLE, SETTLED};
use calvin_node::Act;
use calvin_run::Ran;
use calvin_types::Key;
use calvin_world::Event;
use std::test::Fail;

fn key(id: u64) -> Key {
    Key { table: 0, id }
}

#[test]
fn run_with_workers(rt: HostRuntime) -> Result<(), Fail> {
    for workers in [1, 4, 16] {
        let outcome = tells(rt, rt.alloc(), MOVE, &team(&rt, workers), MOVED)?;
        // Each replica runs the first request at one node, and the second one at two.
        same(&rt, outcome.begun >= 9, true);
        let Ran::Kv(book) = &outcome.book else {
            return Err(Fail::new("a book of numbers by key"));
        };
        for replica in 0..REPLICAS {
            same(&rt, book.world().peek(replica, &key(1)), Some(6));
            same(&rt, book.world().peek(replica, &key(2)), Some(4));
        }
        let begins = matches!(book.events().get(2), Some(Event::At(_, Act::Close)));
        same(&rt, begins, true);
    }
    Ok(())
}

/// Caught here: an engine that has no cluster run the script, and tells the same text. None of its requests comes to the gate.
#[test]
fn run_opens_no_cluster(rt: HostRuntime) -> Result<(), Fail> {
    let outcome = tells(rt, rt.alloc(), MOVE, &team(&rt, 2), MOVED)?;
    same(&rt, outcome.begun >= 9, true);
    Ok(())
}

#[test]
fn no_epochs_and_empty_ones(rt: HostRuntime) -> Result<(), Fail> {
    let none = r#"{"partitions":1,"app":"kv","epochs":[]}"#;
    let one = r#"{"partitions":3,"app":"stock","epochs":[[]]}"#;
    let three =
        r#"{"partitions":2,"app":"kv","epochs":[[],[{"group":1,"txns":[{"client":7,"number":1,"op":["put",2,9]}]}],[]]}"#;
    let two = team(&rt, 2);
    tells(rt, rt.alloc(), none, &two, "finished none\n")?;
    tells(rt, rt.alloc(), one, &two, "finished 0\n")?;
    tells(rt, rt.alloc(), three, &two, "1.0 7:1 done\nfinished 2\n")?;
    Ok(())
}

#[test]
fn groups_out_of_order(rt: HostRuntime) -> Result<(), Fail> {
    let script =
        r#"{"partitions":2,"app":"kv","epochs":[[{"group":1,"txns":[{"client":7,"number":1,"op":["put",2,9]}]},{"group":0,"txns":[{"client":8,"number":1,"op":["get",[2]]}]}]]}"#;
    tells(
        rt,
        rt.alloc(),
        script,
        &team(&rt, 4),
        "0.0 8:1 none\n0.1 7:1 done\nfinished 0\n",
    )?;
    Ok(())
}

#[test]
fn woven_order(rt: HostRuntime) -> Result<(), Fail> {
    let script =
        r#"{"partitions":2,"app":"kv","woven_from":0,"epochs":[[{"group":0,"txns":[{"client":7,"number":1,"op":["put",1,5]},{"client":7,"number":2,"op":["get",[1]]}]},{"group":1,"txns":[{"client":8,"number":1,"op":["put",1,6]}]}]]}"#;
    tells(
        rt,
        rt.alloc(),
        script,
        &team(&rt, 4),
        "0.0 7:1 done\n0.1 8:1 done\n0.2 7:2 value 6\nfinished 0\n",
    )?;
    Ok(())
}

#[test]
fn order_and_settle(rt: HostRuntime) -> Result<(), Fail> {
    tells(rt, rt.alloc(), SETTLE, &team(&rt, 4), SETTLED)?;
    Ok(())
}

#[test]
fn repeated_payment(rt: HostRuntime) -> Result<(), Fail> {
    let script =
        r#"{"partitions":2,"app":"once","epochs":[[{"group":0,"txns":[{"client":7,"number":1,"op":["open",9]},{"client":7,"number":2,"op":["payin",9,100]}]}],[{"group":1,"txns":[{"client":7,"number":2,"op":["payin",9,100]},{"client":7,"number":3,"op":["balance",9]}]}]]}"#;
    let text = "0.0 7:1 done\n0.1 7:2 done\n1.0 7:2 done\n1.1 7:3 cents 100\nfinished 1\n";
    tells(rt, rt.alloc(), script, &team(&rt, 4), text)?;
    Ok(())
}
