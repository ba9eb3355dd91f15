//! The worked cases of snapshots and of a restart that catches up, through `calvin check`.
use crate::event_lists::{Events, deliveries, happens, joined};
use std::alloc::{AllocError, Global};
use std::test::Fail;

/// Epoch 0 is empty, and the one request of epoch 1 is done: the node stands at epoch 1 and no longer at 0. Where an epoch 0
/// with one row was marked in time, its row is there without that of epoch 1.
#[test]
fn snapshot_at_its_point(rt: HostRuntime) -> Result<(), Fail> {
    let list = Events {
        partitions: 1,
        replicas: 1,
        pieces: &[
            r#"["close",0,0],["propose",0,0,0],["deliver",0],["deliver",1],["deliver",2],["deliver",3]"#,
            r#"["submit",0,0,{"client":7,"number":1,"op":["put",1,5]}],["close",0,0],["propose",0,0,1],["deliver",4],["deliver",5],["deliver",6],["deliver",7]"#,
            r#"["merge",0,0],["merge",0,0],["lock",0,0],["begin",0,0,1,0],["finish",0,0,1,0]"#,
            r#"["snapshot",0,0,0],["snapshot",0,0,1],["snapshot",0,0,1]"#,
        ],
        count: 21,
        refused: &[(18, 50), (20, 51)],
        ending: "node 0.0 stands 1 rows 1\n1.0 7:1 done\nfinished 1\n",
    };
    happens(&rt, rt.alloc(), &list)?;
    let marked = Events {
        pieces: &[
            r#"["submit",0,0,{"client":7,"number":1,"op":["put",1,5]}],["close",0,0],["propose",0,0,0],["deliver",0],["deliver",1],["deliver",2],["deliver",3]"#,
            r#"["submit",0,0,{"client":7,"number":2,"op":["put",2,6]}],["close",0,0],["propose",0,0,1],["deliver",4],["deliver",5],["deliver",6],["deliver",7]"#,
            r#"["merge",0,0],["merge",0,0],["lock",0,0],["lock",0,0],["begin",0,0,0,0],["finish",0,0,0,0]"#,
            r#"["mark",0,0,0],["begin",0,0,1,0],["finish",0,0,1,0],["snapshot",0,0,0],["snapshot",0,0,0],["restart",0,0]"#,
        ],
        count: 26,
        refused: &[(24, 50)],
        ending: "node 0.0 stands 0 rows 1\n0.0 7:1 done\n1.0 7:2 done\nfinished 0\n",
        ..list
    };
    happens(&rt, rt.alloc(), &marked)?;
    Ok(())
}

/// The 18 events by which the two groups of one replica agree on an epoch, each told by the other, and both nodes merge it and
/// lock its one request. The packets from the first on are, of either group, prepare, promise, accept, vote and the batch for
/// the other node.
fn agreed(alloc: Global, epoch: u32, first: u32) -> Result<String, AllocError> {
    let n = u64::from(first);
    let group_0 = deliveries(alloc, &[n, n + 1, n + 2, n + 3])?;
    let group_1 = deliveries(alloc, &[n + 5, n + 6, n + 7, n + 8, n + 4, n + 9])?;
    format!(in alloc;
        "[\"close\",0,0],[\"close\",0,1],[\"propose\",0,0,{epoch}],{group_0},[\"propose\",0,1,{epoch}],{group_1},[\"merge\",0,0],[\"merge\",0,1],[\"lock\",0,0],[\"lock\",0,1]"
    )
}

/// Key 1 is of partition 1, key 2 of partition 0. Partition 1 has a snapshot of epoch 0; the requests of epochs 1 and 2 move
/// something from one to the other. There are 74 events, and packets 0 to 39. In epoch 1 partition 0 asks for rows before
/// partition 1 has begun.
fn up_to_epoch_two(alloc: Global) -> Result<String, AllocError> {
    let (zero, one, two) = (
        agreed(alloc, 0, 0)?,
        agreed(alloc, 1, 11)?,
        agreed(alloc, 2, 26)?,
    );
    joined(
        alloc,
        &[
            r#"["submit",0,0,{"client":7,"number":1,"op":["put",1,10]}]"#,
            &zero,
            r#"["begin",0,1,0,0],["finish",0,1,0,0],["snapshot",0,1,0]"#,
            r#"["submit",0,0,{"client":7,"number":2,"op":["move",1,2,4]}]"#,
            &one,
            r#"["begin",0,0,1,0],["askreads",0,0,1,0,0],["deliver",22],["begin",0,1,1,0],["deliver",21],["deliver",23],["finish",0,0,1,0],["finish",0,1,1,0]"#,
            r#"["submit",0,0,{"client":7,"number":3,"op":["move",2,1,1]}]"#,
            &two,
            r#"["begin",0,0,2,0],["begin",0,1,2,0],["deliver",36],["deliver",37],["finish",0,0,2,0],["finish",0,1,2,0]"#,
        ],
    )
}

/// Partition 1 restarts and replays epochs 1 and 2: it asks partition 0 for the batches, 40 to 47, and for the rows of place 1.0,
/// 49, and of 2.0, 53, and replies again, 51 and 55. There are 29 events.
const CAUGHT_UP: &str =
    r#"["restart",0,1],["askbatch",0,1,1,0,0,0],["deliver",40],["deliver",41],["askbatch",0,1,1,1,0,0],["deliver",42],["deliver",43],["askbatch",0,1,2,0,0,0],["deliver",44],["deliver",45],["askbatch",0,1,2,1,0,0],["deliver",46],["deliver",47],["merge",0,1],["merge",0,1],["lock",0,1],["lock",0,1],["begin",0,1,1,0],["askreads",0,1,1,0,0],["deliver",49],["deliver",50],["finish",0,1,1,0],["begin",0,1,2,0],["askreads",0,1,2,0,0],["deliver",53],["deliver",54],["finish",0,1,2,0],["deliver",51],["deliver",55]"#;

/// A reply can't be delivered. In epoch 3 the node that caught up is asked for its row of key 1: of 10 it gave 4 and got 1.
#[test]
fn restart_and_catch_up(rt: HostRuntime) -> Result<(), Fail> {
    let alloc = rt.alloc();
    let (before, three) = (up_to_epoch_two(alloc)?, agreed(alloc, 3, 56)?);
    let list = Events {
        partitions: 2,
        replicas: 1,
        pieces: &[
            &before,
            CAUGHT_UP,
            r#"["submit",0,1,{"client":7,"number":4,"op":["get",[1]]}]"#,
            &three,
            r#"["begin",0,1,3,0],["finish",0,1,3,0]"#,
        ],
        count: 124,
        refused: &[(43, 47), (101, 52), (102, 52)],
        ending: "node 0.0 stands 3 rows 1\nnode 0.1 stands 3 rows 1\n0.0 7:1 done\n1.0 7:2 done\n2.0 7:3 done\n3.0 7:4 value 7\nfinished 3\n",
    };
    happens(&rt, alloc, &list)?;
    Ok(())
}
