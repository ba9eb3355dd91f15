//! The worked cases of points and of cold rows, through `calvin check`.
use crate::event_lists::{Events, happens, happens_with};
use std::test::Fail;

/// Epoch 0 puts 5 under key 1. There are 14 events with those of epoch 1, and packets 0 to 7.
const EPOCH_ZERO: &str =
    r#"["submit",0,0,{"client":7,"number":1,"op":["put",1,5]}],["close",0,0],["propose",0,0,0],["deliver",0],["deliver",1],["deliver",2],["deliver",3]"#;

/// Epoch 1 puts 6 under the same key.
const SAME_KEY: &str =
    r#"["submit",0,0,{"client":7,"number":2,"op":["put",1,6]}],["close",0,0],["propose",0,0,1],["deliver",4],["deliver",5],["deliver",6],["deliver",7]"#;

/// Epoch 1 puts 6 under another key.
const OTHER_KEY: &str =
    r#"["submit",0,0,{"client":7,"number":2,"op":["put",2,6]}],["close",0,0],["propose",0,0,1],["deliver",4],["deliver",5],["deliver",6],["deliver",7]"#;

/// Both epochs are merged, and both requests ask for their locks: four events.
const LOCKED: &str = r#"["merge",0,0],["merge",0,0],["lock",0,0],["lock",0,0]"#;

const RUN_ZERO: &str = r#"["begin",0,0,0,0],["finish",0,0,0,0]"#;

const RUN_ONE: &str = r#"["begin",0,0,1,0],["finish",0,0,1,0]"#;

const MARK: &str = r#"["mark",0,0,0]"#;

const SNAPSHOT: &str = r#"["snapshot",0,0,0]"#;

const RESTART: &str = r#"["restart",0,0]"#;

/// What is told of a node that restarted from a snapshot of epoch 0 with one row.
const STANDS_AT_ZERO: &str = "node 0.0 stands 0 rows 1\n0.0 7:1 done\n1.0 7:2 done\nfinished 0\n";

/// What is told of a node that restarted without a snapshot.
const STANDS_NOWHERE: &str =
    "node 0.0 stands none rows 0\n0.0 7:1 done\n1.0 7:2 done\nfinished none\n";

/// The snapshot of a marked epoch is taken while a later one is done already.
#[test]
fn mark_then_snapshot(rt: HostRuntime) -> Result<(), Fail> {
    let list = Events {
        partitions: 1,
        replicas: 1,
        pieces: &[
            EPOCH_ZERO, SAME_KEY, LOCKED, MARK, RUN_ZERO, RUN_ONE, SNAPSHOT, RESTART,
        ],
        count: 25,
        refused: &[],
        ending: STANDS_AT_ZERO,
    };
    happens(&rt, rt.alloc(), &list)?;
    Ok(())
}

/// No point is open, or it comes too late.
#[test]
fn snapshot_without_mark(rt: HostRuntime) -> Result<(), Fail> {
    let unmarked = Events {
        partitions: 1,
        replicas: 1,
        pieces: &[
            EPOCH_ZERO, SAME_KEY, LOCKED, RUN_ZERO, RUN_ONE, SNAPSHOT, RESTART,
        ],
        count: 24,
        refused: &[(22, 50)],
        ending: STANDS_NOWHERE,
    };
    happens(&rt, rt.alloc(), &unmarked)?;
    let late = Events {
        pieces: &[
            EPOCH_ZERO, SAME_KEY, LOCKED, RUN_ZERO, RUN_ONE, MARK, SNAPSHOT, RESTART,
        ],
        count: 25,
        refused: &[(22, 53), (23, 50)],
        ..unmarked
    };
    happens(&rt, rt.alloc(), &late)?;
    Ok(())
}

/// The later request is done before the earlier one, which writes another key: the point waits for the earlier one.
#[test]
fn late_finish_before_the_point(rt: HostRuntime) -> Result<(), Fail> {
    let list = Events {
        partitions: 1,
        replicas: 1,
        pieces: &[
            EPOCH_ZERO, OTHER_KEY, LOCKED, MARK, RUN_ONE, SNAPSHOT, RUN_ZERO, SNAPSHOT, RESTART,
        ],
        count: 26,
        refused: &[(21, 50)],
        ending: STANDS_AT_ZERO,
    };
    happens(&rt, rt.alloc(), &list)?;
    Ok(())
}

/// One point at a time; a snapshot of a later epoch closes it too, and one of an earlier epoch leaves it.
#[test]
fn one_point_at_a_time(rt: HostRuntime) -> Result<(), Fail> {
    let list = Events {
        partitions: 1,
        replicas: 1,
        pieces: &[
            EPOCH_ZERO,
            SAME_KEY,
            LOCKED,
            RUN_ZERO,
            r#"["mark",0,0,1],["mark",0,0,2],["snapshot",0,0,0],["mark",0,0,1],["cool",0,0,[0,1]]"#,
            RUN_ONE,
            r#"["snapshot",0,0,1],["cool",0,0,[0,1]],["mark",0,0,0]"#,
        ],
        count: 30,
        refused: &[(21, 54), (23, 54), (24, 54), (29, 53)],
        ending: "node 0.0 stands 1 rows 1\n0.0 7:1 done\n1.0 7:2 done\nfinished 1\n",
    };
    happens(&rt, rt.alloc(), &list)?;
    Ok(())
}

/// With a delay of one closing the request is in the second batch. Packet 0 is the one that warms its key.
#[test]
fn cold_submit(rt: HostRuntime) -> Result<(), Fail> {
    let list = Events {
        partitions: 1,
        replicas: 1,
        pieces: &[
            r#"["submitcold",0,0,{"client":7,"number":1,"op":["put",1,5]}],["close",0,0],["close",0,0],["deliver",0]"#,
            r#"["propose",0,0,0],["deliver",1],["deliver",2],["deliver",3],["deliver",4]"#,
            r#"["propose",0,0,1],["deliver",5],["deliver",6],["deliver",7],["deliver",8]"#,
            r#"["merge",0,0],["merge",0,0],["lock",0,0],["begin",0,0,1,0],["finish",0,0,1,0]"#,
            r#"["cool",0,0,[0,1]],["cool",0,0,[0,1]]"#,
        ],
        count: 21,
        refused: &[(20, 55)],
        ending: "node 0.0 stands 1 rows 1\n1.0 7:1 done\nfinished 1\n",
    };
    happens_with(&rt, rt.alloc(), r#""delay":1,"#, &list)?;
    Ok(())
}
