//! The worked cases of how replicas agree on a batch, through `calvin check`. There is one partition. What a packet says shows
//! in what its delivery does.
use crate::event_lists::{Events, happens};
use std::test::Fail;

/// Replica 0 submits a request, closes and proposes epoch 0: prepares 0, 1, 2 of ballot (1,0). It and replica 1 promise: 3, 4.
/// It asks for votes: 5, 6, 7.
const ACCEPTS: &str =
    r#"["submit",0,0,{"client":7,"number":1,"op":["put",1,5]}],["close",0,0],["propose",0,0,0],["deliver",0],["deliver",1],["deliver",3],["deliver",4]"#;

/// Then it votes, 8, 9, 10, and replica 1 proposes another request: prepares 11, 12, 13 of ballot (1,1). Replica 0 promises and
/// tells its vote, 14, replica 1 promises, 15, and asks for votes: 16, 17, 18.
const NEW_BALLOT: &str =
    r#"["deliver",5],["submit",1,0,{"client":8,"number":1,"op":["put",1,6]}],["close",1,0],["propose",1,0,0],["deliver",11],["deliver",12],["deliver",15],["deliver",14]"#;

const NONE_STANDS: &str =
    "node 0.0 stands none rows 0\nnode 1.0 stands none rows 0\nnode 2.0 stands none rows 0\nfinished none\n";

/// Replicas 1 and 2 vote, 19 to 24, and replica 1 runs what was chosen: the first request, and not its own.
#[test]
fn new_ballot_keeps_the_vote(rt: HostRuntime) -> Result<(), Fail> {
    let list = Events {
        partitions: 1,
        replicas: 3,
        pieces: &[
            ACCEPTS,
            NEW_BALLOT,
            r#"["deliver",17],["deliver",18],["deliver",20],["deliver",23],["merge",1,0],["lock",1,0],["begin",1,0,0,0],["finish",1,0,0,0]"#,
        ],
        count: 23,
        refused: &[],
        ending: "node 0.0 stands none rows 0\nnode 1.0 stands 0 rows 1\nnode 2.0 stands none rows 0\n0.0 7:1 done\nfinished none\n",
    };
    happens(&rt, rt.alloc(), &list)?;
    Ok(())
}

/// Replica 1 refuses the accept of ballot (1,0), 19, and says a round that replica 0 knows. It still votes at (1,1). It hasn't
/// voted at (1,0): it promises a third ballot, 23, and tells of no vote, so that replica 2's own request is chosen.
#[test]
fn old_ballot_refused(rt: HostRuntime) -> Result<(), Fail> {
    let voted = Events {
        partitions: 1,
        replicas: 3,
        pieces: &[
            ACCEPTS,
            NEW_BALLOT,
            r#"["deliver",6],["deliver",19],["deliver",17],["deliver",22]"#,
        ],
        count: 19,
        refused: &[(16, 21)],
        ending: NONE_STANDS,
    };
    happens(&rt, rt.alloc(), &voted)?;
    let third = Events {
        partitions: 1,
        replicas: 3,
        pieces: &[
            ACCEPTS,
            NEW_BALLOT,
            r#"["deliver",6],["deliver",19],["submit",2,0,{"client":9,"number":1,"op":["put",1,7]}],["close",2,0],["propose",2,0,0],["deliver",21],["deliver",22],["deliver",23],["deliver",24],["deliver",26],["deliver",27],["deliver",30],["deliver",33],["merge",2,0],["lock",2,0],["begin",2,0,0,0],["finish",2,0,0,0]"#,
        ],
        count: 32,
        refused: &[(16, 21)],
        ending: "node 0.0 stands none rows 0\nnode 1.0 stands none rows 0\nnode 2.0 stands 0 rows 1\n0.0 9:1 done\nfinished none\n",
    };
    happens(&rt, rt.alloc(), &third)?;
    Ok(())
}

/// The first prepare comes again to replica 0, which has promised: it sends a refusal that says a round which it knows. After its
/// vote that is packet 11; before it packet 8, and the accept is still voted: 9, 10, 11.
#[test]
fn prepare_repeated(rt: HostRuntime) -> Result<(), Fail> {
    let after = Events {
        partitions: 1,
        replicas: 3,
        pieces: &[ACCEPTS, r#"["deliver",5],["deliver",0],["deliver",11]"#],
        count: 10,
        refused: &[(9, 21)],
        ending: NONE_STANDS,
    };
    happens(&rt, rt.alloc(), &after)?;
    let before = Events {
        partitions: 1,
        replicas: 3,
        pieces: &[
            ACCEPTS,
            r#"["deliver",0],["deliver",8],["deliver",5],["deliver",9]"#,
        ],
        count: 11,
        refused: &[(8, 21)],
        ending: NONE_STANDS,
    };
    happens(&rt, rt.alloc(), &before)?;
    Ok(())
}

/// Of two: prepares 0 and 1, promises 2 and 3, accepts 4 and 5, votes 6 and 7 of replica 0, 8 and 9 of replica 1. Of one: prepare
/// 0, promise 1, accept 2, vote 3. A batch is merged where it is held.
#[test]
fn majorities(rt: HostRuntime) -> Result<(), Fail> {
    let of_two = Events {
        partitions: 1,
        replicas: 2,
        pieces: &[
            r#"["close",0,0],["propose",0,0,0],["deliver",0],["deliver",1],["deliver",2],["deliver",3],["deliver",4],["deliver",5]"#,
            r#"["deliver",6],["merge",0,0],["deliver",6],["deliver",8],["merge",0,0],["deliver",8]"#,
        ],
        count: 14,
        refused: &[(9, 34), (10, 22), (13, 22)],
        ending: "node 0.0 stands 0 rows 0\nnode 1.0 stands none rows 0\nfinished none\n",
    };
    happens(&rt, rt.alloc(), &of_two)?;
    let of_one = Events {
        partitions: 1,
        replicas: 1,
        pieces: &[
            r#"["close",0,0],["propose",0,0,0],["deliver",0],["deliver",1],["deliver",2],["merge",0,0],["deliver",3],["merge",0,0]"#,
        ],
        count: 8,
        refused: &[(5, 34)],
        ending: "node 0.0 stands 0 rows 0\nfinished 0\n",
    };
    happens(&rt, rt.alloc(), &of_one)?;
    Ok(())
}
