//! The worked case `limits`, as far as lists of events can tell it, through `calvin check`.
use crate::checks::Runtime;
use crate::event_lists::{Events, happens};
use crate::lines::runs;
use std::alloc::{AllocError, Global};
use std::test::Fail;

const ONE_STANDS_NOWHERE: &str = "node 0.0 stands none rows 0\nfinished none\n";

/// So many requests, each of a key of its own, submitted at the only node.
fn submissions(alloc: Global, count: u64) -> Result<String, AllocError> {
    let mut list = String::new(alloc);
    for n in 0..count {
        if !list.is_empty() {
            list.push(',')?;
        }
        let event = format!(in alloc;
            "[\"submit\",0,0,{{\"client\":7,\"number\":{n},\"op\":[\"put\",{n},5]}}]"
        )?;
        list.push_str(&event)?;
    }
    Ok(list)
}

/// So many times the event by which the only node locks the next request.
fn locks(alloc: Global, count: u64) -> Result<String, AllocError> {
    let mut list = String::new(alloc);
    for _ in 0..count {
        if !list.is_empty() {
            list.push(',')?;
        }
        list.push_str("[\"lock\",0,0]")?;
    }
    Ok(list)
}

/// A queue takes 4,096 requests.
fn queue(rt: &impl Runtime, alloc: Global) -> Result<(), AllocError> {
    let submitted = submissions(alloc, 4_097)?;
    let list = Events {
        partitions: 1,
        replicas: 1,
        pieces: &[&submitted],
        count: 4_097,
        refused: &[(4_096, 30)],
        ending: ONE_STANDS_NOWHERE,
    };
    happens(rt, alloc, &list)
}

/// Of 257 requests 256 are of epoch 0, and one is of epoch 1: these are locked, and the places after them aren't there.
fn batch(rt: &impl Runtime, alloc: Global) -> Result<(), AllocError> {
    let (submitted, locked) = (submissions(alloc, 257)?, locks(alloc, 258)?);
    let list = Events {
        partitions: 1,
        replicas: 1,
        pieces: &[
            &submitted,
            r#"["close",0,0],["close",0,0],["propose",0,0,0],["propose",0,0,1],["deliver",0],["deliver",1],["deliver",2],["deliver",3],["deliver",4],["deliver",5],["deliver",6],["deliver",7],["merge",0,0],["merge",0,0]"#,
            &locked,
            r#"["begin",0,0,0,255],["begin",0,0,0,256],["begin",0,0,1,0],["begin",0,0,1,1]"#,
        ],
        count: 533,
        refused: &[(528, 48), (530, 41), (532, 41)],
        ending: ONE_STANDS_NOWHERE,
    };
    happens(rt, alloc, &list)
}

/// A request has at most 16 keys, none twice, and at least one; its attempts are 1 to 8. Which fault a longer list of keys has is
/// told by the bad script alone.
fn request(rt: &impl Runtime, alloc: Global) -> Result<(), AllocError> {
    let list = Events {
        partitions: 1,
        replicas: 1,
        pieces: &[
            r#"["submit",0,0,{"client":7,"number":1,"op":["get",[0,1,2,3,4,5,6,7,8,9,10,11,12,13,14,15]]}]"#,
            r#"["submit",0,0,{"client":7,"number":2,"op":["get",[]]}]"#,
            r#"["submit",0,0,{"client":7,"number":3,"op":["put",1,5],"attempt":0}]"#,
            r#"["submit",0,0,{"client":7,"number":3,"op":["put",1,5],"attempt":9}]"#,
            r#"["submit",0,0,{"client":7,"number":3,"op":["put",1,5],"attempt":8}]"#,
        ],
        count: 5,
        refused: &[(1, 31), (2, 32), (3, 32)],
        ending: ONE_STANDS_NOWHERE,
    };
    happens(rt, alloc, &list)?;
    for keys in ["[0,1,2,3,4,5,6,7,8,9,10,11,12,13,14,15,16]", "[3,3]"] {
        let script = format!(in alloc;
            "{{\"partitions\":1,\"replicas\":1,\"app\":\"kv\",\"events\":[[\"submit\",0,0,{{\"client\":7,\"number\":1,\"op\":[\"get\",{keys}]}}]]}}"
        )?;
        let told = "calvin: 91 BadScript\n";
        runs(rt, alloc, &["calvin", "check"], &script, 2, "", told);
    }
    Ok(())
}

#[test]
fn limits(rt: HostRuntime) -> Result<(), Fail> {
    queue(&rt, rt.alloc())?;
    batch(&rt, rt.alloc())?;
    request(&rt, rt.alloc())?;
    Ok(())
}
