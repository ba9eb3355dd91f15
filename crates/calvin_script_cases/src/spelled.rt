//! What a script spells.
use crate::checks::same;
use calvin_app::KvRequest;
use calvin_script::{Epoch, GroupBatch, Kept, Request, Script, script_from};
use calvin_types::{Fault, Key, KeySet, MOST_REQUESTS, RequestId, Sets, Txn};
use std::alloc::Global;
use std::test::Fail;

pub(crate) fn key(table: u8, id: u64) -> Key {
    Key { table, id }
}

pub(crate) fn id(client: u32, number: u32) -> RequestId {
    RequestId { client, number }
}

/// The batch of a group that has these requests, at most 256.
fn listed(
    group: u8,
    requests: Vec<Request<KvRequest>>,
) -> Result<GroupBatch<Request<KvRequest>>, Fault> {
    if requests.len() > MOST_REQUESTS {
        return Err(Fault::TooLong);
    }
    Ok(GroupBatch { group, requests })
}

/// A request at an attempt, with these sets.
fn txn(
    id: RequestId,
    attempt: u8,
    args: KvRequest,
    reads: KeySet,
    writes: KeySet,
) -> Txn<KvRequest> {
    Txn {
        id,
        attempt,
        args,
        sets: Sets { reads, writes },
    }
}

/// A batch of group 1: each operation, without declared sets.
fn first_batch(alloc: Global) -> Result<GroupBatch<Request<KvRequest>>, Fault> {
    let none = KeySet::new();
    let five = KeySet::of(key(0, 5));
    let asked = KeySet::from_slice(&[key(0, 2), key(0, 5)])?;
    let both = KeySet::from_slice(&[key(0, 3), key(0, 9)])?;
    let most = KvRequest::Add(5, 18446744073709551615);
    let put: Txn<KvRequest> = txn(id(7, 1), 1, KvRequest::Put(5, 9), none, five);
    let get: Txn<KvRequest> = txn(id(7, 2), 1, KvRequest::Get(asked), asked, none);
    let add: Txn<KvRequest> = txn(id(4294967295, 0), 8, most, five, five);
    let shift: Txn<KvRequest> = txn(id(7, 3), 1, KvRequest::Move(9, 3, 4), both, both);
    let follow: Txn<KvRequest> = txn(id(7, 4), 1, KvRequest::Follow(5), five, none);
    let mut requests = Vec::new(alloc);
    for txn in [put, get, add, shift, follow] {
        requests.push(Request {
            txn,
            is_declared: false,
        })?;
    }
    listed(1, requests)
}

/// A batch of group 0: an add with declared sets.
fn second_batch(alloc: Global) -> Result<GroupBatch<Request<KvRequest>>, Fault> {
    let reads = KeySet::from_slice(&[key(0, 8), key(0, 9), key(200, 1)])?;
    let writes = KeySet::of(key(0, 9));
    let txn = txn(id(1, 2), 3, KvRequest::Add(1, 2), reads, writes);
    let mut requests = Vec::new(alloc);
    requests.push(Request {
        txn,
        is_declared: true,
    })?;
    listed(0, requests)
}

/// A script with each request as a whole.
fn whole(
    alloc: Global,
    script: &Script<Kept<KvRequest>>,
) -> Result<Script<Request<KvRequest>>, Fault> {
    let mut epochs = Vec::new(alloc);
    for epoch in &script.epochs {
        let mut batches = Vec::new(alloc);
        for batch in &epoch.batches {
            let mut requests = Vec::new(alloc);
            for kept in &batch.requests {
                requests.push(Request {
                    txn: kept.txn(),
                    is_declared: kept.is_declared(),
                })?;
            }
            batches.push(listed(batch.group, requests)?)?;
        }
        epochs.push(Epoch { batches })?;
    }
    Ok(Script {
        partitions: script.partitions,
        woven_from: script.woven_from,
        epochs,
    })
}

#[test]
fn a_script_in_full(rt: HostRuntime) -> Result<(), Fail> {
    let text = r#"{"partitions":2,"app":"kv","woven_from":3,"epochs":[
        [{"group":1,"txns":[
            {"client":7,"number":1,"op":["put",5,9]},
            {"op":["get",[5,2]],"number":2,"client":7},
            {"client":4294967295,"number":0,"attempt":8,"op":["add",5,18446744073709551615]},
            {"client":7,"number":3,"op":["move",9,3,4]},
            {"client":7,"number":4,"op":["follow",5]}]},
         {"group":0,"txns":[
            {"client":1,"number":2,"op":["add",1,2],"attempt":3,"reads":[[200,1],[0,9],[0,8]],"writes":[[0,9]]}]}],
        [],
        [{"group":0,"txns":[]}]]}"#;
    let alloc = rt.alloc();
    let first = vec![in alloc; first_batch(alloc)?, second_batch(alloc)?]?;
    let last = vec![in alloc; listed(0, Vec::new(alloc))?]?;
    let epochs = vec![in alloc;
        Epoch { batches: first },
        Epoch {
            batches: Vec::new(alloc)
        },
        Epoch { batches: last },
    ]?;
    let expected = Script {
        partitions: 2,
        woven_from: Some(3),
        epochs,
    };
    let found = script_from::<KvRequest>(alloc, text.as_bytes())?;
    same(&rt, whole(alloc, &found)?, expected);
    Ok(())
}
