//! Epochs that are written and read back.
use crate::checks::{holds, same};
use calvin_app::KvRequest;
use calvin_script::requests_of;
use calvin_serve_lines::{Gathering, read_epoch, read_request};
use calvin_types::{Fault, RequestId};
use std::alloc::Global;
use std::test::Fail;

/// Adds the request that a line asks, of two partitions, and says whether there was room.
fn add(alloc: Global, gathering: &mut Gathering<KvRequest>, line: &str) -> Result<bool, Fault> {
    let asked = read_request(alloc, 2, line.as_bytes())?;
    let has_room = gathering.has_room(asked.group());
    if has_room {
        gathering.add(asked)?;
    }
    Ok(has_room)
}

#[test]
fn an_epoch_of_two_groups_is_read_back(rt: HostRuntime) -> Result<(), Fail> {
    let alloc = rt.alloc();
    let mut gathering = Gathering::new(alloc, 2)?;
    holds(&rt, gathering.is_empty());
    let put = r#"{"number":1, "client":7, "op":["put",5,30]}"#;
    holds(&rt, add(alloc, &mut gathering, put)?);
    let get = r#"{"client":8,"number":3,"op":["get",[5]],"group":1}"#;
    holds(&rt, add(alloc, &mut gathering, get)?);
    let add_one =
        r#"{"client":6,"number":2,"op":["add",5,1],"attempt":2,"reads":[[0,5]],"writes":[[0,5]]}"#;
    holds(&rt, add(alloc, &mut gathering, add_one)?);
    holds(&rt, !gathering.is_empty());
    let (line, epoch) = gathering.into_epoch(alloc)?;
    let wanted =
        r#"[{"group":0,"txns":[{"attempt":2,"client":6,"number":2,"op":["add",5,1],"reads":[[0,5]],"writes":[[0,5]]}]},{"group":1,"txns":[{"client":7,"number":1,"op":["put",5,30]},{"client":8,"number":3,"op":["get",[5]]}]}]"#;
    same(&rt, line.as_slice(), wanted.as_bytes());
    let read = read_epoch(alloc, 2, &line)?;
    same(&rt, requests_of(&epoch, 0).len(), 1);
    same(&rt, requests_of(&epoch, 1).len(), 2);
    let again = requests_of::<KvRequest>(&read, 1);
    same(&rt, again.len(), 2);
    if let Some(last) = again.last() {
        same(
            &rt,
            last.id(),
            RequestId {
                client: 8,
                number: 3,
            },
        );
    }
    Ok(())
}

#[test]
fn an_epoch_without_requests_lists_no_batch(rt: HostRuntime) -> Result<(), Fail> {
    let alloc = rt.alloc();
    let gathering: Gathering<KvRequest> = Gathering::new(alloc, 16)?;
    let (line, epoch) = gathering.into_epoch(alloc)?;
    same(&rt, line.as_slice(), b"[]");
    holds(&rt, epoch.batches.is_empty());
    Ok(())
}

#[test]
fn a_group_takes_256_requests(rt: HostRuntime) -> Result<(), Fail> {
    let alloc = rt.alloc();
    let mut gathering = Gathering::new(alloc, 2)?;
    let put = r#"{"client":7,"number":1,"op":["put",5,30]}"#;
    for _request in 0..256 {
        holds(&rt, add(alloc, &mut gathering, put)?);
    }
    holds(&rt, !add(alloc, &mut gathering, put)?);
    holds(&rt, gathering.has_room(0));
    holds(&rt, !gathering.has_room(2));
    let (line, epoch) = gathering.into_epoch(alloc)?;
    same(&rt, epoch.batches.len(), 1);
    same(&rt, requests_of(&epoch, 1).len(), 256);
    // 256 requests of 41 bytes with 255 commas, and 23 bytes about them
    same(&rt, line.len(), 10_774);
    Ok(())
}

/// Why a line isn't read as an epoch, of two partitions.
fn refused(alloc: Global, line: &str) -> Option<Fault> {
    read_epoch::<KvRequest>(alloc, 2, line.as_bytes()).err()
}

#[test]
fn lines_that_are_no_epoch_are_refused(rt: HostRuntime) -> Result<(), Fail> {
    let alloc = rt.alloc();
    same(&rt, refused(alloc, "["), Some(Fault::BadJson));
    same(&rt, refused(alloc, "{}"), Some(Fault::BadScript));
    same(
        &rt,
        refused(alloc, r#"[{"group":2,"txns":[]}]"#),
        Some(Fault::BadScript),
    );
    same(
        &rt,
        refused(alloc, r#"[{"group":1,"txns":[]},{"group":1,"txns":[]}]"#),
        Some(Fault::BadScript),
    );
    same(
        &rt,
        refused(alloc, r#"[{"group":1,"txns":[]},{"group":0,"txns":[]}]"#),
        None,
    );
    Ok(())
}
