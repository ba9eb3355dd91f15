//! Events and scripts as they are read.
use crate::checks::{holds, same};
use calvin_app::KvRequest;
use calvin_node::Act;
use calvin_script::{Document, Kept};
use calvin_script_events::{EventScript, ListedEvent, event_script_of};
use calvin_types::{Fault, Key, NodeId, Place, Slot};
use calvin_world::Event;
use std::alloc::Global;
use std::mem::size_of;
use std::test::Fail;

type Read = Result<EventScript<Kept<KvRequest>>, Fault>;

/// A script with these members beside its application.
fn with_members(alloc: Global, members: &str) -> Result<Read, Fail> {
    let text = format!(in alloc; r#"{{"app":"kv",{members}}}"#)?;
    let document = Document::read(alloc, text.as_bytes())?;
    Ok(event_script_of(alloc, document))
}

/// A script with these events.
fn with_events(alloc: Global, events: &str) -> Result<Read, Fail> {
    let members = format!(in alloc; r#""partitions":2,"replicas":3,"events":[{events}]"#)?;
    with_members(alloc, members.as_str())
}

const NODE: NodeId = NodeId {
    replica: 1,
    partition: 0,
};

const PLACE: Place = Place {
    epoch: (1 << 48) - 1,
    n: u32::MAX,
};

/// The event that is read, where it is one.
fn event_of(alloc: Global, event: &str) -> Result<Event<KvRequest>, Fail> {
    let script = with_events(alloc, event)??;
    let first = script.events.first().ok_or(Fault::BadScript)?;
    Ok(first.event())
}

#[test]
fn each_event(rt: HostRuntime) -> Result<(), Fail> {
    let slot = Slot {
        epoch: 2,
        group: 254,
    };
    let of = NodeId {
        replica: 253,
        partition: 252,
    };
    let key = Key {
        table: 255,
        id: u64::MAX,
    };
    let table: [(&str, Event<KvRequest>); 14] = [
        (r#"["close",1,0]"#, Event::At(NODE, Act::Close)),
        (r#"["merge",1,0]"#, Event::At(NODE, Act::Merge)),
        (r#"["lock",1,0]"#, Event::At(NODE, Act::Lock)),
        (r#"["restart",1,0]"#, Event::At(NODE, Act::Restart)),
        (r#"["propose",1,0,3]"#, Event::At(NODE, Act::Propose(3))),
        (r#"["snapshot",1,0,4]"#, Event::At(NODE, Act::Snapshot(4))),
        (r#"["mark",1,0,5]"#, Event::At(NODE, Act::Mark(5))),
        (
            r#"["mark",1,0,281474976710655]"#,
            Event::At(NODE, Act::Mark(281474976710655)),
        ),
        (
            r#"["cool",1,0,[255,18446744073709551615]]"#,
            Event::At(NODE, Act::Cool(key)),
        ),
        (
            r#"["begin",1,0,281474976710655,4294967295]"#,
            Event::At(NODE, Act::Begin(PLACE)),
        ),
        (
            r#"["finish",1,0,281474976710655,4294967295]"#,
            Event::At(NODE, Act::Finish(PLACE)),
        ),
        (
            r#"["askreads",1,0,281474976710655,4294967295,255]"#,
            Event::At(NODE, Act::AskForReads(PLACE, 255)),
        ),
        (
            r#"["askbatch",1,0,2,254,253,252]"#,
            Event::At(NODE, Act::AskForBatch(slot, of)),
        ),
        (
            r#"["deliver",18446744073709551615]"#,
            Event::Deliver(usize::MAX),
        ),
    ];
    for (text, wanted) in &table {
        let event = event_of(rt.alloc(), text)?;
        same(&rt, (text, event == *wanted), (text, true));
    }
    Ok(())
}

#[test]
fn a_submission(rt: HostRuntime) -> Result<(), Fail> {
    let event = event_of(
        rt.alloc(),
        r#"["submit",255,254,{"client":7,"number":1,"op":["put",1,5],"attempt":9}]"#,
    )?;
    let Event::At(id, Act::Submit(txn)) = event else {
        return Err(Fault::BadScript.into());
    };
    same(&rt, (id.replica, id.partition), (255, 254));
    same(&rt, (txn.id.client, txn.id.number, txn.attempt), (7, 1, 9));
    holds(&rt, txn.args == KvRequest::Put(1, 5));
    same(&rt, (txn.sets.reads.len(), txn.sets.writes.len()), (0, 1));
    Ok(())
}

#[test]
fn a_cold_submission(rt: HostRuntime) -> Result<(), Fail> {
    let event = event_of(
        rt.alloc(),
        r#"["submitcold",255,254,{"client":7,"number":1,"op":["put",1,5],"attempt":9}]"#,
    )?;
    let Event::At(id, Act::SubmitCold(txn)) = event else {
        return Err(Fault::BadScript.into());
    };
    same(&rt, (id.replica, id.partition), (255, 254));
    same(&rt, (txn.id.client, txn.id.number, txn.attempt), (7, 1, 9));
    holds(&rt, txn.args == KvRequest::Put(1, 5));
    same(&rt, (txn.sets.reads.len(), txn.sets.writes.len()), (0, 1));
    Ok(())
}

/// Members, and the delay and the first woven epoch of the script.
const CONFIGURED: [(&str, u8, Option<u64>); 6] = [
    (r#""partitions":1,"replicas":1,"events":[]"#, 0, None),
    (
        r#""partitions":1,"replicas":1,"events":[],"delay":0,"woven_from":0"#,
        0,
        Some(0),
    ),
    (
        r#""partitions":1,"replicas":1,"delay":16,"events":[]"#,
        16,
        None,
    ),
    (
        r#""woven_from":281474976710655,"partitions":1,"replicas":1,"delay":1,"events":[]"#,
        1,
        Some(281474976710655),
    ),
    (
        r#""partitions":1,"replicas":1,"events":[],"delay":17,"delay":3"#,
        3,
        None,
    ),
    (
        r#""partitions":1,"replicas":1,"events":[],"woven_from":null,"woven_from":4"#,
        0,
        Some(4),
    ),
];

#[test]
fn delays_and_first_woven_epochs(rt: HostRuntime) -> Result<(), Fail> {
    for &(members, delay, woven_from) in &CONFIGURED {
        let script = with_members(rt.alloc(), members)??;
        same(
            &rt,
            (members, script.config.delay, script.config.woven_from),
            (members, delay, woven_from),
        );
    }
    Ok(())
}

#[test]
fn the_other_members(rt: HostRuntime) -> Result<(), Fail> {
    let alloc = rt.alloc();
    let members = r#""partitions":16,"replicas":7,"expect":["0.0 7:1 done",""],"events":[
        ["submit",0,0,{"client":7,"number":2,"op":["get",[]]}],["close",0,0]]"#;
    let script = with_members(alloc, members)??;
    same(
        &rt,
        (
            script.config.partitions,
            script.config.replicas,
            script.events.len(),
        ),
        (16, 7, 2),
    );
    let texts = script.expect.ok_or(Fault::BadScript)?;
    assert_eq!(rt; texts.len(), 2);
    same(
        &rt,
        (texts[0].as_str(), texts[1].as_str()),
        ("0.0 7:1 done", ""),
    );
    holds(&rt, with_events(alloc, "")??.expect.is_none());
    Ok(())
}

/// Events of wrong names, items and numbers.
const NO_EVENTS: [&str; 52] = [
    "[]",
    "1",
    "null",
    "{}",
    r#"["close"]"#,
    r#"["close",0]"#,
    r#"["close",0,0,0]"#,
    r#"["close",256,0]"#,
    r#"["close",0,256]"#,
    r#"["close",-0,0]"#,
    r#"["close",1.0,0]"#,
    r#"["deliver"]"#,
    r#"["deliver",0,0]"#,
    r#"["deliver",18446744073709551616]"#,
    r#"["propose",0,0]"#,
    r#"["propose",0,0,281474976710656]"#,
    r#"["propose",0,0,0,0]"#,
    r#"["begin",0,0,0]"#,
    r#"["begin",0,0,0,4294967296]"#,
    r#"["begin",0,0,0,0,0]"#,
    r#"["askreads",0,0,0,0]"#,
    r#"["askreads",0,0,0,0,256]"#,
    r#"["askreads",0,0,0,0,0,0]"#,
    r#"["askbatch",0,0,0,0,0]"#,
    r#"["askbatch",0,0,0,256,0,0]"#,
    r#"["askbatch",0,0,0,0,0,0,0]"#,
    r#"["askbatch",0,0,0,0,256,0]"#,
    r#"["mark",0,0]"#,
    r#"["mark",0,0,281474976710656]"#,
    r#"["mark",0,0,-1]"#,
    r#"["mark",0,0,null]"#,
    r#"["mark",0,0,0,0]"#,
    r#"["mark",256,0,0]"#,
    r#"["marks",0,0,0]"#,
    r#"["cool",0,0]"#,
    r#"["cool",0,0,1]"#,
    r#"["cool",0,0,0,1]"#,
    r#"["cool",0,0,[0]]"#,
    r#"["cool",0,0,[0,1,2]]"#,
    r#"["cool",0,0,[256,1]]"#,
    r#"["cool",0,0,[0,18446744073709551616]]"#,
    r#"["cool",0,0,[0,1],0]"#,
    r#"["cool",0,256,[0,1]]"#,
    r#"["submitcold",0,0]"#,
    r#"["submitcold",0,0,{"client":7,"number":1,"op":["put",1]}]"#,
    r#"["submitcold",0,0,{"client":7,"number":1,"op":["put",1,5]},0]"#,
    r#"["submitcold",0,256,{"client":7,"number":1,"op":["put",1,5]}]"#,
    r#"["submit",0,0]"#,
    r#"["submit",0,0,{"client":7,"number":1,"op":["put",1]}]"#,
    r#"["submit",0,0,{"client":7,"number":1,"op":["put",1,5]},0]"#,
    r#"["Close",0,0]"#,
    "[0,0,0]",
];

/// Members of which one is missing, unknown or out of its range.
const NO_SCRIPTS: [&str; 19] = [
    r#""partitions":1,"replicas":1"#,
    r#""partitions":1,"events":[]"#,
    r#""replicas":1,"events":[]"#,
    r#""partitions":0,"replicas":1,"events":[]"#,
    r#""partitions":17,"replicas":1,"events":[]"#,
    r#""partitions":1,"replicas":0,"events":[]"#,
    r#""partitions":1,"replicas":8,"events":[]"#,
    r#""partitions":1,"replicas":1,"events":[],"delay":17"#,
    r#""partitions":1,"replicas":1,"events":[],"delay":-1"#,
    r#""partitions":1,"replicas":1,"events":[],"delay":1.0"#,
    r#""partitions":1,"replicas":1,"events":[],"delay":"1""#,
    r#""partitions":1,"replicas":1,"events":[],"delay":null"#,
    r#""partitions":1,"replicas":1,"events":[],"woven_from":281474976710656"#,
    r#""partitions":1,"replicas":1,"events":[],"woven_from":-1"#,
    r#""partitions":1,"replicas":1,"events":[],"woven_from":"a""#,
    r#""partitions":1,"replicas":1,"events":[],"woven_from":null"#,
    r#""partitions":1,"replicas":1,"events":[],"delays":1"#,
    r#""partitions":1,"replicas":1,"events":[],"expect":null"#,
    r#""partitions":1,"replicas":1,"events":[],"app":"stock""#,
];

/// What a script is refused with, if it is.
fn fault_of(read: Read) -> Option<Fault> {
    match read {
        Ok(script) => {
            drop(script);
            None
        }
        Err(fault) => Some(fault),
    }
}

#[test]
fn what_is_refused(rt: HostRuntime) -> Result<(), Fail> {
    let alloc = rt.alloc();
    for &event in &NO_EVENTS {
        let fault = fault_of(with_events(alloc, event)?);
        same(&rt, (event, fault), (event, Some(Fault::BadScript)));
    }
    for &members in &NO_SCRIPTS {
        let fault = fault_of(with_members(alloc, members)?);
        same(&rt, (members, fault), (members, Some(Fault::BadScript)));
    }
    Ok(())
}

/// An event takes 40 bytes, whatever a request takes: a list of them is small beside the script that it was read from.
#[test]
fn events_are_small(rt: HostRuntime) -> Result<(), Fail> {
    same(&rt, size_of::<ListedEvent<Kept<KvRequest>>>(), 40);
    Ok(())
}
