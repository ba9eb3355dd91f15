//! The worked cases of `calvin check`.
use crate::checks::Runtime;
use crate::event_lists::{Events, happens};
use crate::lines::runs;
use std::alloc::Global;
use std::test::Fail;

fn prints(rt: &impl Runtime, alloc: Global, script: &str, text: &str) {
    runs(rt, alloc, &["calvin", "check"], script, 0, text, "");
}

#[test]
fn one_node_run(rt: HostRuntime) {
    let script =
        r#"{"partitions":1,"replicas":1,"app":"kv","events":[["submit",0,0,{"client":7,"number":1,"op":["put",1,5]}],["close",0,0],["propose",0,0,0],["deliver",0],["deliver",1],["deliver",2],["deliver",3],["merge",0,0],["lock",0,0],["begin",0,0,0,0],["finish",0,0,0,0]]}"#;
    let text =
        "0 ok\n1 ok\n2 ok\n3 ok\n4 ok\n5 ok\n6 ok\n7 ok\n8 ok\n9 ok\n10 ok\nnode 0.0 stands 0 rows 1\n0.0 7:1 done\nfinished 0\n";
    prints(&rt, rt.alloc(), script, text);
}

#[test]
fn restart_between_phases(rt: HostRuntime) {
    let script =
        r#"{"partitions":1,"replicas":1,"app":"kv","events":[["submit",0,0,{"client":7,"number":1,"op":["put",1,5]}],["close",0,0],["propose",0,0,0],["deliver",0],["restart",0,0],["deliver",1],["propose",0,0,0]]}"#;
    let text =
        "0 ok\n1 ok\n2 ok\n3 ok\n4 ok\n5 refused 21\n6 refused 35\nnode 0.0 stands none rows 0\nfinished none\n";
    prints(&rt, rt.alloc(), script, text);
}

#[test]
fn refused_events(rt: HostRuntime) {
    let script =
        r#"{"partitions":1,"replicas":1,"app":"kv","events":[["propose",0,0,0],["merge",0,0],["lock",0,0],["deliver",0],["begin",0,0,0,0],["close",0,1]]}"#;
    let text =
        "0 refused 35\n1 refused 34\n2 refused 48\n3 refused 61\n4 refused 41\n5 refused 60\nnode 0.0 stands none rows 0\nfinished none\n";
    prints(&rt, rt.alloc(), script, text);
}

#[test]
fn empty_epoch(rt: HostRuntime) {
    let script =
        r#"{"partitions":1,"replicas":1,"app":"kv","events":[["close",0,0],["propose",0,0,0],["deliver",0],["deliver",1],["deliver",2],["deliver",3],["merge",0,0]]}"#;
    let text = "0 ok\n1 ok\n2 ok\n3 ok\n4 ok\n5 ok\n6 ok\nnode 0.0 stands 0 rows 0\nfinished 0\n";
    prints(&rt, rt.alloc(), script, text);
}

#[test]
fn reply_not_deliverable(rt: HostRuntime) {
    let script =
        r#"{"partitions":1,"replicas":1,"app":"kv","events":[["submit",0,0,{"client":7,"number":1,"op":["put",1,5]}],["close",0,0],["propose",0,0,0],["deliver",0],["deliver",1],["deliver",2],["deliver",3],["merge",0,0],["lock",0,0],["begin",0,0,0,0],["finish",0,0,0,0],["deliver",4]]}"#;
    let text =
        "0 ok\n1 ok\n2 ok\n3 ok\n4 ok\n5 ok\n6 ok\n7 ok\n8 ok\n9 ok\n10 ok\n11 refused 52\nnode 0.0 stands 0 rows 1\n0.0 7:1 done\nfinished 0\n";
    prints(&rt, rt.alloc(), script, text);
}

#[test]
fn snapshot_then_restart(rt: HostRuntime) {
    let script =
        r#"{"partitions":1,"replicas":1,"app":"kv","events":[["submit",0,0,{"client":7,"number":1,"op":["put",1,5]}],["close",0,0],["propose",0,0,0],["deliver",0],["deliver",1],["deliver",2],["deliver",3],["merge",0,0],["lock",0,0],["begin",0,0,0,0],["finish",0,0,0,0],["snapshot",0,0,0],["snapshot",0,0,0],["restart",0,0],["merge",0,0],["deliver",3]]}"#;
    let text =
        "0 ok\n1 ok\n2 ok\n3 ok\n4 ok\n5 ok\n6 ok\n7 ok\n8 ok\n9 ok\n10 ok\n11 ok\n12 refused 51\n13 ok\n14 refused 34\n15 ok\nnode 0.0 stands 0 rows 1\n0.0 7:1 done\nfinished 0\n";
    prints(&rt, rt.alloc(), script, text);
}

/// Packets 0 to 4 are of the agreement of group 1, and 5 to 9 of group 0. Partition 1 writes nothing and isn't the least: it sends
/// its rows, 11, is done where it begins, and sends them again where it is asked: 12. Before that the question, 10, is refused.
#[test]
fn passive_partition(rt: HostRuntime) -> Result<(), Fail> {
    let list = Events {
        partitions: 2,
        replicas: 1,
        pieces: &[
            r#"["submit",0,0,{"client":7,"number":1,"op":["get",[2,3]]}],["close",0,0],["close",0,1]"#,
            r#"["propose",0,1,0],["deliver",0],["deliver",1],["deliver",2],["deliver",3]"#,
            r#"["propose",0,0,0],["deliver",5],["deliver",6],["deliver",7],["deliver",8],["deliver",4],["deliver",9]"#,
            r#"["merge",0,0],["merge",0,1],["lock",0,0],["lock",0,1]"#,
            r#"["begin",0,0,0,0],["finish",0,0,0,0],["askreads",0,0,0,0,0],["deliver",10],["begin",0,1,0,0],["finish",0,1,0,0]"#,
            r#"["deliver",10],["deliver",11],["deliver",11],["deliver",12],["finish",0,0,0,0]"#,
        ],
        count: 30,
        refused: &[(20, 44), (22, 47), (24, 41), (27, 43), (28, 43)],
        ending: "node 0.0 stands 0 rows 0\nnode 0.1 stands 0 rows 0\n0.0 7:1 none none\nfinished 0\n",
    };
    happens(&rt, rt.alloc(), &list)?;
    Ok(())
}

#[test]
fn expected_answers(rt: HostRuntime) {
    let expected =
        r#"{"partitions":1,"replicas":1,"app":"kv","events":[["submit",0,0,{"client":7,"number":1,"op":["put",1,5]}],["close",0,0],["propose",0,0,0],["deliver",0],["deliver",1],["deliver",2],["deliver",3],["merge",0,0],["lock",0,0],["begin",0,0,0,0],["finish",0,0,0,0]],"expect":["0.0 7:1 done","finished 0"]}"#;
    let text =
        "0 ok\n1 ok\n2 ok\n3 ok\n4 ok\n5 ok\n6 ok\n7 ok\n8 ok\n9 ok\n10 ok\nnode 0.0 stands 0 rows 1\n0.0 7:1 done\nfinished 0\n";
    prints(&rt, rt.alloc(), expected, text);
    let other =
        r#"{"partitions":1,"replicas":1,"app":"kv","events":[["submit",0,0,{"client":7,"number":1,"op":["put",1,5]}],["close",0,0],["propose",0,0,0],["deliver",0],["deliver",1],["deliver",2],["deliver",3],["merge",0,0],["lock",0,0],["begin",0,0,0,0],["finish",0,0,0,0]],"expect":["0.0 7:1 done"]}"#;
    let told = "calvin: 100 NotExpected\n";
    runs(&rt, rt.alloc(), &["calvin", "check"], other, 3, text, told);
}

#[test]
fn refused_lists(rt: HostRuntime) {
    let (alloc, words) = (rt.alloc(), ["calvin", "check"]);
    runs(&rt, alloc, &words, "[", 2, "", "calvin: 90 BadJson\n");
    let eight = r#"{"partitions":1,"replicas":8,"app":"kv","events":[]}"#;
    runs(&rt, alloc, &words, eight, 2, "", "calvin: 91 BadScript\n");
    let more = ["calvin", "check", "--scout"];
    runs(&rt, alloc, &more, eight, 2, "", "calvin: bad line\n");
}
