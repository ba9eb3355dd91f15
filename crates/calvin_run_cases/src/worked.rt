//! The scripts of worked cases, and what is told of them.

/// A number is put and then read.
pub(crate) const PUT: &str =
    r#"{"partitions":1,"app":"kv","epochs":[[{"group":0,"txns":[{"client":7,"number":1,"op":["put",1,5]},{"client":7,"number":2,"op":["get",[1]]}]}]]}"#;

pub(crate) const PUT_AND_GOT: &str = "0.0 7:1 done\n0.1 7:2 value 5\nfinished 0\n";

/// A number is put at one partition, and a part of it moves to another.
pub(crate) const MOVE: &str =
    r#"{"partitions":2,"app":"kv","epochs":[[{"group":0,"txns":[{"client":7,"number":1,"op":["put",1,10]},{"client":7,"number":2,"op":["move",1,2,4]}]}]]}"#;

pub(crate) const MOVED: &str = "0.0 7:1 done\n0.1 7:2 done\nfinished 0\n";

/// An order is taken and settled.
pub(crate) const SETTLE: &str = r#"{"partitions":1,"app":"stock","epochs":[[{"group":0,"txns":[
        {"client":7,"number":1,"op":["additem",1,2,250]},
        {"client":7,"number":2,"op":["additem",2,3,100]},
        {"client":7,"number":3,"op":["open",9]},
        {"client":7,"number":4,"op":["payin",9,1000000000000000]},
        {"client":7,"number":5,"op":["payin",9,1]},
        {"client":7,"number":6,"op":["order",9,50,[[1,2],[2,4]]]},
        {"client":7,"number":7,"op":["order",9,50,[[1,2],[2,3]]]},
        {"client":7,"number":8,"op":["settle",9],"reads":[[1,9],[3,50]],"writes":[[1,9],[3,50]]},
        {"client":7,"number":9,"op":["balance",9]},
        {"client":7,"number":10,"op":["settle",9],"reads":[[1,9],[3,50]],"writes":[[1,9],[3,50]]}]}]]}"#;

pub(crate) const SETTLED: &str =
    "0.0 7:1 done\n0.1 7:2 done\n0.2 7:3 done\n0.3 7:4 done\n0.4 7:5 limit\n0.5 7:6 short\n0.6 7:7 ordered 800\n0.7 7:8 settled 800\n0.8 7:9 cents 999999999999200\n0.9 7:10 nothingopen\nfinished 0\n";

/// Names that come again.
pub(crate) const ONCE: &str = r#"{"partitions":2,"app":"once","epochs":[[{"group":0,"txns":[
        {"client":7,"number":1,"op":["additem",1,10,250]},
        {"client":7,"number":2,"op":["open",9]},
        {"client":7,"number":3,"op":["payin",9,1000]},
        {"client":7,"number":4,"op":["order",9,50,[[1,2]]]},
        {"client":7,"number":5,"op":["settle",9]},
        {"client":7,"number":5,"op":["settle",9],"attempt":2,"reads":[[1,9],[3,50]],"writes":[[1,9],[3,50]]},
        {"client":7,"number":5,"op":["settle",9],"attempt":2,"reads":[[1,9],[3,50]],"writes":[[1,9],[3,50]]},
        {"client":7,"number":6,"op":["balance",9]},
        {"client":7,"number":3,"op":["payin",9,7]},
        {"client":7,"number":7,"op":["balance",9]}]}]]}"#;

pub(crate) const ANSWERED_ONCE: &str =
    "0.0 7:1 done\n0.1 7:2 done\n0.2 7:3 done\n0.3 7:4 ordered 500\n0.4 7:5 changed\n0.5 7:5 settled 500\n0.6 7:5 settled 500\n0.7 7:6 cents 500\n0.8 7:3 done\n0.9 7:7 cents 500\nfinished 0\n";

/// Events of one node, from a submission to its reply.
pub(crate) const ONE_NODE: &str = r#"{"partitions":1,"replicas":1,"app":"kv","events":[
        ["submit",0,0,{"client":7,"number":1,"op":["put",1,5]}],["close",0,0],["propose",0,0,0],
        ["deliver",0],["deliver",1],["deliver",2],["deliver",3],
        ["merge",0,0],["lock",0,0],["begin",0,0,0,0],["finish",0,0,0,0]]}"#;

pub(crate) const ONE_NODE_RUN: &str =
    "0 ok\n1 ok\n2 ok\n3 ok\n4 ok\n5 ok\n6 ok\n7 ok\n8 ok\n9 ok\n10 ok\nnode 0.0 stands 0 rows 1\n0.0 7:1 done\nfinished 0\n";

/// The same, and then the node comes back with a snapshot.
pub(crate) const SNAPSHOT: &str = r#"{"partitions":1,"replicas":1,"app":"kv","events":[
        ["submit",0,0,{"client":7,"number":1,"op":["put",1,5]}],["close",0,0],["propose",0,0,0],
        ["deliver",0],["deliver",1],["deliver",2],["deliver",3],
        ["merge",0,0],["lock",0,0],["begin",0,0,0,0],["finish",0,0,0,0],
        ["snapshot",0,0,0],["snapshot",0,0,0],["restart",0,0],["merge",0,0],["deliver",3]]}"#;

pub(crate) const RESTARTED: &str =
    "0 ok\n1 ok\n2 ok\n3 ok\n4 ok\n5 ok\n6 ok\n7 ok\n8 ok\n9 ok\n10 ok\n11 ok\n12 refused 51\n13 ok\n14 refused 34\n15 ok\nnode 0.0 stands 0 rows 1\n0.0 7:1 done\nfinished 0\n";
