//! The worked cases of requests whose names are answered once.
use crate::lines::runs;
use std::alloc::Global;
use std::process::Abort;

/// Orders, payments and a settlement, of which some come again: written as usual, and not.
const CASES: [&str; 2] = [
    r#"{"partitions":2,"app":"once","epochs":[[{"group":0,"txns":[{"client":7,"number":1,"op":["additem",1,10,250]},{"client":7,"number":2,"op":["open",9]},{"client":7,"number":3,"op":["payin",9,1000]},{"client":7,"number":4,"op":["order",9,50,[[1,2]]]},{"client":7,"number":5,"op":["settle",9]},{"client":7,"number":5,"op":["settle",9],"attempt":2,"reads":[[1,9],[3,50]],"writes":[[1,9],[3,50]]},{"client":7,"number":5,"op":["settle",9],"attempt":2,"reads":[[1,9],[3,50]],"writes":[[1,9],[3,50]]},{"client":7,"number":6,"op":["balance",9]},{"client":7,"number":3,"op":["payin",9,7]},{"client":7,"number":7,"op":["balance",9]}]}]]}"#,
    r#"{"partitions":2,"epochs":[[{"group":0,"txns":[{"client":7,"number":1,"op":["additem",1,10,250]},{"client":7,"number":2,"op":["open",9]},{"client":7,"number":3,"op":["payin",9,1000]},{"client":7,"number":4,"op":["order",9,50,[[1,2]]]},{"client":7,"number":5,"op":["settle",9]},{"client":7,"number":5,"op":["settle",9],"attempt":2,"reads":[[1,9],[3,50]],"writes":[[1,9],[3,50]]},{"client":7,"number":5,"op":["settle",9],"attempt":2,"reads":[[1,9],[3,50]],"writes":[[1,9],[3,50]]},{"client":7,"number":6,"op":["balance",9]},{"client":7,"number":3,"op":["payin",9,7]},{"client":7,"number":7,"op":["balance",9]}]}]],"app":"o\u006ece"}"#,
];

/// A settlement that isn't declared looks at no order, so it has changed, also with `--scout`, as the customer has none before
/// the epoch; the same name is then settled, and told so again. A payment that comes again pays nothing in.
#[test]
fn once_script(rt: HostRuntime) {
    let text =
        "0.0 7:1 done\n0.1 7:2 done\n0.2 7:3 done\n0.3 7:4 ordered 500\n0.4 7:5 changed\n0.5 7:5 settled 500\n0.6 7:5 settled 500\n0.7 7:6 cents 500\n0.8 7:3 done\n0.9 7:7 cents 500\nfinished 0\n";
    for &script in &CASES {
        runs(&rt, rt.alloc(), &["calvin", "serial"], script, 0, text, "");
        let words = ["calvin", "serial", "--scout"];
        runs(&rt, rt.alloc(), &words, script, 0, text, "");
    }
}

/// A payment that comes again, run in order and in a world.
#[test]
fn repeated_payment(rt: HostRuntime) {
    let script =
        r#"{"partitions":2,"app":"once","epochs":[[{"group":0,"txns":[{"client":7,"number":1,"op":["open",9]},{"client":7,"number":2,"op":["payin",9,100]},{"client":7,"number":2,"op":["payin",9,100]},{"client":7,"number":3,"op":["balance",9]}]}]]}"#;
    let text = "0.0 7:1 done\n0.1 7:2 done\n0.2 7:2 done\n0.3 7:3 cents 100\nfinished 0\n";
    runs(&rt, rt.alloc(), &["calvin", "serial"], script, 0, text, "");
    runs(&rt, rt.alloc(), &["calvin", "sim"], script, 0, text, "");
}

/// Declared sets have the key of the kept reply beside their own: sixteen keys leave no room for it, unless it is one of them.
#[test]
fn sets_with_the_key_of_a_kept_reply(rt: HostRuntime) {
    let alloc = rt.alloc();
    let refused = "calvin: 91 BadScript\n";
    let too_many = [
        r#"{"partitions":2,"app":"once","epochs":[[{"group":0,"txns":[{"client":7,"number":1,"op":["open",9],"reads":[[0,0],[0,1],[0,2],[0,3],[0,4],[0,5],[0,6],[0,7],[0,8],[0,9],[0,10],[0,11],[0,12],[0,13],[0,14],[0,15]],"writes":[]}]}]]}"#,
        r#"{"partitions":2,"app":"once","epochs":[[{"group":0,"txns":[{"client":7,"number":1,"op":["open",9],"reads":[],"writes":[[0,0],[0,1],[0,2],[0,3],[0,4],[0,5],[0,6],[0,7],[0,8],[0,9],[0,10],[0,11],[0,12],[0,13],[0,14],[0,15]]}]}]]}"#,
    ];
    for &script in &too_many {
        for &words in &[["calvin", "serial"], ["calvin", "sim"]] {
            runs(&rt, alloc, &words, script, 2, "", refused);
        }
    }
    let text = "0.0 7:1 changed\nfinished 0\n";
    let fitting = [
        r#"{"partitions":2,"app":"once","epochs":[[{"group":0,"txns":[{"client":7,"number":1,"op":["open",9],"reads":[[0,0],[0,1],[0,2],[0,3],[0,4],[0,5],[0,6],[0,7],[0,8],[0,9],[0,10],[0,11],[0,12],[0,13],[0,14],[4,30064771073]],"writes":[[0,0],[0,1],[0,2],[0,3],[0,4],[0,5],[0,6],[0,7],[0,8],[0,9],[0,10],[0,11],[0,12],[0,13],[0,14]]}]}]]}"#,
        r#"{"partitions":2,"app":"once","epochs":[[{"group":0,"txns":[{"client":7,"number":1,"op":["open",9],"reads":[],"writes":[]}]}]]}"#,
    ];
    for &script in &fitting {
        for &words in &[["calvin", "serial"], ["calvin", "sim"]] {
            runs(&rt, alloc, &words, script, 0, text, "");
        }
    }
}
