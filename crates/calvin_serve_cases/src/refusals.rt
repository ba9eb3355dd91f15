//! What is left where a log refuses a call: each number of calls, an append torn at each byte, and crashes that leave the least and
//! the most.
use crate::checks::same;
use crate::sessions::{Served, empty, serve_all};
use calvin_edge::FailingSource;
use std::alloc::Global;

/// Three requests, each one read and so an epoch of its own.
const LINES: &[u8] =
    b"{\"client\":2,\"number\":1,\"op\":[\"put\",1,7]}\n{\"client\":2,\"number\":2,\"op\":[\"add\",1,1]}\n{\"client\":2,\"number\":3,\"op\":[\"add\",1,1]}\n";

/// Serves them over a log of which so many calls don't fail, and the next tears what it adds at this byte.
fn refused_after(alloc: Global, calls: usize, torn: usize) -> Served {
    let mut log = empty(alloc);
    log.calls = calls;
    log.torn = torn;
    let mut source = FailingSource::new(LINES);
    source.most = 40;
    serve_all(alloc, log, &mut source)
}

/// How many lines there are.
fn lines_in(bytes: &[u8]) -> usize {
    bytes.iter().filter(|byte| **byte == b'\n').count()
}

#[test]
fn no_answer_is_out_that_a_crash_can_take_back(rt: HostRuntime) {
    let mut whole = 0usize;
    for calls in 0..16 {
        for torn in 0..68 {
            let served = refused_after(rt.alloc(), calls, torn);
            let answered = lines_in(&served.text);
            // The heading is a line of the journal too.
            let kept = lines_in(served.log.left(0)).saturating_sub(1);
            let most = lines_in(served.log.left(usize::MAX)).saturating_sub(1);
            same(&rt, (calls, torn, answered <= kept), (calls, torn, true));
            same(
                &rt,
                (calls, torn, most <= answered.saturating_add(1)),
                (calls, torn, true),
            );
            if served.is_whole {
                same(&rt, (calls, answered), (calls, 3));
                whole = whole.saturating_add(1);
            }
        }
    }
    same(&rt, whole > 0, true);
}
