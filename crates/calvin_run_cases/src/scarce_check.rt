//! Lists of events.
use crate::scarce::{Engine, endure_all};
use crate::scripts::same;
use crate::worked::{ONE_NODE, ONE_NODE_RUN, RESTARTED, SNAPSHOT};
use calvin_types::Fault;
use std::alloc::Global;
use std::process::Abort;
use std::sync::Wait;
use std::test::Fail;
use std::thread::Threads;

/// How often memory was refused.
fn endured<R: Threads + Wait + Abort + Copy + Send + Sync + 'static>(
    rt: R,
    alloc: Global,
) -> Result<u32, Fault> {
    let cases = [(ONE_NODE, ONE_NODE_RUN), (SNAPSHOT, RESTARTED)];
    endure_all(rt, alloc, &Engine::Check, &cases)
}

#[test]
fn nothing_refused(rt: HostRuntime) -> Result<(), Fail> {
    same(&rt, endured(rt, rt.alloc())?, 0);
    Ok(())
}

#[test]
fn refused_once(rt: HostRuntime) -> Result<(), Fail> {
    same(&rt, endured(rt, rt.alloc())? <= 1, true);
    Ok(())
}
