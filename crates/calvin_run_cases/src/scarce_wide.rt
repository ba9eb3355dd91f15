//! Scripts in threads, with a lock for each node.
use crate::scarce::{Engine, endure_all};
use crate::scripts::{same, wide_team};
use crate::worked::{ANSWERED_ONCE, MOVE, MOVED, ONCE, PUT, PUT_AND_GOT, SETTLE, SETTLED};
use calvin_types::Fault;
use std::alloc::Global;
use std::process::Abort;
use std::sync::Wait;
use std::test::Fail;
use std::thread::Threads;

/// How often memory was refused.
fn endured<R: Threads + Wait + Abort + Copy + Send + Sync + 'static>(
    rt: R,
    alloc: Global,
) -> Result<u32, Fault> {
    let engine = Engine::Run(wide_team(&rt, 1));
    let cases = [
        (PUT, PUT_AND_GOT),
        (MOVE, MOVED),
        (SETTLE, SETTLED),
        (ONCE, ANSWERED_ONCE),
    ];
    endure_all(rt, alloc, &engine, &cases)
}

#[test]
fn nothing_refused(rt: HostRuntime) -> Result<(), Fail> {
    same(&rt, endured(rt, rt.alloc())?, 0);
    Ok(())
}

#[test]
fn refused_once(rt: HostRuntime) -> Result<(), Fail> {
    same(&rt, endured(rt, rt.alloc())? <= 1, true);
    Ok(())
}
