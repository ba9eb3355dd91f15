//! Scripts in a world.
use crate::scarce::{Engine, endure_all};
use crate::scripts::{REPLICAS, same};
use crate::worked::{ANSWERED_ONCE, MOVE, MOVED, ONCE, PUT, PUT_AND_GOT, SETTLE, SETTLED};
use calvin_sim_events::{Restarts, Schedule};
use calvin_types::Fault;
use std::alloc::Global;
use std::process::Abort;
use std::sync::Wait;
use std::test::Fail;
use std::thread::Threads;

/// How often memory was refused.
fn endured<R: Threads + Wait + Abort + Copy + Send + Sync + 'static>(
    rt: R,
    alloc: Global,
) -> Result<u32, Fault> {
    let Some(schedule) = Schedule::new(1, 0, REPLICAS, Restarts::Never) else {
        panic!(rt; "no schedule");
    };
    let cases = [
        (PUT, PUT_AND_GOT),
        (MOVE, MOVED),
        (SETTLE, SETTLED),
        (ONCE, ANSWERED_ONCE),
    ];
    endure_all(rt, alloc, &Engine::Sim(schedule), &cases)
}

#[test]
fn nothing_refused(rt: HostRuntime) -> Result<(), Fail> {
    same(&rt, endured(rt, rt.alloc())?, 0);
    Ok(())
}

#[test]
fn refused_once(rt: HostRuntime) -> Result<(), Fail> {
    same(&rt, endured(rt, rt.alloc())? <= 1, true);
    Ok(())
}
