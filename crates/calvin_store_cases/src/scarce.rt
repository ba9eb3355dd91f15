//! Drawn calls at each keeper, where what is refused for want of memory is made once more. With ample memory nothing is
//! refused but more rows than there can be. `rt try --test --fail-alloc N` refuses the Nth allocation of a test: for each N,
//! from 1 until `nothing_refused` has passed for many in turn, `refused_once` has to pass (`tools/check_refusals`).
use crate::beside::Beside;
use crate::calls::drawn_call;
use crate::checks::{holds, same};
use crate::draws::Draws;
use crate::model::Kind;
use calvin_store::{ColdRows, PlainRows, Rows, SplitRows};
use calvin_types::Fault;
use std::alloc::Global;
use std::process::Abort;
use std::test::Fail;

/// So many drawn calls, and how many were refused.
fn endured<S: Rows<u64> + Drop>(rt: &impl Abort, alloc: Global, kind: Kind) -> Result<u32, Fault> {
    let mut both: Beside<S> = Beside::new(alloc, kind)?;
    let mut draws = Draws::new(20);
    for _ in 0..300 {
        both.make(rt, &drawn_call(&mut draws)?)?;
        both.tell_alike(rt);
    }
    Ok(both.refused())
}

/// How many calls were refused at all keepers.
fn all_endured(rt: &impl Abort, alloc: Global) -> Result<u32, Fault> {
    let mut refused = endured::<PlainRows<u64>>(rt, alloc, Kind::Plain)?;
    refused = refused.max(endured::<SplitRows<u64>>(rt, alloc, Kind::WithPoints)?);
    let cold = endured::<ColdRows<u64>>(rt, alloc, Kind::WithPointsAndColdRows)?;
    Ok(refused.max(cold))
}

#[test]
fn nothing_refused(rt: HostRuntime) -> Result<(), Fail> {
    same(&rt, all_endured(&rt, rt.alloc())?, 0);
    Ok(())
}

#[test]
fn refused_once(rt: HostRuntime) -> Result<(), Fail> {
    holds(&rt, all_endured(&rt, rt.alloc())? <= 1);
    Ok(())
}
