//! Drawn calls at each keeper, beside what a keeper is.
use crate::beside::Beside;
use crate::calls::drawn_call;
use crate::checks::same;
use crate::draws::Draws;
use crate::model::Kind;
use calvin_store::{ColdRows, PlainRows, Rows, SplitRows};
use calvin_types::Fault;
use std::alloc::Global;
use std::process::Abort;
use std::test::Fail;

/// From how many numbers calls are drawn, and how many from each.
const STARTS: u64 = 20;

const CALLS: u32 = 2000;

/// Calls that are drawn from a number: each ends as it does at what a keeper is, and leaves the same.
fn play<S: Rows<u64> + Drop>(
    rt: &impl Abort,
    alloc: Global,
    kind: Kind,
    start: u64,
) -> Result<(), Fault> {
    let mut both: Beside<S> = Beside::new(alloc, kind)?;
    let mut draws = Draws::new(start);
    for _ in 0..CALLS {
        both.make(rt, &drawn_call(&mut draws)?)?;
        both.are_alike(rt)?;
    }
    same(rt, both.refused(), 0);
    Ok(())
}

#[test]
fn plain_rows_are_rows(rt: HostRuntime) -> Result<(), Fail> {
    for start in 0..STARTS {
        play::<PlainRows<u64>>(&rt, rt.alloc(), Kind::Plain, start)?;
    }
    Ok(())
}

#[test]
fn split_rows_have_points(rt: HostRuntime) -> Result<(), Fail> {
    for start in 0..STARTS {
        play::<SplitRows<u64>>(&rt, rt.alloc(), Kind::WithPoints, start)?;
    }
    Ok(())
}

#[test]
fn cold_rows_have_points_and_cold_keys(rt: HostRuntime) -> Result<(), Fail> {
    for start in 0..STARTS {
        play::<ColdRows<u64>>(&rt, rt.alloc(), Kind::WithPointsAndColdRows, start)?;
    }
    Ok(())
}
