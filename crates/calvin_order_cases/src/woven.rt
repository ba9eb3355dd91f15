//! The worked cases `woven_order` and `woven_three_groups`, the limit of the first woven epoch, and a weave of sixteen groups.
use crate::checks::same;
use crate::keys::refusal;
use crate::merge::{gives, hold, shows};
use calvin_order::Merge;
use calvin_types::Config;
use std::alloc::Global;
use std::process::Abort;
use std::test::Fail;

/// The order of an epoch whose group 0 has the requests 1 and 2 and whose group 1 has request 3.
fn ordered(rt: &impl Abort, alloc: Global, config: &Config, epoch: u64, numbers: &[u32]) {
    let mut merge = Merge::from_epoch(alloc, config, Some(epoch));
    hold(rt, alloc, &mut merge, epoch, 0, &[1, 2]);
    hold(rt, alloc, &mut merge, epoch, 1, &[3]);
    shows(rt, &merge, config, epoch, numbers);
    gives(rt, &mut merge, epoch, numbers);
}

#[test]
fn woven_order(rt: HostRuntime) -> Result<(), Fail> {
    let alloc = rt.alloc();
    let plain = Config::new(2, 1)?;
    let woven = plain.with_woven(5)?;
    ordered(&rt, alloc, &plain, 5, &[1, 2, 3]);
    ordered(&rt, alloc, &woven, 4, &[1, 2, 3]);
    ordered(&rt, alloc, &woven, 5, &[1, 3, 2]);
    ordered(&rt, alloc, &woven, 6, &[1, 3, 2]);
    ordered(&rt, alloc, &plain.with_woven(0)?, 0, &[1, 3, 2]);
    Ok(())
}

/// Three groups, of which the second has an empty batch, in the epochs 0 and 1 alike.
#[test]
fn woven_three_groups(rt: HostRuntime) -> Result<(), Fail> {
    let alloc = rt.alloc();
    let config = Config::new(3, 1)?.with_woven(1)?;
    let mut merge = Merge::new(alloc, &config);
    for epoch in 0..2 {
        hold(&rt, alloc, &mut merge, epoch, 0, &[1, 2]);
        hold(&rt, alloc, &mut merge, epoch, 1, &[]);
        hold(&rt, alloc, &mut merge, epoch, 2, &[3, 4, 5]);
    }
    gives(&rt, &mut merge, 0, &[1, 2, 3, 4, 5]);
    gives(&rt, &mut merge, 1, &[1, 3, 2, 4, 5]);
    drop(merge);
    Ok(())
}

/// The last epoch can be the first woven one; a later number is refused, and the rest stays.
#[test]
fn first_woven_epoch(rt: HostRuntime) -> Result<(), Fail> {
    let config = Config::new(3, 2)?.with_delay(4)?;
    same(&rt, config.woven_from, None);
    let last = (1 << 48) - 1;
    let woven = config.with_woven(last)?;
    same(
        &rt,
        (woven.partitions, woven.replicas, woven.delay),
        (3, 2, 4),
    );
    same(&rt, woven.woven_from, Some(last));
    same(&rt, woven.with_delay(2)?.woven_from, Some(last));
    same(&rt, refusal(&config.with_woven(last + 1)), 4);
    same(&rt, refusal(&config.with_woven(u64::MAX)), 4);
    Ok(())
}

/// Of sixteen groups the odd ones have one request, group 6 has four and group 8 three: who has no more is passed over.
#[test]
fn sixteen_groups(rt: HostRuntime) -> Result<(), Fail> {
    let alloc = rt.alloc();
    let config = Config::new(16, 1)?.with_woven(0)?;
    let mut merge = Merge::new(alloc, &config);
    for group in 0..16 {
        let first = group as u32;
        match group {
            6 => hold(&rt, alloc, &mut merge, 0, group, &[6, 26, 46, 66]),
            8 => hold(&rt, alloc, &mut merge, 0, group, &[8, 28, 48]),
            1 | 3 | 5 | 7 | 9 | 11 | 13 | 15 => {
                hold(&rt, alloc, &mut merge, 0, group, &[first]);
            }
            _ => hold(&rt, alloc, &mut merge, 0, group, &[]),
        }
    }
    gives(
        &rt,
        &mut merge,
        0,
        &[1, 3, 5, 6, 7, 8, 9, 11, 13, 15, 26, 28, 46, 48, 66],
    );
    drop(merge);
    Ok(())
}

/// All sixteen groups wait for their turn at once.
#[test]
fn all_groups_wait(rt: HostRuntime) -> Result<(), Fail> {
    let alloc = rt.alloc();
    let config = Config::new(16, 1)?.with_woven(0)?;
    let mut merge = Merge::new(alloc, &config);
    for group in 0..16 {
        let first = group as u32;
        hold(
            &rt,
            alloc,
            &mut merge,
            0,
            group,
            &[first, first + 16, first + 32],
        );
    }
    let mut numbers = Vec::new(alloc);
    for number in 0..48 {
        numbers.push(number)?;
    }
    gives(&rt, &mut merge, 0, &numbers);
    drop(merge);
    Ok(())
}
