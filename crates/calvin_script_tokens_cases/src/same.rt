//! Both ways read the same: drawn scripts, and such scripts with a few bytes changed.
use crate::checks::{filled, same};
use crate::scripts::{draw, script};
use calvin_app::KvRequest;
use calvin_once::Named;
use calvin_script::{AppName, Epoch, GroupBatch, Kept, Script};
use calvin_script_tokens::{OperationTokens, Scratch, script_from, usual_script};
use calvin_stock::StockRequest;
use calvin_types::Fault;
use rand_pcg::Pcg32;
use std::alloc::{AllocError, Global};
use std::process::Abort;
use std::test::Fail;

/// The applications that scripts can name.
const APPLICATIONS: [AppName; 3] = [AppName::Kv, AppName::Stock, AppName::Once];

/// Whether two batches have the same requests.
fn is_same_batch<Op: OperationTokens + Eq>(
    one: &GroupBatch<Kept<Op>>,
    other: &GroupBatch<Kept<Op>>,
) -> bool {
    if one.group != other.group || one.requests.len() != other.requests.len() {
        return false;
    }
    for i in 0..one.requests.len() {
        let same = match (one.requests.get(i), other.requests.get(i)) {
            (Some(a), Some(b)) => a.txn() == b.txn() && a.is_declared() == b.is_declared(),
            _ => false,
        };
        if !same {
            return false;
        }
    }
    true
}

/// Whether two epochs list the same batches.
fn is_same_epoch<Op: OperationTokens + Eq>(one: &Epoch<Kept<Op>>, other: &Epoch<Kept<Op>>) -> bool {
    if one.batches.len() != other.batches.len() {
        return false;
    }
    for i in 0..one.batches.len() {
        let same = match (one.batches.get(i), other.batches.get(i)) {
            (Some(a), Some(b)) => is_same_batch(a, b),
            _ => false,
        };
        if !same {
            return false;
        }
    }
    true
}

/// Whether two scripts are the same.
fn is_same<Op: OperationTokens + Eq>(one: &Script<Kept<Op>>, other: &Script<Kept<Op>>) -> bool {
    let is_alike = one.partitions == other.partitions && one.woven_from == other.woven_from;
    if !is_alike || one.epochs.len() != other.epochs.len() {
        return false;
    }
    for i in 0..one.epochs.len() {
        let same = match (one.epochs.get(i), other.epochs.get(i)) {
            (Some(a), Some(b)) => is_same_epoch(a, b),
            _ => false,
        };
        if !same {
            return false;
        }
    }
    true
}

/// Both ways read the same, and the usual way too, where it was taken.
fn compare_read<Op: OperationTokens + Eq>(
    rt: &impl Abort,
    bytes: &[u8],
    usual: &Option<Script<Kept<Op>>>,
    here: &Result<Script<Kept<Op>>, Fault>,
    there: &Result<Script<Kept<Op>>, Fault>,
) {
    match (here, there) {
        (Ok(one), Ok(other)) => {
            same(rt, (bytes, is_same(one, other)), (bytes, true));
            if let Some(script) = usual {
                same(rt, (bytes, is_same(script, other)), (bytes, true));
            }
        }
        (Err(one), Err(other)) => {
            same(rt, (bytes, *one), (bytes, *other));
            same(rt, (bytes, usual.is_none()), (bytes, true));
        }
        _ => same(rt, (bytes, here.is_ok()), (bytes, there.is_ok())),
    }
}

/// Reads bytes both ways. Says whether the usual way was taken, and whether they are a script.
fn compare<Op: OperationTokens + Eq>(rt: &impl Abort, alloc: Global, bytes: &[u8]) -> (bool, bool) {
    let mut scratch = Scratch::new(alloc);
    let usual = usual_script::<Op>(alloc, bytes, &mut scratch);
    drop(scratch);
    let here = script_from::<Op>(alloc, bytes);
    let there = calvin_script::script_from::<Op>(alloc, bytes);
    compare_read(rt, bytes, &usual, &here, &there);
    let found = (usual.is_some(), here.is_ok());
    drop(usual);
    drop(here);
    drop(there);
    found
}

/// Reads bytes for an application both ways.
fn compare_for(rt: &impl Abort, alloc: Global, app: AppName, bytes: &[u8]) -> (bool, bool) {
    match app {
        AppName::Kv => compare::<KvRequest>(rt, alloc, bytes),
        AppName::Stock => compare::<StockRequest>(rt, alloc, bytes),
        AppName::Once => compare::<Named<StockRequest>>(rt, alloc, bytes),
    }
}

/// Reads a script for its application both ways, and for the other ones, which don't take it.
fn compare_by(rt: &impl Abort, alloc: Global, app: AppName, bytes: &[u8]) -> (bool, bool) {
    let mut taken = (false, false);
    for &other in &APPLICATIONS {
        let found = compare_for(rt, alloc, other, bytes);
        if other == app {
            taken = found;
        } else {
            same(rt, (bytes, found), (bytes, (false, false)));
        }
    }
    taken
}

/// A text is read for its application both ways, and in the usual way.
fn check_usual(rt: &impl Abort, alloc: Global, app: AppName, text: String) {
    let found = compare_by(rt, alloc, app, text.as_bytes());
    same(rt, (text.as_str(), found), (text.as_str(), (true, true)));
    drop(text);
}

#[test]
fn drawn_scripts_are_usual(rt: HostRuntime) -> Result<(), Fail> {
    let mut generator = Pcg32::new(1, 7);
    for &app in &APPLICATIONS {
        for _ in 0..200usize {
            let text = script(&mut generator, rt.alloc(), app)?;
            check_usual(&rt, rt.alloc(), app, text);
        }
    }
    Ok(())
}

/// What comes in place of a byte, and how often: none, the same twice, or another that JSON or a script may have.
fn another(generator: &mut Pcg32, byte: u8) -> (u8, usize) {
    let others = b"{}[],:\"0123456789-.e \\\xffkvput";
    match draw(generator, 4) {
        0 => (byte, 0),
        1 => (byte, 2),
        _ => match others.get(draw(generator, 31) as usize) {
            Some(&other) => (other, 1),
            None => (byte, 0),
        },
    }
}

/// Adds the bytes of a text, a few of them changed.
fn add_changed(
    changed: &mut Vec<u8>,
    generator: &mut Pcg32,
    text: &[u8],
) -> Result<(), AllocError> {
    let size = text.len().min(100_000) as u32;
    let (first, second) = (draw(generator, size), draw(generator, size));
    for i in 0..text.len() {
        let is_kept = i != first as usize && (i != second as usize || draw(generator, 2) == 0);
        let (byte, count) = if is_kept {
            (text[i], 1)
        } else {
            another(generator, text[i])
        };
        for _ in 0..count {
            changed.push(byte)?;
        }
    }
    Ok(())
}

/// A text with a few bytes changed.
fn change(generator: &mut Pcg32, alloc: Global, text: &[u8]) -> Result<Vec<u8>, AllocError> {
    let mut changed = Vec::new(alloc);
    let added = add_changed(&mut changed, generator, text);
    filled(changed, added)
}

/// How many texts there were, how many of them were scripts, and how many of these were read in the usual way.
#[derive(Clone, Copy)]
struct Counts {
    usual: u32,
    scripts: u32,
    all: u32,
}

/// Reads a text both ways, with a few bytes changed, ten times.
fn count_changed(
    rt: &impl Abort,
    generator: &mut Pcg32,
    alloc: Global,
    app: AppName,
    text: &[u8],
    counts: &mut Counts,
) -> Result<(), AllocError> {
    for _ in 0..10usize {
        let changed = change(generator, alloc, text)?;
        let found = compare_for(rt, alloc, app, &changed);
        drop(changed);
        counts.usual = counts.usual.wrapping_add(found.0 as u32);
        counts.scripts = counts.scripts.wrapping_add(found.1 as u32);
        counts.all = counts.all.wrapping_add(1);
    }
    Ok(())
}

#[test]
fn changed_scripts(rt: HostRuntime) -> Result<(), Fail> {
    let mut generator = Pcg32::new(2, 7);
    for &app in &APPLICATIONS {
        let mut counts = Counts {
            usual: 0,
            scripts: 0,
            all: 0,
        };
        for _ in 0..300usize {
            let text = script(&mut generator, rt.alloc(), app)?;
            let counted = count_changed(
                &rt,
                &mut generator,
                rt.alloc(),
                app,
                text.as_bytes(),
                &mut counts,
            );
            drop(text);
            counted?;
        }
        let (usual, scripts, all) = (counts.usual, counts.scripts, counts.all);
        let is_so = 100 < usual && usual <= scripts && scripts < all;
        same(
            &rt,
            (usual, scripts, all, is_so),
            (usual, scripts, all, true),
        );
    }
    Ok(())
}
