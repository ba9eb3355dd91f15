//! Journals that begin with rows.
use crate::checks::same;
use crate::desks::{HEADING, THREE, after, desk_of_three, empty_log, new_desk, or_fault};
use calvin_serve_compaction::compact;
use calvin_types::{Fault, Key};
use std::test::Fail;

/// What the journal of the three epochs is made.
const COMPACTED: &[u8] = b"{\"partitions\":2}\n\
    [\"rows\",3,3]\n\
    [0,1,10]\n\
    [0,2,20]\n\
    [0,3,34]\n";

#[test]
fn a_journal_begins_with_rows(rt: HostRuntime) -> Result<(), Fail> {
    let alloc = rt.alloc();
    let desk = desk_of_three(alloc)?;
    let journal = or_fault(compact(alloc, HEADING, &desk, empty_log(alloc, 2)))?;
    let log = journal.into_log();
    same(&rt, log.left(0), COMPACTED);
    same(&rt, (log.bytes.len(), log.calls), (COMPACTED.len(), 0));
    same(&rt, log.failures.is_raised(), false);
    same(&rt, desk.into_log().left(0), THREE);
    Ok(())
}

#[test]
fn a_journal_of_no_epoch_begins_with_no_row(rt: HostRuntime) -> Result<(), Fail> {
    let alloc = rt.alloc();
    let desk = new_desk(alloc)?;
    let journal = or_fault(compact(alloc, HEADING, &desk, empty_log(alloc, 2)))?;
    let wanted = b"{\"partitions\":2}\n[\"rows\",0,0]\n".as_slice();
    same(&rt, journal.into_log().left(0), wanted);
    Ok(())
}

/// One append and one sync: refused at either, nothing is kept.
#[test]
fn a_log_that_fails_has_no_journal(rt: HostRuntime) -> Result<(), Fail> {
    let alloc = rt.alloc();
    for (calls, size) in [0, COMPACTED.len()].into_iter().enumerate() {
        let desk = desk_of_three(alloc)?;
        let log = match compact(alloc, HEADING, &desk, empty_log(alloc, calls)) {
            Ok(journal) => journal.into_log(),
            Err(refused) => {
                same(&rt, (calls, refused.fault), (calls, Fault::JournalFailed));
                refused.log
            }
        };
        same(&rt, (calls, log.bytes.len(), log.synced), (calls, size, 0));
        same(&rt, log.failures.is_raised(), true);
    }
    Ok(())
}

#[test]
fn a_desk_has_its_rows_in_order(rt: HostRuntime) -> Result<(), Fail> {
    let rows = desk_of_three(rt.alloc())?.rows(rt.alloc())?;
    let wanted = [(1, 10), (2, 20), (3, 34)];
    same(&rt, rows.len(), wanted.len());
    for (row, (id, value)) in rows.iter().zip(wanted) {
        same(&rt, *row, (Key { table: 0, id }, value));
    }
    Ok(())
}

#[test]
fn a_desk_goes_on_over_its_rows(rt: HostRuntime) -> Result<(), Fail> {
    let alloc = rt.alloc();
    let desk = desk_of_three(alloc)?;
    let journal = or_fault(compact(alloc, HEADING, &desk, empty_log(alloc, usize::MAX)))?;
    let desk = desk.over(journal);
    same(&rt, desk.epoch(), 3);
    let line = b"[{\"group\":1,\"txns\":[{\"client\":1,\"number\":9,\"op\":[\"get\",[3]]}]}]";
    let mut text = Vec::new(alloc);
    let desk = after(alloc, desk, line, &mut text)?;
    same(&rt, text.as_slice(), b"3.0 1:9 value 34\n".as_slice());
    let mut longer = COMPACTED.to_vec(alloc)?;
    longer.extend_from_slice(line)?;
    longer.push(b'\n')?;
    same(&rt, desk.into_log().left(0), longer.as_slice());
    Ok(())
}
