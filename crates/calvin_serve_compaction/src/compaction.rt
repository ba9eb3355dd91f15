//! From a desk to a journal that begins with its rows.
ghost use Rattle.std.specs.Prelude.{◌≡◌, ◌≤◌, ◌+◌, ◌⊎◌, [], false, length, IfOk, IfErr, IfSome};
ghost use Rattle.std.specs.Option.{ForSome, is_some};
ghost use Rattle.calvin_types.specs.declared.fault.Fault.TheVariants.{OutOfMemory, JournalFailed};
ghost use Rattle.calvin_types.specs.declared.limits.TheConstants.{MOST_EPOCHS};
ghost use Rattle.calvin_journal.specs.Lines.{has_break};
ghost use Rattle.calvin_journal.specs.Journals.{synced};
ghost use Rattle.calvin_serve_compaction.specs.Compactions.{Compacts, SaysRows, KeepsRows};

use calvin_app::Settles;
use calvin_journal::{Beginning, Journal, Refused};
use calvin_journal_log::Log;
use calvin_script::Operation;
use calvin_serve_desk::Desk;
use calvin_serve_rows::{StoredRow, row_line, start_line};
use calvin_text::Printed;
use calvin_types::{Fault, Key};
use std::alloc::Global;

/// Writes a journal with this heading to a log with no bytes: it begins with the rows of a desk, and with the number of its next
/// epoch, and lists no epoch. So whoever recovers it has the rows and the number that the desk's own journal leads to.
///
/// `OutOfMemory`, or `JournalFailed` where the log refuses a call. Then what was written is of no use.
pub fn compact<A: Settles + Drop, L: Log + Drop, N: Log + Drop>(
    alloc: Global,
    heading: &[u8],
    desk: &Desk<A, L>,
    log: N,
) -> Result<Journal<N>, Refused<N>>
where
    A::Args: Operation,
    A::Reply: Printed,
    A::Row: StoredRow,
    requires one_line { has_break heading.now ≡ false }
    requires no_bytes { ForSome (N.told log) (λ disk. disk ≡ synced []) }
    ensures ok { IfOk result (λ j. IfSome j.lines (Compacts A.Row.form heading.now desk.now)) }
    ensures told { IfOk result (λ j. is_some j.lines ≡ is_some (N.told log)) }
    ensures no_failure { IfOk result (λ j. j.failures ≡ N.failures log) }
    ensures only { IfErr result (λ r. (r.fault ≡ OutOfMemory) ⊎ (r.fault ≡ JournalFailed)) }
    ensures failed { IfErr result (λ r. r.fault ≡ JournalFailed → N.failures r.log ≡ N.failures log + 1) }
    ensures not_failed { IfErr result (λ r. r.fault ≡ OutOfMemory → N.failures r.log ≡ N.failures log) }
{
    let Ok(rows) = desk.rows(alloc) else {
        let fault = Fault::OutOfMemory;
        return Err(Refused { fault, log });
    };
    let epoch = desk.epoch();
    let beginning = match begin(alloc, heading, epoch, rows.len(), log) {
        Ok(beginning) => beginning,
        Err(refused) => return Err(refused),
    };
    match add_rows(alloc, beginning, &rows) {
        Ok(whole) => whole.finish(),
        Err(refused) => Err(refused),
    }
}

/// The first two lines of a journal: its heading, and that so many rows follow, which are those before an epoch.
fn begin<N: Log + Drop>(
    alloc: Global,
    heading: &[u8],
    epoch: u64,
    rows: usize,
    log: N,
) -> Result<Beginning<N>, Refused<N>>
    requires one_line { has_break heading.now ≡ false }
    requires no_bytes { ForSome (N.told log) (λ disk. disk ≡ synced []) }
    requires in_range { epoch ≤ MOST_EPOCHS }
    ensures ok { IfOk result (λ b. SaysRows heading.now epoch rows (N.told log) b.lines) }
    ensures no_failure { IfOk result (λ b. b.failures ≡ N.failures log) }
    ensures only { IfErr result (λ r. (r.fault ≡ OutOfMemory) ⊎ (r.fault ≡ JournalFailed)) }
    ensures failed { IfErr result (λ r. r.fault ≡ JournalFailed → N.failures r.log ≡ N.failures log + 1) }
    ensures not_failed { IfErr result (λ r. r.fault ≡ OutOfMemory → N.failures r.log ≡ N.failures log) }
{
    let Ok(line) = start_line(alloc, epoch, rows) else {
        let fault = Fault::OutOfMemory;
        return Err(Refused { fault, log });
    };
    match Beginning::new(alloc, log).add(heading) {
        Ok(beginning) => beginning.add(&line),
        Err(refused) => Err(refused),
    }
}

/// Adds a line for each row.
fn add_rows<Row: StoredRow, N: Log + Drop>(
    alloc: Global,
    beginning: Beginning<N>,
    rows: &[(Key, Row)],
) -> Result<Beginning<N>, Refused<N>>
    ensures ok { IfOk result (λ b. KeepsRows Row.form rows.now beginning.lines b.lines) }
    ensures no_failure { IfOk result (λ b. b.failures ≡ beginning.failures) }
    ensures only { IfErr result (λ r. (r.fault ≡ OutOfMemory) ⊎ (r.fault ≡ JournalFailed)) }
    ensures failed { IfErr result (λ r. r.fault ≡ JournalFailed → N.failures r.log ≡ beginning.failures + 1) }
    ensures not_failed { IfErr result (λ r. r.fault ≡ OutOfMemory → N.failures r.log ≡ beginning.failures) }
{
    let mut longer = beginning;
    for row in rows {
        let Ok(line) = row_line(alloc, &row.0, &row.1) else {
            let fault = Fault::OutOfMemory;
            let log = longer.into_log();
            return Err(Refused { fault, log });
        };
        match longer.add(&line) {
            Ok(next) => longer = next,
            Err(refused) => return Err(refused),
        }
    }
    Ok(longer)
}
