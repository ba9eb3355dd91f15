//! What a journal begins with: nothing, or rows.
ghost use Rattle.std.specs.Prelude.{◌≡◌, ◌≢◌, ◌≤◌, ◌+◌, ◌⊎◌, Ok, Err, IfOk, IfErr, OnOk, OnErr, IfSome};
ghost use Rattle.calvin_types.specs.declared.fault.Fault.{Fault as SomeFault};
ghost use Rattle.calvin_types.specs.declared.fault.Fault.TheVariants.{OutOfMemory, NotAJournal, JournalFailed};
ghost use Rattle.calvin_types.specs.declared.limits.TheConstants.{MOST_EPOCHS};
ghost use Rattle.calvin_serve_rows.specs.RowLines.{row_in};
ghost use Rattle.calvin_serve_rows.specs.Starts.{start_in, starts};
ghost use Rattle.calvin_serve_recovery.specs.Runs.{IsSameJournal, StandsAs};
ghost use Rattle.calvin_serve_recovery.specs.Beginnings.{start_at, TakesLines, HandsRow, BeginsWithNoRow, HaveRows, HaveNoRows, AreOnRows, AreOnNoRows, SaysOfStart, BeginsWithNoJson, StartsAt};

use calvin_app::{Serial, Settles};
use calvin_journal::{Opening, Refused};
use calvin_journal_log::Log;
use calvin_serve_rows::{StoredRow, read_row, read_start};
use calvin_types::{Fault, Key, MOST_EPOCHS};
use std::alloc::Global;

/// A journal whose epochs are ahead, and where they begin.
#[derive(Drop)]
pub(crate) struct Started<A: Settles + Copy + Drop, L: Log + Drop> {
    pub(crate) opening: Opening<L>,
    /// The number of the first epoch.
    pub(crate) epoch: u64,
    /// The rows that it finds.
    pub(crate) store: Serial<A>,
    pub(crate) ghost in_range: { epoch ≤ MOST_EPOCHS },
}

/// Reads what a journal begins with.
///
/// `NotAJournal` where its first line is no JSON, or tells rows that don't stand behind it, each key once.
pub(crate) fn find_start<A: Settles + Copy + Drop, L: Log + Drop>(
    alloc: Global,
    app: A,
    opening: Opening<L>,
) -> Result<Started<A, L>, Refused<L>>
where
    A::Row: StoredRow,
    ensures ok { IfOk result (λ s. StartsAt A.Row.form (start_at s.epoch s.store) opening.lines s.opening.lines) }
    ensures no_failure { IfOk result (λ s. s.opening.failures ≡ opening.failures) }
    ensures no_start { IfErr result (λ r. r.fault ≡ NotAJournal → IfSome opening.lines (λ lines. (fault : SomeFault)
        × (starts A.Row.form lines.ahead ≡ Err fault))) }
    ensures any_moment { IfErr result (λ r. StandsAs opening.lines (L.told r.log)) }
    ensures only { IfErr result (λ r. (r.fault ≡ OutOfMemory) ⊎ (r.fault ≡ NotAJournal) ⊎ (r.fault ≡ JournalFailed)) }
    ensures failed { IfErr result (λ r. r.fault ≡ JournalFailed → L.failures r.log ≡ opening.failures + 1) }
{
    let mut opening = opening;
    match hand_out_start(alloc, app, &mut opening) {
        Ok((epoch, store)) => Ok(Started {
            opening,
            epoch,
            store,
        }),
        Err(fault) => Err(Refused {
            fault,
            log: opening.into_log(),
        }),
    }
}

/// Hands out what a journal begins with: the number of its first epoch, and the rows that it finds.
fn hand_out_start<A: Settles + Copy + Drop, L: Log + Drop>(
    alloc: Global,
    app: A,
    opening: &mut Opening<L>,
) -> Result<(u64, Serial<A>), Fault>
where
    A::Row: StoredRow,
    ensures ok { IfOk result (λ s. StartsAt A.Row.form (start_at s.0 s.1) opening.old.lines opening.new.lines) }
    ensures in_range { IfOk result (λ s. s.0 ≤ MOST_EPOCHS) }
    ensures err { OnErr result (IsSameJournal opening.old.lines opening.new.lines) }
    ensures no_start { IfErr result (λ f. f ≡ NotAJournal → IfSome opening.old.lines (λ lines. (fault : SomeFault)
        × (starts A.Row.form lines.ahead ≡ Err fault))) }
    ensures only { IfErr result (λ f. (f ≡ OutOfMemory) ⊎ (f ≡ NotAJournal) ⊎ (f ≡ JournalFailed)) }
    ensures failed { IfErr result (λ f. f ≡ JournalFailed → opening.new.failures ≡ opening.old.failures + 1) }
    ensures not_failed { IfErr result (λ f. f ≢ JournalFailed → opening.new.failures ≡ opening.old.failures) }
    ensures no_failure { OnOk result (opening.new.failures ≡ opening.old.failures) }
{
    match peek_start(alloc, opening) {
        Ok(Some((epoch, count))) => match store_behind(alloc, app, opening, count) {
            Ok(store) => Ok((epoch, store)),
            Err(fault) => Err(fault),
        },
        Ok(None) => Ok((0, Serial::new(alloc, app))),
        Err(fault) => Err(fault),
    }
}

/// What the first line ahead says of a start. It stays ahead.
fn peek_start<L: Log + Drop>(
    alloc: Global,
    opening: &mut Opening<L>,
) -> Result<Option<(u64, u64)>, Fault>
    ensures said { IfOk result (λ said. IfSome opening.old.lines (λ lines. SaysOfStart said lines.ahead)) }
    ensures in_range { IfOk result (λ said. IfSome said (λ numbers. numbers.0 ≤ MOST_EPOCHS)) }
    ensures stays { opening.new.lines ≡ opening.old.lines }
    ensures no_json { IfErr result (λ f. f ≡ NotAJournal → IfSome opening.old.lines (λ lines. BeginsWithNoJson lines.ahead)) }
    ensures only { IfErr result (λ f. (f ≡ OutOfMemory) ⊎ (f ≡ NotAJournal) ⊎ (f ≡ JournalFailed)) }
    ensures failed { IfErr result (λ f. f ≡ JournalFailed → opening.new.failures ≡ opening.old.failures + 1) }
    ensures not_failed { IfErr result (λ f. f ≢ JournalFailed → opening.new.failures ≡ opening.old.failures) }
    ensures no_failure { OnOk result (opening.new.failures ≡ opening.old.failures) }
{
    let mut line = Vec::new(alloc);
    match opening.peek_line(alloc, &mut line) {
        Ok(true) => said_of_start(alloc, &line),
        Ok(false) => Ok(None),
        Err(fault) => Err(fault),
    }
}

/// What a line says of a start.
fn said_of_start(alloc: Global, line: &[u8]) -> Result<Option<(u64, u64)>, Fault>
    ensures said { IfOk result (λ said. start_in line.now ≡ Ok said) }
    ensures in_range { IfOk result (λ said. IfSome said (λ numbers. numbers.0 ≤ MOST_EPOCHS)) }
    ensures no_json { IfErr result (λ f. f ≡ NotAJournal → (fault : SomeFault) × (start_in line.now ≡ Err fault)) }
    ensures only { IfErr result (λ f. (f ≡ OutOfMemory) ⊎ (f ≡ NotAJournal)) }
{
    match read_start(alloc, line) {
        Ok(said) => Ok(said),
        Err(Fault::OutOfMemory) => Err(Fault::OutOfMemory),
        Err(_) => Err(Fault::NotAJournal),
    }
}

/// Hands out the first line, and so many behind it: the application on the rows that these keep.
fn store_behind<A: Settles + Copy + Drop, L: Log + Drop>(
    alloc: Global,
    app: A,
    opening: &mut Opening<L>,
    count: u64,
) -> Result<Serial<A>, Fault>
where
    A::Row: StoredRow,
    ensures ok { IfOk result (λ store. TakesLines (AreOnRows A.Row.form count store) opening.old.lines opening.new.lines) }
    ensures err { OnErr result (IsSameJournal opening.old.lines opening.new.lines) }
    ensures no_rows { IfErr result (λ f. f ≡ NotAJournal → IfSome opening.old.lines (λ lines. AreOnNoRows A.Row.form count lines.ahead)) }
    ensures only { IfErr result (λ f. (f ≡ OutOfMemory) ⊎ (f ≡ NotAJournal) ⊎ (f ≡ JournalFailed)) }
    ensures failed { IfErr result (λ f. f ≡ JournalFailed → opening.new.failures ≡ opening.old.failures + 1) }
    ensures not_failed { IfErr result (λ f. f ≢ JournalFailed → opening.new.failures ≡ opening.old.failures) }
    ensures no_failure { OnOk result (opening.new.failures ≡ opening.old.failures) }
{
    let mut line = Vec::new(alloc);
    match opening.next_line(alloc, &mut line) {
        Ok(true) => match rows_ahead(alloc, opening, count) {
            Ok(rows) => match Serial::from_rows(alloc, app, &rows) {
                Ok(store) => Ok(store),
                Err(Fault::Repeated) => Err(Fault::NotAJournal),
                Err(_) => Err(Fault::OutOfMemory),
            },
            Err(fault) => Err(fault),
        },
        Ok(false) => Err(Fault::NotAJournal),
        Err(fault) => Err(fault),
    }
}

/// The rows that the next so many lines keep, which are handed out.
fn rows_ahead<Row: StoredRow, L: Log + Drop>(
    alloc: Global,
    opening: &mut Opening<L>,
    count: u64,
) -> Result<Vec<(Key, Row)>, Fault>
    ensures ok { IfOk result (λ rows. TakesLines (HaveRows Row.form count rows.items) opening.old.lines opening.new.lines) }
    ensures err { OnErr result (IsSameJournal opening.old.lines opening.new.lines) }
    ensures no_rows { IfErr result (λ f. f ≡ NotAJournal → IfSome opening.old.lines (λ lines. HaveNoRows Row.form count lines.ahead)) }
    ensures only { IfErr result (λ f. (f ≡ OutOfMemory) ⊎ (f ≡ NotAJournal) ⊎ (f ≡ JournalFailed)) }
    ensures failed { IfErr result (λ f. f ≡ JournalFailed → opening.new.failures ≡ opening.old.failures + 1) }
    ensures not_failed { IfErr result (λ f. f ≢ JournalFailed → opening.new.failures ≡ opening.old.failures) }
    ensures no_failure { OnOk result (opening.new.failures ≡ opening.old.failures) }
{
    let mut rows = Vec::new(alloc);
    let mut line = Vec::new(alloc);
    'lines: for taken in 0..count {
        match next_row(alloc, opening, &mut line) {
            Ok(row) => match rows.push(row) {
                Ok(()) => {}
                Err(_) => return Err(Fault::OutOfMemory),
            },
            Err(fault) => return Err(fault),
        }
    }
    Ok(rows)
}

/// The row that the next line keeps, and its key.
fn next_row<Row: StoredRow, L: Log + Drop>(
    alloc: Global,
    opening: &mut Opening<L>,
    line: &mut Vec<u8>,
) -> Result<(Key, Row), Fault>
    ensures row { IfOk result (λ row. HandsRow Row.form row opening.old.lines opening.new.lines) }
    ensures err { OnErr result (IsSameJournal opening.old.lines opening.new.lines) }
    ensures no_row { IfErr result (λ f. f ≡ NotAJournal → IfSome opening.old.lines (λ lines. BeginsWithNoRow Row.form lines.ahead)) }
    ensures only { IfErr result (λ f. (f ≡ OutOfMemory) ⊎ (f ≡ NotAJournal) ⊎ (f ≡ JournalFailed)) }
    ensures failed { IfErr result (λ f. f ≡ JournalFailed → opening.new.failures ≡ opening.old.failures + 1) }
    ensures not_failed { IfErr result (λ f. f ≢ JournalFailed → opening.new.failures ≡ opening.old.failures) }
    ensures no_failure { OnOk result (opening.new.failures ≡ opening.old.failures) }
{
    match opening.next_line(alloc, line) {
        Ok(true) => row_of_line(alloc, line),
        Ok(false) => Err(Fault::NotAJournal),
        Err(fault) => Err(fault),
    }
}

/// The row that a line keeps, and its key.
fn row_of_line<Row: StoredRow>(alloc: Global, line: &[u8]) -> Result<(Key, Row), Fault>
    ensures row { IfOk result (λ row. row_in Row.form line.now ≡ Ok row) }
    ensures no_row { IfErr result (λ f. f ≡ NotAJournal → (fault : SomeFault) × (row_in Row.form line.now ≡ Err fault)) }
    ensures only { IfErr result (λ f. (f ≡ OutOfMemory) ⊎ (f ≡ NotAJournal)) }
{
    match read_row(alloc, line) {
        Ok(row) => Ok(row),
        Err(Fault::OutOfMemory) => Err(Fault::OutOfMemory),
        Err(_) => Err(Fault::NotAJournal),
    }
}
