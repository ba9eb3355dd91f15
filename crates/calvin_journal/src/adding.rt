//! What is written to a synced log.
ghost use Rattle.std.specs.Prelude.{◌≡◌, ◌+◌, ◌∷◌, ◌++◌, [], IfOk, OnOk, OnErr};
ghost use Rattle.std.specs.Option.{ForSome};
ghost use Rattle.calvin_journal_log.specs.Disks.{IsSettled, Leads};
ghost use Rattle.calvin_journal.specs.Journals.{AddedAll, AddedInPart};

use calvin_journal_log::{Log, LogFailed};
use std::alloc::{AllocError, Global};

/// Adds bytes at the end of a log, and syncs it.
pub(crate) fn add_synced<L: Log>(log: &mut L, bytes: &[u8]) -> Result<(), LogFailed>
    requires settled { ForSome (L.told log.old) IsSettled }
    ensures ok { OnOk result (Leads (AddedAll bytes.now) (L.told log.old) (L.told log.new)) }
    ensures part { OnErr result (Leads (AddedInPart bytes.now) (L.told log.old) (L.told log.new)) }
    ensures failed { OnErr result (L.failures log.new ≡ L.failures log.old + 1) }
    ensures no_failure { OnOk result (L.failures log.new ≡ L.failures log.old) }
{
    log.append(bytes)?;
    log.sync()?;
    Ok(())
}

/// A line with its line feed.
pub(crate) fn with_feed(alloc: Global, line: &[u8]) -> Result<Vec<u8>, AllocError>
    ensures { IfOk result (λ text. text.items ≡ line.now ++ 10 ∷ []) }
{
    let mut text = Vec::with_capacity(alloc, line.len() + 1)?;
    put_line(&mut text, line)?;
    Ok(text)
}

/// Adds a line with its line feed to a text.
pub(crate) fn put_line(text: &mut Vec<u8>, line: &[u8]) -> Result<(), AllocError>
    ensures { OnOk result (text.new.items ≡ text.old.items ++ (line.now ++ 10 ∷ [])) }
{
    text.extend_from_slice(line)?;
    text.push(b'\n')?;
    Ok(())
}
