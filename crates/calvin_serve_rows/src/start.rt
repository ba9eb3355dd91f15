//! The line of a journal that tells what it begins with.
ghost use Rattle.std.specs.Prelude.{◌≡◌, ◌≤◌, ◌<◌, ◌^◌, Ok, Some, false, IfOk, IfSome, IsOkUnless};
ghost use Rattle.serde_json.specs.View.{view};
ghost use Rattle.calvin_types.specs.declared.limits.TheConstants.{MOST_EPOCHS};
ghost use Rattle.calvin_script.specs.Reading.{Reads};
ghost use Rattle.calvin_script.specs.Spelling.{between};
ghost use Rattle.calvin_journal.specs.Lines.{has_break};
ghost use Rattle.calvin_serve_rows.specs.Starts.{start_of, start_in};
ghost use Rattle.calvin_serve_rows.specs.Spelled.{start_data};

use crate::fields::{name_of, number_at, number_json};
use calvin_script::Document;
use calvin_types::{Fault, MOST_EPOCHS};
use serde_json::{Value, json};
use std::alloc::{AllocError, Global};

/// The number of the first epoch that is listed, which is at most 2^48.
fn first_epoch(value: &Value) -> Option<u64>
    ensures first { result ≡ between 0 MOST_EPOCHS (view value.now) }
    ensures in_range { IfSome result (λ epoch. epoch ≤ MOST_EPOCHS) }
{
    let epoch = value.as_u64()?;
    if epoch <= MOST_EPOCHS {
        Some(epoch)
    } else {
        None
    }
}

/// The numbers of the start that a piece of JSON spells.
#[tactic(auto, unfolding(crate::specs::Starts::start_of))]
fn start_of(value: &Value) -> Option<(u64, u64)>
    ensures start { result ≡ start_of (view value.now) }
    ensures in_range { IfSome result (λ said. said.0 ≤ MOST_EPOCHS) }
{
    if value.get(3).is_some() {
        return None;
    }
    let name = name_of(value)?;
    let epoch = first_epoch(value.get(1)?)?;
    let count = number_at(value, 2)?;
    if name == "rows" {
        return Some((epoch, count));
    }
    None
}

/// What a journal whose first line this is begins with: the number of its first epoch, which is at most 2^48, and how many lines of
/// rows stand behind the line, where it is `["rows",EPOCH,ROWS]`. None where it has another form: then the journal begins afresh.
///
/// Refused with `BadJson` where the line is no JSON, and with `OutOfMemory`.
#[tactic(auto, unfolding(crate::specs::Starts::start_in))]
pub fn read_start(alloc: Global, line: &[u8]) -> Result<Option<(u64, u64)>, Fault>
    ensures said { Reads (λ said. said) result (start_in line.now) }
    ensures in_range { IfOk result (λ said. IfSome said (λ numbers. numbers.0 ≤ MOST_EPOCHS)) }
{
    let value = Document::read(alloc, line)?.into_value();
    Ok(start_of(&value))
}

/// The numbers of a start as JSON. They are below 2^64.
fn start_json(alloc: Global, epoch: u64, rows: usize) -> Result<Value, AllocError>
    ensures data { IfOk result (λ v. view v ≡ start_data epoch rows) }
    ensures small { rows < 2 ^ 64 }
{
    let first = number_json(epoch);
    let count = number_json(rows as u64);
    json!(in alloc; ["rows", first, count])
}

/// The line of a journal that begins at an epoch, which is at most 2^48, and on so many rows, without a line feed. Refused only for
/// want of memory.
#[tactic(auto, using(crate::proofs::Lines::one_line))]
pub fn start_line(alloc: Global, epoch: u64, rows: usize) -> Result<Vec<u8>, Fault>
    ensures reads_back { IfOk result (λ line. epoch ≤ MOST_EPOCHS → start_in line.items ≡ Ok (Some (epoch, rows))) }
    ensures one_line { IfOk result (λ line. has_break line.items ≡ false) }
    ensures only { IsOkUnless result Fault.OutOfMemory }
{
    let line = start_json(alloc, epoch, rows)?;
    let text = line.to_vec(alloc)?;
    Ok(text)
}
