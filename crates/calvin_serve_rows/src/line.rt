//! A row as a line of a journal.
ghost use Rattle.std.specs.Prelude.{◌≡◌, ◌<◌, ◌^◌, Ok, false, IfOk, IsOkUnless};
ghost use Rattle.serde_json.specs.View.{view};
ghost use Rattle.calvin_journal.specs.Lines.{has_break};
ghost use Rattle.calvin_script.specs.Reading.{Reads};
ghost use Rattle.calvin_serve_rows.specs.RowLines.{row_of, row_in};
ghost use Rattle.calvin_serve_rows.specs.Spelled.{row_data};

use crate::fields::{number_at, number_json, table_json};
use crate::stored::StoredRow;
use calvin_script::{Document, u8_of};
use calvin_types::{Fault, Key};
use serde_json::{Value, json};
use std::alloc::{AllocError, Global};

/// The row that a piece of JSON spells, and its key.
#[tactic(auto, unfolding(crate::specs::RowLines::row_of))]
fn row_of<Row: StoredRow>(value: &Value) -> Option<(Key, Row)>
    ensures { result ≡ row_of Row.form (view value.now) }
{
    if value.get(3).is_some() {
        return None;
    }
    let table = u8_of(value.get(0)?)?;
    let id = number_at(value, 1)?;
    let row = Row::of_json(value.get(2)?)?;
    Some((Key { table, id }, row))
}

/// The row that a line of a journal keeps, and its key: `[table,id,ROW]`.
///
/// Refused with `BadJson` where the line is no JSON, with `BadScript` where it has another form, and with `OutOfMemory`.
#[tactic(auto, unfolding(crate::specs::RowLines::row_in))]
pub fn read_row<Row: StoredRow>(alloc: Global, line: &[u8]) -> Result<(Key, Row), Fault>
    ensures { Reads (λ r. r) result (row_in Row.form line.now) }
{
    let value = Document::read(alloc, line)?.into_value();
    row_of(&value).ok_or(Fault::BadScript)
}

/// A key and its row as JSON. The numbers of the key are those of a byte and below 2^64.
fn line_json(alloc: Global, key: &Key, row: Value) -> Result<Value, AllocError>
    ensures data { IfOk result (λ v. view v ≡ row_data key.now (view row)) }
    ensures small { (key.now.table < 2 ^ 8) × (key.now.id < 2 ^ 64) }
{
    let table = table_json(key.table);
    let id = number_json(key.id);
    json!(in alloc; [table, id, row])
}

/// The line of a journal that keeps a row under its key, without a line feed. Refused only for want of memory.
#[tactic(auto, using(crate::proofs::Lines::one_line))]
pub fn row_line<Row: StoredRow>(alloc: Global, key: &Key, row: &Row) -> Result<Vec<u8>, Fault>
    ensures reads_back { IfOk result (λ line. row_in Row.form line.items ≡ Ok (key.now, row.now)) }
    ensures one_line { IfOk result (λ line. has_break line.items ≡ false) }
    ensures only { IsOkUnless result Fault.OutOfMemory }
{
    let spelled = row.to_json(alloc)?;
    let line = line_json(alloc, key, spelled)?;
    let text = line.to_vec(alloc)?;
    Ok(text)
}
