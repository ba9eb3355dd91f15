//! Batches and epochs, read from tokens.
ghost use Rattle.std.specs.Prelude.{IfSome};
ghost use Rattle.calvin_script.specs.Scripts.{listed, batch};
ghost use Rattle.calvin_script_tokens.specs.Spelled.{Spells};

use crate::list::{Piece, list_of};
use crate::object::{Object, read_object};
use crate::operation::OperationTokens;
use crate::tokens::{is_same, u8_value};
use calvin_script::{Epoch, GroupBatch, Kept};
use json::Reader;
use std::alloc::Global;

/// The members of a batch that were read.
#[derive(Drop)]
pub(crate) struct BatchMembers<R> {
    group: Option<u8>,
    requests: Option<Vec<R>>,
}

impl<Op: OperationTokens> Object for BatchMembers<Kept<Op>> {
    ghost use Rattle.calvin_script_tokens.specs.Gathered.{HoldsBatch};

    ghost holds = { HoldsBatch Op.grammar };

    ghost deep = { 123 };

    fn read_member(&mut self, alloc: Global, reader: &mut Reader<'_>, name: &str) -> Option<()> {
        if is_same(name, "group") {
            self.group = Some(u8_value(reader)?);
            return Some(());
        }
        if is_same(name, "txns") {
            self.requests = Some(list_of(alloc, reader)?);
            return Some(());
        }
        None
    }
}

/// The batch that the next tokens list for a group.
fn read_batch<Op: OperationTokens>(
    alloc: Global,
    reader: &mut Reader<'_>,
) -> Option<GroupBatch<Kept<Op>>>
    ensures { IfSome result (λ b. Spells (batch Op.grammar) 124 reader.old (listed b) reader.new) }
{
    let mut members = BatchMembers {
        group: None,
        requests: None,
    };
    read_object(alloc, reader, &mut members)?;
    let group = members.group?;
    let requests = members.requests?;
    GroupBatch::new(group, requests)
}

impl<Op: OperationTokens> Piece for GroupBatch<Kept<Op>> {
    ghost use Rattle.calvin_script.specs.Scripts.{Listed, listed, batch};

    ghost Meaning = { Listed Op };

    ghost meaning = { listed };

    ghost spelled = { batch Op.grammar };

    ghost deep = { 124 };

    fn room_behind(len: usize) -> usize {
        len.max(1)
    }

    fn push_tokens(
        alloc: Global,
        reader: &mut Reader<'_>,
        found: &mut Vec<GroupBatch<Kept<Op>>>,
    ) -> Option<()> {
        let batch = read_batch(alloc, reader)?;
        let Ok(()) = found.push(batch) else {
            return None;
        };
        Some(())
    }
}

impl<Op: OperationTokens> Piece for Epoch<Kept<Op>> {
    ghost use Rattle.std.specs.Prelude.{List};
    ghost use Rattle.calvin_script.specs.Spelling.{list};
    ghost use Rattle.calvin_script.specs.Scripts.{Listed, all_listed, batch};

    ghost Meaning = { List (Listed Op) };

    ghost meaning = { all_listed };

    ghost spelled = { list (batch Op.grammar) };

    ghost deep = { 125 };

    fn room_behind(len: usize) -> usize {
        len.max(1)
    }

    fn push_tokens(
        alloc: Global,
        reader: &mut Reader<'_>,
        found: &mut Vec<Epoch<Kept<Op>>>,
    ) -> Option<()> {
        let batches = list_of(alloc, reader)?;
        let Ok(()) = found.push(Epoch { batches }) else {
            return None;
        };
        Some(())
    }
}
