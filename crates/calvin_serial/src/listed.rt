//! The batches of a script, where they stand.
ghost use Rattle.calvin_script.specs.Scripts.{contents, requests_at};

use calvin_order::BatchSource;
use calvin_script::{Kept, Operation, Script, requests_of};
use calvin_types::Slot;

/// The batches that a script lists. None is copied.
#[derive(Drop)]
pub(crate) struct ListedBatches<'a, R> {
    pub script: &'a Script<R>,
}

impl<'a, Op: Operation> BatchSource<Kept<Op>> for ListedBatches<'a, Kept<Op>> {
    ghost assignment = { λ l. requests_at (contents l.script.now) };

    fn requests(&self, slot: Slot) -> &[Kept<Op>] {
        match self.script.epochs.get(slot.epoch as usize) {
            Some(epoch) => requests_of(epoch, slot.group),
            None => &[],
        }
    }
}
