//! The batches of one epoch, where they stand.
ghost use Rattle.calvin_script.specs.Scripts.{all_listed, requests_of};

use calvin_order::BatchSource;
use calvin_script::{Epoch, Kept, Operation, requests_of};
use calvin_types::Slot;

/// The batches of one epoch, whichever number it has. None is copied.
#[derive(Drop)]
pub(crate) struct OneEpoch<'a, R> {
    pub epoch: &'a Epoch<R>,
}

impl<'a, Op: Operation> BatchSource<Kept<Op>> for OneEpoch<'a, Kept<Op>> {
    ghost assignment = { λ b slot. requests_of slot.group (all_listed b.epoch.now) };

    fn requests(&self, slot: Slot) -> &[Kept<Op>] {
        requests_of(self.epoch, slot.group)
    }
}
