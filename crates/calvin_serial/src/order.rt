//! The requests of an epoch in the order in which they are run.
ghost use Rattle.std.specs.Prelude.{◌≡◌, false};
ghost use Rattle.calvin_order.specs.Configs.{is_woven, merged};
ghost use Rattle.calvin_script.specs.Scripts.{contents, requests_at};
ghost use Rattle.calvin_serial.specs.Scouting.{serial_config};

use crate::listed::ListedBatches;
use calvin_order::EpochRequests;
use calvin_script::{Kept, Operation, Script};

/// Whether the batches of an epoch of a script are woven. A loop of its own for batches that aren't costs nothing for the weave:
/// the compiler sees there that none takes turns.
#[inline(always)]
pub(crate) fn is_woven<R>(script: &Script<R>, epoch: usize) -> bool
    ensures { result ≡ is_woven script.now.woven_from epoch }
{
    match script.woven_from {
        Some(first) => first <= epoch as u64,
        None => false,
    }
}

/// The requests of an epoch of a script whose batches aren't woven.
#[inline(always)]
#[tactic(auto, using(crate::proofs::Requests::joined_alike))]
pub(crate) fn joined_requests<'a, Op: Operation>(
    listed: &'a ListedBatches<'a, Kept<Op>>,
    epoch: usize,
) -> EpochRequests<'a, Kept<Op>, ListedBatches<'a, Kept<Op>>>
    requires { is_woven listed.now.script.now.woven_from epoch ≡ false }
    ensures { result ≡ merged (serial_config (contents listed.now.script.now)) (requests_at (contents listed.now.script.now)) epoch }
{
    let mut config = listed.script.config(1);
    config.woven_from = None;
    EpochRequests::new(listed, epoch as u64, &config)
}

/// The requests of an epoch of a script, whether its batches are woven or not.
#[inline(always)]
pub(crate) fn requests_in<'a, Op: Operation>(
    listed: &'a ListedBatches<'a, Kept<Op>>,
    epoch: usize,
) -> EpochRequests<'a, Kept<Op>, ListedBatches<'a, Kept<Op>>>
    ensures { result ≡ merged (serial_config (contents listed.now.script.now)) (requests_at (contents listed.now.script.now)) epoch }
{
    EpochRequests::new(listed, epoch as u64, &listed.script.config(1))
}
