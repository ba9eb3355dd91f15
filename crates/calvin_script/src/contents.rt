//! What a script says.
ghost use Rattle.std.specs.Prelude.{◌<◌, ◌≤◌, length};
ghost use Rattle.std.specs.Option.{ForSome};
ghost use Rattle.calvin_types.specs.Limits.{IsInRange};
ghost use Rattle.calvin_types.specs.declared.limits.TheConstants.{MOST_EPOCHS, MOST_REQUESTS};

use calvin_types::Txn;

/// A request, and whether its sets were declared. Where they weren't it has those that it needs where no row is known.
#[derive(Clone, Copy, Debug, PartialEq, Eq)]
pub struct Request<Args> {
    pub txn: Txn<Args>,
    pub is_declared: bool,
}

/// The requests that an epoch lists for a group, at most 256, in order. `R` is how they are kept: `Kept` for what is
/// read.
#[derive(Debug, Drop, PartialEq, Eq)]
pub struct GroupBatch<R> {
    pub group: u8,
    pub requests: Vec<R>,
    ghost few: { length requests.items ≤ MOST_REQUESTS },
}

/// An epoch: the batches that are listed, in any order. The batch of a group that isn't listed is empty.
#[derive(Debug, Drop, PartialEq, Eq)]
pub struct Epoch<R> {
    pub batches: Vec<GroupBatch<R>>,
}

/// A script: how many partitions there are, the first epoch (0 to 2^48 - 1) whose batches are woven, if there is one, and the
/// epochs from 0 on.
#[derive(Debug, Drop, PartialEq, Eq)]
pub struct Script<R> {
    pub partitions: u8,
    pub woven_from: Option<u64>,
    pub epochs: Vec<Epoch<R>>,
    ghost in_range: { IsInRange partitions 1 },
    ghost woven_in_range: { ForSome woven_from (λ epoch. epoch < MOST_EPOCHS) },
}
