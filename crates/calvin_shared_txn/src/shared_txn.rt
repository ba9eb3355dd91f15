//! One request of a list that several owners share.
ghost use Rattle.std.specs.Prelude.{◌≡◌, ◌<◌, Some, length, slice_get, IfOk, IsOkUnless};

use calvin_types::{Fault, Shared, Txn};
use std::alloc::Global;
use std::marker::Model;

/// A request that lies in a list which is shared, as that of the batch in which it was agreed upon. Contracts see the request:
/// it isn't copied, and whoever has it keeps the list's memory.
#[derive(Drop)]
pub struct SharedTxn<Args> {
    requests: Shared<Txn<Args>>,
    number: usize,
    ghost within: { number < length requests },
}

impl<Args> Model for SharedTxn<Args> {
    ghost use Rattle.calvin_types.specs.declared.txn.Txn.{Txn};
    ghost use Rattle.calvin_types.specs.Codes.{coded_txn};
    ghost use Rattle.calvin_shared_txn.specs.Elements.{element};

    ghost Value = { Txn Args };

    ghost coded = { coded_txn Args.code };

    ghost view = { λ s. element s.requests s.number s.within };
}

impl<Args: Copy> SharedTxn<Args> {
    /// The request with `number` others before it in a list: `number` is below the list's length.
    pub fn new(requests: Shared<Txn<Args>>, number: usize) -> SharedTxn<Args>
        requires { number < length requests }
        ensures { slice_get requests number ≡ Some result }
    {
        SharedTxn { requests, number }
    }

    /// A copy of a request, in a list of its own. Refused with `OutOfMemory` where there is no memory for that.
    pub fn of(alloc: Global, txn: &Txn<Args>) -> Result<SharedTxn<Args>, Fault>
        ensures ok { IfOk result (λ s. s ≡ txn.now) }
        ensures only { IsOkUnless result Fault.OutOfMemory }
    {
        let mut copied = Vec::with_capacity(alloc, 1)?;
        copied.push_reserved(*txn);
        let requests = Shared::new(alloc, copied)?;
        Ok(SharedTxn {
            requests,
            number: 0,
        })
    }

    /// The request.
    pub fn get(&self) -> &Txn<Args>
        ensures { result.now ≡ self.now }
    {
        &self.requests.as_slice()[self.number]
    }
}
