//! A batch of at most 256 requests, whose copies share the memory (Thomson et al. 2012, section 3.1: a sequencer
//! compiles the requests of an epoch into a batch).
ghost use Rattle.std.specs.Prelude.{◌≡◌, ◌≤◌, ◌<◌, ◌↔◌, ◌⊎◌, length, IfErr, IfOk, IsErrOf, slice_get, IsOkUnless};

use crate::fault::Fault;
use crate::limits::MOST_REQUESTS;
use crate::shared::Shared;
use crate::txn::Txn;
use std::alloc::{AllocError, Global};
use std::marker::Model;

/// At most 256 requests in order, which contracts see as a list. None can be changed, added or taken away.
#[derive(Debug, Drop, PartialEq, Eq)]
pub struct Batch<Args> {
    txns: Shared<Txn<Args>>,
}

impl<Args> Model for Batch<Args> {
    ghost use Rattle.calvin_types.specs.declared.txn.Txn.{Txn};
    ghost use Rattle.std.specs.Prelude.{List, length, ◌≤◌};
    ghost use Rattle.calvin_types.specs.declared.limits.TheConstants.{MOST_REQUESTS};

    ghost Value = { List (Txn Args) };

    ghost view = { λ b. b.txns };

    ghost invariant = { λ b. length b.txns ≤ MOST_REQUESTS };

    ghost inverse = { λ txns. record { txns = txns } };
}

impl<Args: Copy> Clone for Batch<Args> {
    ghost use Rattle.std.specs.Prelude.{◌≡◌};

    ghost is_clone = { λ x y. y ≡ x };

    fn clone(&self) -> Result<Batch<Args>, AllocError> {
        let txns = self.txns.share()?;
        Ok(Batch { txns })
    }
}

impl<Args: Copy> Batch<Args> {
    /// A batch of these requests, which are not copied. Refused with `TooLong` for more than 256 of them, and with
    /// `OutOfMemory` where the word that counts the owners can't be had.
    pub fn new(alloc: Global, txns: Vec<Txn<Args>>) -> Result<Batch<Args>, Fault>
        ensures ok { IfOk result (λ b. b ≡ txns.items) }
        ensures long { IsErrOf result Fault.TooLong ↔ (MOST_REQUESTS < length txns.items) }
        ensures only { IfErr result (λ fault. (fault ≡ Fault.TooLong) ⊎ (fault ≡ Fault.OutOfMemory)) }
    {
        if txns.len() > MOST_REQUESTS {
            return Err(Fault::TooLong);
        }
        let txns = Shared::new(alloc, txns)?;
        Ok(Batch { txns })
    }

    /// How many requests there are.
    pub fn len(&self) -> usize
        ensures len { result ≡ length self.now }
        ensures at_most { length self.now ≤ MOST_REQUESTS }
    {
        self.txns.as_slice().len()
    }

    /// The requests, in order.
    pub fn as_slice(&self) -> &[Txn<Args>]
        ensures { result.now ≡ self.now }
    {
        self.txns.as_slice()
    }

    /// The request with `i` requests before it, if there is one.
    pub fn get(&self, i: usize) -> Option<Txn<Args>>
        ensures { result ≡ slice_get self.now i }
    {
        self.txns.as_slice().get(i).copied()
    }

    /// The requests, in order, in the same memory, which gets one more owner. It takes none, and is refused with
    /// `OutOfMemory` only where there are 2^63 - 1 owners.
    pub fn share(&self) -> Result<Shared<Txn<Args>>, Fault>
        ensures ok { IfOk result (λ txns. txns ≡ self.now) }
        ensures only { IsOkUnless result Fault.OutOfMemory }
    {
        Ok(self.txns.share()?)
    }

    /// Another owner of the same memory. It takes none of its own, and is refused with `OutOfMemory` only where there
    /// are 2^63 - 1 owners.
    pub fn copy(&self) -> Result<Batch<Args>, Fault>
        ensures ok { IfOk result (λ b. b ≡ self.now) }
        ensures only { IsOkUnless result Fault.OutOfMemory }
    {
        Ok(self.clone()?)
    }
}
