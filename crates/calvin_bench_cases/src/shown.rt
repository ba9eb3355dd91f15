//! Requests, and what came of steps, to be compared.
use calvin_app::{Answer, KvReply, KvRequest};
use calvin_bench::Outcome;
use calvin_types::{Fault, Key, KeySet, Place, RequestId, Sets, Txn};

/// What came of a step. Of rows that were served, those under the keys 1 and 2 of table 0 are told.
#[derive(Clone, Copy, Debug, PartialEq, Eq)]
pub(crate) enum Shown {
    Admitted,
    Served(Option<u64>, Option<u64>),
    Received,
    Answered(Answer<KvReply>),
    Refused(u8),
}

/// A key of table 0.
pub(crate) fn key(id: u64) -> Key {
    Key { table: 0, id }
}

/// The place of epoch 0 with this number.
pub(crate) fn place(n: u32) -> Place {
    Place { epoch: 0, n }
}

/// A request with the sets that it needs where no row is known, at a place of epoch 0.
pub(crate) fn entry(n: u32, args: KvRequest) -> (Place, Txn<KvRequest>) {
    let mut sets = Sets {
        reads: KeySet::new(),
        writes: KeySet::new(),
    };
    args.add_first_needs(&mut sets);
    let id = RequestId {
        client: 7,
        number: 1,
    };
    let txn = Txn {
        id,
        attempt: 1,
        args,
        sets,
    };
    (place(n), txn)
}

/// What came of a step.
pub(crate) fn show(outcome: &Result<Outcome<u64, KvReply>, Fault>) -> Shown {
    match outcome {
        Ok(Outcome::Admitted) => Shown::Admitted,
        Ok(Outcome::Served(view)) => Shown::Served(view.get(&key(1)), view.get(&key(2))),
        Ok(Outcome::Received) => Shown::Received,
        Ok(Outcome::Answered(answer)) => Shown::Answered(*answer),
        Err(fault) => Shown::Refused(fault.number()),
    }
}
