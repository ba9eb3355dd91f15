//! The attempts of a request.
use crate::checks::holds;
use calvin_app::Answer;
use calvin_recon::{Issuer, Next};
use calvin_types::{Fault, Key, KeySet, RequestId, Sets};
use std::test::Fail;

/// The sets of a request that reads one key of table 0.
fn reads(id: u64) -> Sets {
    Sets {
        reads: KeySet::of(Key { table: 0, id }),
        writes: KeySet::new(),
    }
}

#[test]
fn issuer_attempts(rt: HostRuntime) -> Result<(), Fail> {
    let id = RequestId {
        client: 7,
        number: 1,
    };
    let changed: Answer<u64> = Answer::Changed;
    let mut issuer = Issuer::first(id, 9u64, reads(1));
    let first = issuer.txn();
    holds(
        &rt,
        first.id == id && first.attempt == 1 && first.args == 9 && first.sets == reads(1),
    );
    for attempt in 2..9u8 {
        let sets = reads(attempt as u64);
        match issuer.after(&changed, sets)? {
            Next::Again(txn) => {
                holds(
                    &rt,
                    txn.id == id && txn.attempt == attempt && txn.args == 9 && txn.sets == sets,
                );
                holds(&rt, issuer.txn() == txn);
            }
            Next::Done => assert!(rt; false, "attempt {attempt}"),
        }
    }
    holds(
        &rt,
        issuer.after(&changed, reads(1)) == Err(Fault::TooManyTries),
    );
    holds(&rt, Fault::TooManyTries.number() == 70);
    holds(&rt, issuer.txn().attempt == 8);
    holds(
        &rt,
        issuer.after(&Answer::Reply(4u64), reads(1)) == Ok(Next::Done),
    );
    Ok(())
}
