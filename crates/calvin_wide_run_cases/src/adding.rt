//! Two adds to one number and a put, in batches of two groups.
ghost use Rattle.std.specs.Prelude.{◌≡◌, ◌*◌};

use crate::giving_back::give_back;
use calvin_app::{App, Kv, KvReply, KvRequest};
use calvin_book::StoreBook;
use calvin_histories::Entry;
use calvin_lock::QueueLocks;
use calvin_node::Act;
use calvin_store::ColdRows;
use calvin_types::{Config, Fault, Key, KeySet, NodeId, RequestId, Sets, Txn};
use calvin_wide::{Open, Opened, WideFounding, opened_for};
use calvin_wide_run::bring_on_wide;
use calvin_world::Event;
use std::alloc::Global;
use std::fmt::Debug;
use std::marker::Brand;
use std::process::Abort;
use std::sync::Wait;
use std::test::Fail;
use std::thread::Threads;

/// Client 7's request of a number, with the sets that it needs where no row is known.
fn request(number: u32, args: KvRequest) -> Txn<KvRequest> {
    let mut sets = Sets {
        reads: KeySet::new(),
        writes: KeySet::new(),
    };
    args.add_first_needs(&mut sets);
    Txn {
        id: RequestId { client: 7, number },
        attempt: 1,
        args,
        sets,
    }
}

/// What happens before the store opens: at node (0, 0) 5 is added to the number under key 1 and 9 put under key 2, at node (0, 1) 6 is
/// added under key 1; both close their batches of epoch 0.
fn submitted() -> [Event<KvRequest>; 5] {
    let at = |partition: u8, act: Act<KvRequest>| {
        Event::At(
            NodeId {
                replica: 0,
                partition,
            },
            act,
        )
    };
    [
        at(0, Act::Submit(request(1, KvRequest::Add(1, 5)))),
        at(0, Act::Submit(request(2, KvRequest::Put(2, 9)))),
        at(1, Act::Submit(request(3, KvRequest::Add(1, 6)))),
        at(0, Act::Close),
        at(1, Act::Close),
    ]
}

/// Two values are the same; else the test fails, and shows both.
fn same<T: PartialEq + Debug + Drop>(rt: &impl Abort, found: T, wanted: T) {
    assert_eq!(rt; found, wanted);
}

/// A book of two partitions and three replicas in which the batches were submitted.
fn new_book(alloc: Global) -> Result<StoreBook<Kv>, Fault> {
    let config = Config::new(2, 3)?;
    let mut book = StoreBook::<Kv>::new(alloc, &config, Kv)?;
    for event in &submitted() {
        book.apply(event)?;
    }
    Ok(book)
}

/// The rows of keys 1 and 2 of each replica.
type AllRows = [[Option<u64>; 2]; 3];

/// Brings a book to the end of epoch 0 with two workers, and gives its rows.
fn rows_over<J: WideFounding + 'static, R: Threads + Wait + Copy + Send + Sync + 'static>(
    rt: R,
    alloc: Global,
    opened: Opened<Entry<KvRequest, u64, KvReply>>,
    book: StoreBook<Kv>,
) -> Result<AllRows, Fault>
    requires opened { (opened.0 ≡ J.book) × (opened.1 ≡ J.nodes) }
    requires nodes { J.nodes ≡ book.config.replicas * book.config.partitions }
    requires config { book.config ≡ J.config }
{
    let book = bring_on_wide::<Kv, QueueLocks, ColdRows<u64>, Open, J, R>(
        rt, alloc, Kv, opened, book, 1, 2, Open,
    )?;
    let row = |replica: u8, id: u64| book.world().peek(replica, &Key { table: 0, id });
    let found = [
        [row(0, 1), row(0, 2)],
        [row(1, 1), row(1, 2)],
        [row(2, 1), row(2, 2)],
    ];
    give_back(book);
    Ok(found)
}

/// The same of the book in which the batches were submitted.
fn rows_after<R: Threads + Wait + Copy + Send + Sync + 'static>(
    rt: R,
    alloc: Global,
) -> Result<AllRows, Fault> {
    let book = new_book(alloc)?;
    let opened = opened_for(&book);
    rows_over::<Brand, _>(rt, alloc, opened, book)
}

/// After epoch 0 each replica has the same rows.
#[test]
fn brought_to_the_last_epoch(rt: HostRuntime) -> Result<(), Fail> {
    let found = rows_after(rt, rt.alloc())?;
    same(&rt, found, [[Some(11), Some(9)]; 3]);
    Ok(())
}
