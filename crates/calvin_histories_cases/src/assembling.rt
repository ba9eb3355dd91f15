//! Histories of all nodes, and the list of events that they are parts of.
use crate::checks::same;
use crate::giving_back::give_back;
use crate::made::{
    BALLOT, FIRST_NODE, KvBook, KvHistory, SECOND_NODE, SLOT, batch, config, letter, name, own,
    prepare, promise, put,
};
use calvin_app::{Kv, KvRequest};
use calvin_histories::{Entry, Unassembled, assemble};
use calvin_node::Act;
use calvin_synod::Message;
use calvin_types::{Fault, Place, Txn};
use calvin_world::Event;
use std::alloc::Global;
use std::process::Abort;
use std::test::Fail;

/// The events that the histories assemble to, or why there are none.
fn assembled(
    alloc: Global,
    replicas: u8,
    histories: &[KvHistory],
) -> Result<Result<Vec<Event<KvRequest>>, Unassembled>, Fault> {
    let config = config(replicas)?;
    let book: KvBook = match assemble(alloc, &config, Kv, histories) {
        Ok(book) => book,
        Err(why) => return Ok(Err(why)),
    };
    let events = book.events().to_vec(alloc);
    give_back(book);
    Ok(Ok(events?))
}

fn at_first(act: Act<KvRequest>) -> Event<KvRequest> {
    Event::At(FIRST_NODE, act)
}

/// The second node's history: the first node's packet came.
fn asked(alloc: Global) -> Result<KvHistory, Fault> {
    let entries = vec![in alloc; Entry::Came(name(FIRST_NODE, 1), prepare())]?;
    Ok(KvHistory::of(entries))
}

/// The first node was promised before it asked, so nothing fits anywhere.
fn check_too_early(rt: &impl Abort, alloc: Global) -> Result<(), Fault> {
    let first = vec![in alloc;
        Entry::Came(name(SECOND_NODE, 0), promise()),
        own(Act::Close),
        own(Act::Propose(0)),
    ]?;
    let first = KvHistory::of(first);
    let histories = vec![in alloc; first, asked(alloc)?]?;
    let stuck = Unassembled::NoRun {
        node: FIRST_NODE,
        entry: 0,
    };
    same(rt, stuck.fault().number(), 82);
    same(rt, assembled(alloc, 2, &histories)?, Err(stuck));
    Ok(())
}

/// It asks, and then is promised: four events.
fn check_in_time(rt: &impl Abort, alloc: Global) -> Result<(), Fault> {
    let first = vec![in alloc;
        own(Act::Close),
        own(Act::Propose(0)),
        Entry::Came(name(SECOND_NODE, 0), promise()),
    ]?;
    let first = KvHistory::of(first);
    let histories = vec![in alloc; first, asked(alloc)?]?;
    let events = vec![in alloc;
        at_first(Act::Close),
        at_first(Act::Propose(0)),
        Event::Deliver(1),
        Event::Deliver(2),
    ]?;
    same(rt, assembled(alloc, 2, &histories)?, Ok(events));
    Ok(())
}

#[test]
fn assemble_small(rt: HostRuntime) -> Result<(), Fail> {
    check_too_early(&rt, rt.alloc())?;
    check_in_time(&rt, rt.alloc())?;
    Ok(())
}

/// A node alone agrees with itself on a batch of one request, and runs it.
fn one_node(alloc: Global, txn: Txn<KvRequest>, voted: Txn<KvRequest>) -> Result<KvHistory, Fault> {
    let slot = SLOT;
    let ballot = BALLOT;
    let vote = None;
    let asked = Message::Accept {
        slot,
        ballot,
        batch: batch(alloc, voted)?,
    };
    let cast = Message::Accepted {
        slot,
        ballot,
        batch: batch(alloc, voted)?,
    };
    let mine = |message| letter(FIRST_NODE, FIRST_NODE, message);
    let first = Place { epoch: 0, n: 0 };
    let entries = vec![in alloc;
        own(Act::Submit(txn)),
        own(Act::Close),
        own(Act::Propose(0)),
        Entry::Came(name(FIRST_NODE, 0), mine(Message::Prepare { slot, ballot })),
        Entry::Came(
            name(FIRST_NODE, 1),
            mine(Message::Promise { slot, ballot, vote }),
        ),
        Entry::Came(name(FIRST_NODE, 2), mine(asked)),
        Entry::Came(name(FIRST_NODE, 3), mine(cast)),
        own(Act::Merge),
        own(Act::Lock),
        own(Act::Begin(first)),
        own(Act::Finish(first)),
    ]?;
    Ok(KvHistory::of(entries))
}

/// The history of a node alone is the list itself.
#[test]
fn one_history(rt: HostRuntime) -> Result<(), Fail> {
    let alloc = rt.alloc();
    let first = Place { epoch: 0, n: 0 };
    let txn = put(1, 5);
    let histories = vec![in alloc; one_node(alloc, txn, txn)?]?;
    let events = vec![in alloc;
        at_first(Act::Submit(txn)),
        at_first(Act::Close),
        at_first(Act::Propose(0)),
        Event::Deliver(0),
        Event::Deliver(1),
        Event::Deliver(2),
        Event::Deliver(3),
        at_first(Act::Merge),
        at_first(Act::Lock),
        at_first(Act::Begin(first)),
        at_first(Act::Finish(first)),
    ]?;
    same(&rt, assembled(alloc, 1, &histories)?, Ok(events));
    Ok(())
}

/// A batch that came isn't the one that was sent: the first entry that can't be is the vote that is asked for.
#[test]
fn one_changed_batch(rt: HostRuntime) -> Result<(), Fail> {
    let alloc = rt.alloc();
    let histories = vec![in alloc; one_node(alloc, put(1, 5), put(1, 6))?]?;
    let stuck = Unassembled::NoRun {
        node: FIRST_NODE,
        entry: 5,
    };
    same(&rt, assembled(alloc, 1, &histories)?, Err(stuck));
    Ok(())
}

/// There is one history for each node.
#[test]
fn other_number_of_histories(rt: HostRuntime) -> Result<(), Fail> {
    let alloc = rt.alloc();
    let histories = vec![in alloc; asked(alloc)?]?;
    let refused = Unassembled::Refused(Fault::NoNode);
    same(&rt, assembled(alloc, 2, &histories)?, Err(refused));
    same(&rt, refused.fault(), Fault::NoNode);
    Ok(())
}
