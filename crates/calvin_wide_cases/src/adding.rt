//! Four callers add to one number.
use crate::giving_back::give_back;
use crate::running::{Calls, Case, ONE_NODE, run};
use crate::stores::{Handed, KvCluster, ask, node, request, same};
use calvin_app::{Answer, Kv, KvReply, KvRequest};
use calvin_book::StoreBook;
use calvin_histories::{Entry, History, Unassembled, assemble};
use calvin_node::Act;
use calvin_node_packets::{Content, Packet};
use calvin_types::{Batch, Config, Fault};
use calvin_wide::WideFounding;
use calvin_world::Event;
use std::alloc::Global;
use std::process::Abort;
use std::sync::Wait;
use std::test::Fail;
use std::thread::{Threads, map_indices};

/// One caller submits 25 requests at node (0, 1), and waits for each.
fn add_often<J: WideFounding, R: Wait>(
    rt: &R,
    alloc: Global,
    cluster: &KvCluster<J>,
    client: u32,
) -> Result<Vec<Handed<J>>, Fault> {
    let mut all = Vec::new(alloc);
    for number in 1..=25 {
        let add = request(client, number, KvRequest::Add(1, 1));
        all.push(ask(rt, cluster, node(0, 1), add)?)?;
    }
    Ok(all)
}

/// Four callers do so.
pub(crate) fn add_hundred<
    J: WideFounding + 'static,
    R: Threads + Wait + Copy + Send + Sync + 'static,
>(rt: R, alloc: Global, cluster: &KvCluster<J>) -> Result<Vec<Handed<J>>, Fault> {
    let callers = map_indices(
        &rt,
        alloc,
        4,
        &|client| add_often(&rt, alloc, cluster, client.min(255) as u32),
    )?;
    let mut all = Vec::new(alloc);
    for caller in callers {
        for one in caller? {
            all.push(one)?;
        }
    }
    Ok(all)
}

/// How many requests a book's events submit.
fn submissions(book: &StoreBook<Kv>) -> usize {
    let events = book.events();
    (0..events.len())
        .filter(|number| matches!(events.get(*number), Some(Event::At(_, Act::Submit(_)))))
        .count()
}

/// The number that an answer tells, if it tells one.
fn value_of(answer: Option<Answer<KvReply>>) -> Option<u64> {
    match answer {
        Some(Answer::Reply(KvReply::Value(value))) => Some(value),
        _ => None,
    }
}

/// A hundred requests were submitted, and the answers are 1 to 100, each once. With one batch changed that was delivered the histories
/// have no list.
pub(crate) fn check_hundred<J: WideFounding, R: Abort>(
    rt: &R,
    alloc: Global,
    handed: &[Handed<J>],
    book: &StoreBook<Kv>,
    histories: &[History<Kv>],
) -> Result<(), Fault> {
    same(rt, submissions(book), 100);
    let mut values = Vec::new(alloc);
    for one in handed {
        values.push(value_of(one.answer()))?;
    }
    values.sort()?;
    same(rt, values.len(), 100);
    for (number, value) in values.iter().enumerate() {
        same(rt, *value, Some((number as u64).saturating_add(1)));
    }
    check_changed(rt, alloc, histories)
}

type KvEntry = Entry<KvRequest, u64, KvReply>;

/// A copy of an entry.
fn copy_of(entry: &KvEntry) -> Result<KvEntry, Fault> {
    Ok(match entry {
        Entry::Own(act) => Entry::Own(*act),
        Entry::Came(name, packet) => {
            let content = packet.content.copy()?;
            let copy = Packet {
                from: packet.from,
                to: packet.to,
                content,
            };
            Entry::Came(*name, copy)
        }
    })
}

/// A copy of an entry in which another batch came, one without a request, where it is one in which a decided batch with a request came.
fn changed_copy(alloc: Global, entry: &KvEntry) -> Result<Option<KvEntry>, Fault> {
    let Entry::Came(name, packet) = entry else {
        return Ok(None);
    };
    let Content::Decided(slot, batch) = &packet.content else {
        return Ok(None);
    };
    if batch.len() == 0 {
        return Ok(None);
    }
    let other = Packet {
        from: packet.from,
        to: packet.to,
        content: Content::Decided(*slot, Batch::new(alloc, Vec::new(alloc))?),
    };
    Ok(Some(Entry::Came(*name, other)))
}

/// A copy of a history, in which the first batch with a request that came as decided is another one, if that is to be so. Says whether
/// there was one.
fn copy_history(
    alloc: Global,
    history: &History<Kv>,
    is_to_change: bool,
) -> Result<(History<Kv>, bool), Fault> {
    let mut entries = Vec::new(alloc);
    let mut is_changed = false;
    for at in 0..history.len() {
        if let Some(entry) = history.get(at) {
            let changed = if is_to_change && !is_changed {
                changed_copy(alloc, entry)?
            } else {
                None
            };
            is_changed = is_changed || changed.is_some();
            let copy = match changed {
                Some(changed) => changed,
                None => copy_of(entry)?,
            };
            entries.push(copy)?;
        }
    }
    Ok((History::of(entries), is_changed))
}

/// With the first decided batch changed that came to a node with a request, no list assembles the histories.
fn check_changed<R: Abort>(rt: &R, alloc: Global, histories: &[History<Kv>]) -> Result<(), Fault> {
    let mut others = Vec::new(alloc);
    let mut is_changed = false;
    for history in histories {
        let (other, is_other) = copy_history(alloc, history, !is_changed)?;
        is_changed = is_changed || is_other;
        others.push(other)?;
    }
    same(rt, is_changed, true);
    let config = Config::new(2, 3)?;
    match assemble(alloc, &config, Kv, &others) {
        Ok(book) => {
            give_back(book);
            same(rt, true, false);
        }
        Err(why) => {
            same(rt, matches!(why, Unassembled::NoRun { .. }), true);
            same(rt, why.fault(), Fault::NoRun);
        }
    }
    Ok(())
}

#[test]
fn honest_wide_run(rt: HostRuntime) -> Result<(), Fail> {
    let case = Case {
        partitions: 2,
        replicas: 3,
        workers: 4,
        calls: Calls::AddHundred,
        ..ONE_NODE
    };
    Ok(run(rt, rt.alloc(), &case)?)
}
