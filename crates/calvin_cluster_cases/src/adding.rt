//! Four callers add to one number.
use crate::running::{Calls, Case, ONE_NODE, run};
use crate::stores::{Handed, KvCluster, ask, node, request, same};
use calvin_app::{Answer, Kv, KvReply, KvRequest};
use calvin_book::StoreBook;
use calvin_cluster::{Drill, Founding, NO_DRILL};
use calvin_node::Act;
use calvin_types::Fault;
use calvin_world::Event;
use std::alloc::Global;
use std::process::Abort;
use std::sync::Wait;
use std::test::Fail;
use std::thread::{Threads, map_indices};

/// One caller submits 25 requests at node (0, 1), and waits for each.
fn add_often<J: Founding, R: Wait>(
    rt: &R,
    alloc: Global,
    cluster: &KvCluster<J>,
    client: u32,
) -> Result<Vec<Handed<J>>, Fault> {
    let mut all = Vec::new(alloc);
    for number in 1..=25 {
        let add = request(client, number, KvRequest::Add(1, 1));
        all.push(ask(rt, cluster, node(1), add)?)?;
    }
    Ok(all)
}

/// Four callers do so.
pub(crate) fn add_hundred<J: Founding + 'static, R: Threads + Wait + Copy + Send + Sync + 'static>(
    rt: R,
    alloc: Global,
    cluster: &KvCluster<J>,
) -> Result<Vec<Handed<J>>, Fault> {
    let callers = map_indices(
        &rt,
        alloc,
        4,
        &|client| add_often(&rt, alloc, cluster, client.min(255) as u32),
    )?;
    let mut all = Vec::new(alloc);
    for caller in callers {
        for one in caller? {
            all.push(one)?;
        }
    }
    Ok(all)
}

/// The greatest epoch that callers were told of.
fn last_told<J: Founding>(handed: &[Handed<J>]) -> Option<u64> {
    let mut last = None;
    for one in handed {
        if let Some((_answer, told)) = &one.heard {
            last = last.max(told.epoch());
        }
    }
    last
}

/// They do so, and every node comes to stand at the last epoch that they are told of.
pub(crate) fn add_until_all_stand<
    J: Founding + 'static,
    R: Threads + Wait + Copy + Send + Sync + 'static,
>(rt: R, alloc: Global, cluster: &KvCluster<J>) -> Result<Vec<Handed<J>>, Fault> {
    let all = add_hundred(rt, alloc, cluster)?;
    if let Some(epoch) = last_told(&all) {
        cluster.wait_all(&rt, epoch)?;
    }
    Ok(all)
}

/// How many requests a book's events submit.
fn submissions(book: &StoreBook<Kv>) -> usize {
    let events = book.events();
    (0..events.len())
        .filter(|number| matches!(events.get(*number), Some(Event::At(_, Act::Submit(_)))))
        .count()
}

/// The number that an answer tells, if it tells one.
fn value_of(answer: Option<Answer<KvReply>>) -> Option<u64> {
    match answer {
        Some(Answer::Reply(KvReply::Value(value))) => Some(value),
        _ => None,
    }
}

/// A hundred requests were submitted, and the answers are 1 to 100, each once.
pub(crate) fn check_hundred<J: Founding, R: Abort>(
    rt: &R,
    alloc: Global,
    handed: &[Handed<J>],
    book: &StoreBook<Kv>,
) -> Result<(), Fault> {
    same(rt, submissions(book), 100);
    let mut values = Vec::new(alloc);
    for one in handed {
        values.push(value_of(one.answer()))?;
    }
    values.sort()?;
    same(rt, values.len(), 100);
    for (number, value) in values.iter().enumerate() {
        same(rt, *value, Some((number as u64).saturating_add(1)));
    }
    Ok(())
}

/// Two partitions in three replicas, at which four callers add to one number while a drill goes on.
fn in_drill(drill: Drill, calls: Calls) -> Case {
    Case {
        partitions: 2,
        replicas: 3,
        workers: 4,
        drill,
        calls,
        ..ONE_NODE
    }
}

#[test]
fn hundred_adds(rt: HostRuntime) -> Result<(), Fail> {
    let case = in_drill(NO_DRILL, Calls::AddHundred);
    Ok(run(rt, rt.alloc(), &case)?)
}

/// Couriers lose every third packet, and deliver every fifth twice: the same answers, and all nodes have come as far at the end.
#[test]
fn lossy_couriers(rt: HostRuntime) -> Result<(), Fail> {
    let drill = Drill {
        lose_every: 3,
        double_every: 5,
        ..NO_DRILL
    };
    let case = in_drill(drill, Calls::AddUntilAllStand);
    Ok(run(rt, rt.alloc(), &case)?)
}

/// Nodes of replicas 1 and 2 restart: the same answers, and all of them come back.
#[test]
fn nodes_restart(rt: HostRuntime) -> Result<(), Fail> {
    let drill = Drill {
        restart_every: 800,
        ..NO_DRILL
    };
    let case = in_drill(drill, Calls::AddUntilAllStand);
    Ok(run(rt, rt.alloc(), &case)?)
}

/// They do so while packets are lost and come twice.
#[test]
fn nodes_restart_and_couriers_lose(rt: HostRuntime) -> Result<(), Fail> {
    let drill = Drill {
        lose_every: 3,
        double_every: 5,
        restart_every: 800,
    };
    let case = in_drill(drill, Calls::AddUntilAllStand);
    Ok(run(rt, rt.alloc(), &case)?)
}

/// They restart so often that they hardly come back between: the same answers.
#[test]
fn nodes_restart_all_the_time(rt: HostRuntime) -> Result<(), Fail> {
    let drill = Drill {
        restart_every: 50,
        ..NO_DRILL
    };
    let case = in_drill(drill, Calls::AddHundred);
    Ok(run(rt, rt.alloc(), &case)?)
}
