//! What a caller does.
use calvin_app::{Answer, Kv, KvReply};
use calvin_cluster::{Founding, Open, StoreCluster, Told};
use calvin_stress_draws::{Run, node_of, request_of};
use calvin_types::{Fault, RequestId};
use std::alloc::Global;
use std::sync::Wait;

pub(crate) type KvCluster<J> = StoreCluster<Kv, Open, J>;

/// What a caller saw of one request: its id, the epoch that had been told when it was submitted, its answer, and the epoch that was
/// told by it.
#[derive(Clone, Copy)]
pub(crate) struct Seen {
    pub id: RequestId,
    pub before: Option<u64>,
    pub answer: Answer<KvReply>,
    pub after: Option<u64>,
}

/// A caller submits its requests one after another, each with what it was told, and waits for each. It ends where the cluster has
/// halted, which is an answer that is lost where nobody halts it; where a request is refused since its node hasn't come as far as
/// what was told, it goes on with the next one.
pub(crate) fn call<J: Founding + 'static, R: Wait>(
    rt: &R,
    alloc: Global,
    cluster: &KvCluster<J>,
    run: &Run,
    client: u32,
) -> Result<Vec<Seen>, Fault> {
    let mut all = Vec::new(alloc);
    let mut told = Told::new();
    for number in 0..run.requests {
        if client == 0 && run.halts == Some(number) {
            cluster.halt(rt);
        }
        let id = RequestId { client, number };
        let before = told.epoch();
        let ticket = match cluster.submit(rt, &told, node_of(run, id), request_of(run.number, id)) {
            Ok(ticket) => ticket,
            Err(Fault::Closed) if run.halts.is_some() => break,
            Err(Fault::Stale) => continue,
            Err(fault) => return Err(fault),
        };
        match cluster.wait(rt, &ticket) {
            Ok((answer, next)) => {
                let after = next.epoch();
                all.push(Seen {
                    id,
                    before,
                    answer,
                    after,
                })?;
                told = next;
            }
            Err(Fault::Closed) if run.halts.is_some() => break,
            Err(fault) => return Err(fault),
        }
    }
    Ok(all)
}
