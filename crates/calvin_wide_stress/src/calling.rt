//! What a caller does.
use calvin_app::Kv;
use calvin_cluster::Open;
use calvin_stress_draws::{Run, node_of, request_of};
use calvin_types::{Fault, RequestId};
use calvin_wide::{StoreWideCluster, WideAnswer, WideFounding, WideTicket};
use std::alloc::Global;
use std::sync::Wait;

pub(crate) type KvCluster<J> = StoreWideCluster<Kv, Open, J>;

/// What a caller was handed of one request: its receipt, and that of the answer, unless the store halted before.
#[derive(Drop)]
pub(crate) struct Handed<J: WideFounding> {
    pub ticket: WideTicket<Kv, J>,
    pub heard: Option<WideAnswer<Kv, J>>,
}

/// A caller submits its requests one after another, and waits for each. It ends where the store has halted, which is an answer that
/// is lost where nobody halts it.
pub(crate) fn call<J: WideFounding + 'static, R: Wait>(
    rt: &R,
    alloc: Global,
    cluster: &KvCluster<J>,
    run: &Run,
    client: u32,
) -> Result<Vec<Handed<J>>, Fault> {
    let mut all = Vec::new(alloc);
    for number in 0..run.requests {
        if client == 0 && run.halts == Some(number) {
            cluster.halt(rt);
        }
        let id = RequestId { client, number };
        let ticket = match cluster.submit(rt, node_of(run, id), request_of(run.number, id)) {
            Ok(ticket) => ticket,
            Err(Fault::Closed) if run.halts.is_some() => break,
            Err(fault) => return Err(fault),
        };
        let heard = match cluster.wait(rt, &ticket) {
            Ok(answer) => Some(answer),
            Err(Fault::Closed) if run.halts.is_some() => None,
            Err(fault) => return Err(fault),
        };
        all.push(Handed { ticket, heard })?;
    }
    Ok(all)
}
