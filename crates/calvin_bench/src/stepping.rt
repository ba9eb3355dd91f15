//! What a step makes of the partitions of a replica.
ghost use Rattle.std.specs.Prelude.{map};
ghost use Rattle.calvin_types.specs.Deeds.{Did};
ghost use Rattle.calvin_types.specs.Orders.{Order};
ghost use Rattle.calvin_bench.specs.declared.step.Step.TheVariants as the;
ghost use Rattle.calvin_bench.specs.Steps.{step, grows};
ghost use Rattle.calvin_bench.specs.Replicas.{part_of, AllTellAlike};

use crate::partition::Partition;
use crate::step::Outcome;
use calvin_app::App;
use calvin_lock::Locks;
use calvin_store::Rows;
use calvin_types::{Fault, Place, Txn};

/// The next request of the order is admitted at a partition.
pub(crate) fn admit<A: App, L: Locks + Drop, S: Rows<A::Row> + Drop>(
    partitions: &mut [Partition<A, L, S>],
    order: &[(Place, Txn<A::Args>)],
    p: u8,
) -> Result<Outcome<A::Row, A::Reply>, Fault>
    ensures did { let old = map part_of partitions.old in let e = the.Admit p in
        Did (grows A.meaning order.now old e) result (step A.meaning order.now old e) old (map part_of partitions.new) }
    ensures told { AllTellAlike partitions.old partitions.new }
{
    let at = p as usize;
    if at >= partitions.len() {
        return Err(Fault::NoNode);
    }
    partitions[at].admit(order)
}

/// The request at a place begins at a partition.
pub(crate) fn begin<A: App, L: Locks + Drop, S: Rows<A::Row> + Drop>(
    partitions: &mut [Partition<A, L, S>],
    p: u8,
    place: Place,
) -> Result<Outcome<A::Row, A::Reply>, Fault>
    ensures did { (order : Order A.Args) → let old = map part_of partitions.old in let e = the.Begin p place in
        Did (grows A.meaning order old e) result (step A.meaning order old e) old (map part_of partitions.new) }
    ensures told { AllTellAlike partitions.old partitions.new }
{
    let at = p as usize;
    if at >= partitions.len() {
        return Err(Fault::NoNode);
    }
    partitions[at].begin(place)
}

/// A partition takes the rows that another one read for the request at a place, where it awaits them.
pub(crate) fn receive<A: App, L: Locks + Drop, S: Rows<A::Row> + Drop>(
    partitions: &mut [Partition<A, L, S>],
    p: u8,
    from: u8,
    place: Place,
) -> Result<Outcome<A::Row, A::Reply>, Fault>
    ensures did { (order : Order A.Args) → let old = map part_of partitions.old in let e = the.Reads p from place in
        Did (grows A.meaning order old e) result (step A.meaning order old e) old (map part_of partitions.new) }
    ensures told { AllTellAlike partitions.old partitions.new }
{
    let at = p as usize;
    let giver = from as usize;
    if at >= partitions.len() {
        return Err(Fault::NoNode);
    }
    if giver >= partitions.len() {
        return Err(Fault::NoNode);
    }
    if !partitions[at].awaits(from, place) {
        return Err(Fault::NotAwaited);
    }
    let rows = partitions[giver].served(place)?;
    partitions[at].receive(from, place, &rows)
}

/// The request at a place is run at a partition.
pub(crate) fn finish<A: App, L: Locks + Drop, S: Rows<A::Row> + Drop>(
    partitions: &mut [Partition<A, L, S>],
    app: &A,
    p: u8,
    place: Place,
) -> Result<Outcome<A::Row, A::Reply>, Fault>
    ensures did { (order : Order A.Args) → let old = map part_of partitions.old in let e = the.Finish p place in
        Did (grows A.meaning order old e) result (step A.meaning order old e) old (map part_of partitions.new) }
    ensures told { AllTellAlike partitions.old partitions.new }
{
    let at = p as usize;
    if at >= partitions.len() {
        return Err(Fault::NoNode);
    }
    partitions[at].finish(app, place)
}
