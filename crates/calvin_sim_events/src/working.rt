//! What brings the nodes on: packets are delivered as they are sent, and each node that one reached works on. Rows that come too early
//! are delivered again.
ghost use Rattle.std.specs.Prelude.{◌≡◌, true, OnOk, OnErr, IsOkUnless};
ghost use Rattle.calvin_sim_events.specs.declared.schedule.Restarts.TheVariants.{Never};
ghost use Rattle.calvin_report.specs.Reports.{is_lost};
ghost use Rattle.calvin_sim_events.specs.Passes.{IsRedelivery, Repeats};
ghost use Rattle.calvin_sim_events.specs.Quiet.{everyone, LeadsQuietly, LeadsToWant};

use crate::schedule::Schedule;
use crate::stepping::{addressee, begin_at, deliver, finish_at, happen_at, lock_at, sent};
use calvin_app::App;
use calvin_node::Act;
use calvin_node_packets::Sent;
use calvin_types::{Config, Fault, NodeId, Place};
use calvin_world::{Outcome, StoreWorld};
use std::alloc::Global;

/// A node, whether something reached it since it last worked, or it merged an epoch then, the greatest place whose request was run
/// there, if one was, and the numbers of the packets that came too early: they have rows for requests of epochs that the node hasn't
/// merged. The greatest place only decides which of two events is asked for first: at a greater one the request begins, and is then
/// finished; up to it, it is finished, and begins only where it is refused that since it hasn't begun.
#[derive(Drop)]
pub(crate) struct Seat {
    pub id: NodeId,
    is_woken: bool,
    last_run: Option<Place>,
    early: Vec<usize>,
}

impl Seat {
    /// Whether a place is greater than all whose requests were run here.
    fn is_past_last_run(&self, place: Place) -> bool {
        match self.last_run {
            Some(last) => last < place,
            None => true,
        }
    }
}

/// All nodes, replica by replica, and how many packets were delivered so far, one after another.
#[derive(Drop)]
pub(crate) struct Crew {
    pub config: Config,
    pub seats: Vec<Seat>,
    delivered: usize,
    alloc: Global,
}

impl Crew {
    /// All nodes: nothing was delivered, and each is to work. Refused with `OutOfMemory` alone.
    pub fn new(alloc: Global, config: &Config) -> Result<Crew, Fault>
        ensures only { IsOkUnless result Fault.OutOfMemory }
    {
        let mut seats = Vec::new(alloc);
        let number = config.replicas as usize * config.partitions as usize;
        for i in 0..number {
            seats.push(Seat {
                id: id_at(config, i),
                is_woken: true,
                last_run: None,
                early: Vec::new(alloc),
            })?;
        }
        Ok(Crew {
            config: *config,
            seats,
            delivered: 0,
            alloc,
        })
    }

    /// The seat of a node.
    fn seat(&mut self, id: NodeId) -> Option<&mut Seat> {
        let before = id.replica as usize * self.config.partitions as usize;
        self.seats.get_mut(before + id.partition as usize)
    }

    /// A node is to work.
    fn wake(&mut self, id: NodeId) {
        if let Some(seat) = self.seat(id) {
            seat.is_woken = true;
        }
    }

    /// Keeps the number of a packet that did nothing, if it came too early. Where there is no memory for that, its rows are asked for
    /// once nothing else is left to do.
    fn keep_early<A: App + Drop>(
        &mut self,
        world: &StoreWorld<A>,
        number: usize,
        lost: Option<u8>,
    ) {
        let Some(id) = addressee(world, number, lost) else {
            return;
        };
        let Some(Sent::Reads(place, _)) = world.packets().sent(number) else {
            return;
        };
        if has_merged(world, id, place.epoch) {
            return;
        }
        if let Some(seat) = self.seat(id) {
            let _kept = seat.early.push(number);
        }
    }

    /// Delivers a packet to the node that it is for, unless it is lost; the node is to work if the packet took effect, and whether
    /// it did is said. Answers to clients stay.
    fn deliver<A: App + Drop>(
        &mut self,
        world: &mut StoreWorld<A>,
        number: usize,
        lost: Option<u8>,
    ) -> Result<bool, Fault>
        ensures quiet { OnOk result (LeadsQuietly A.meaning Never (is_lost lost) world.old world.new) }
        ensures want { OnErr result (LeadsToWant A.meaning Never (is_lost lost) world.old world.new) }
        ensures delivered { OnOk result (IsRedelivery A.meaning (is_lost lost) number world.old world.new) }
        ensures only { IsOkUnless result Fault.OutOfMemory }
    {
        let reached = deliver(world, number, lost)?;
        if let Some(id) = reached {
            self.wake(id);
        }
        Ok(reached.is_some())
    }

    /// Delivers a packet, and keeps its number where it came too early.
    fn deliver_or_keep<A: App + Drop>(
        &mut self,
        world: &mut StoreWorld<A>,
        number: usize,
        lost: Option<u8>,
    ) -> Result<(), Fault>
        ensures quiet { OnOk result (LeadsQuietly A.meaning Never (is_lost lost) world.old world.new) }
        ensures want { OnErr result (LeadsToWant A.meaning Never (is_lost lost) world.old world.new) }
        ensures only { IsOkUnless result Fault.OutOfMemory }
    {
        if !self.deliver(world, number, lost)? {
            self.keep_early(world, number, lost);
        }
        Ok(())
    }

    /// The numbers of the packets that came too early to the node of a seat, if it is to work. None are kept for it any more.
    fn take_early(&mut self, at: usize) -> Vec<usize> {
        match self.seats.get_mut(at) {
            Some(seat) if seat.is_woken => {
                std::mem::replace(&mut seat.early, Vec::new(self.alloc))
            }
            _ => Vec::new(self.alloc),
        }
    }

    /// Delivers the packets again that came too early to the node of a seat, if it is to work.
    #[tactic(auto, using(crate::proofs::Leading::quiet_here, crate::proofs::Leading::quiet_then, crate::proofs::Leading::want_then))]
    fn deliver_early_at<A: App + Drop>(
        &mut self,
        world: &mut StoreWorld<A>,
        at: usize,
        lost: Option<u8>,
    ) -> Result<(), Fault>
        ensures quiet { OnOk result (LeadsQuietly A.meaning Never (is_lost lost) world.old world.new) }
        ensures want { OnErr result (LeadsToWant A.meaning Never (is_lost lost) world.old world.new) }
        ensures only { IsOkUnless result Fault.OutOfMemory }
    {
        let early = self.take_early(at);
        for i in 0..early.len() {
            self.deliver_or_keep(world, early[i], lost)?;
        }
        Ok(())
    }

    /// Delivers the packets again that came too early to the nodes that have merged an epoch since.
    #[tactic(auto, using(crate::proofs::Leading::quiet_here, crate::proofs::Leading::quiet_then, crate::proofs::Leading::want_then))]
    fn deliver_early<A: App + Drop>(
        &mut self,
        world: &mut StoreWorld<A>,
        lost: Option<u8>,
    ) -> Result<(), Fault>
        ensures quiet { OnOk result (LeadsQuietly A.meaning Never (is_lost lost) world.old world.new) }
        ensures want { OnErr result (LeadsToWant A.meaning Never (is_lost lost) world.old world.new) }
        ensures only { IsOkUnless result Fault.OutOfMemory }
    {
        for at in 0..self.seats.len() {
            self.deliver_early_at(world, at, lost)?;
        }
        Ok(())
    }

    /// Delivers the packets that were sent so far and not delivered here yet.
    #[tactic(auto, using(crate::proofs::Leading::quiet_here, crate::proofs::Leading::quiet_then, crate::proofs::Leading::want_then))]
    fn deliver_sent<A: App + Drop>(
        &mut self,
        world: &mut StoreWorld<A>,
        lost: Option<u8>,
    ) -> Result<(), Fault>
        ensures quiet { OnOk result (LeadsQuietly A.meaning Never (is_lost lost) world.old world.new) }
        ensures want { OnErr result (LeadsToWant A.meaning Never (is_lost lost) world.old world.new) }
        ensures only { IsOkUnless result Fault.OutOfMemory }
    {
        let end = sent(world);
        for number in self.delivered..end {
            self.deliver_or_keep(world, number, lost)?;
        }
        self.delivered = end;
        Ok(())
    }

    /// Each node that is to work does, replica by replica; one that merged an epoch is to work again. The first seat of a replica is
    /// that of partition 0.
    #[tactic(auto, using(crate::proofs::Leading::quiet_here, crate::proofs::Leading::quiet_then, crate::proofs::Leading::want_then))]
    fn work<A: App + Drop>(&mut self, world: &mut StoreWorld<A>) -> Result<(), Fault>
        ensures quiet { OnOk result (LeadsQuietly A.meaning Never everyone world.old world.new) }
        ensures want { OnErr result (LeadsToWant A.meaning Never everyone world.old world.new) }
        ensures only { IsOkUnless result Fault.OutOfMemory }
    {
        let partitions = self.config.partitions;
        let mut greatest = 0;
        for seat in &mut self.seats {
            if seat.id.partition == 0 {
                greatest = greatest_to_merge(world, seat.id.replica, partitions);
            }
            if seat.is_woken {
                seat.is_woken = work_at(world, seat, greatest)?;
            }
        }
        Ok(())
    }

    /// The nodes work that are to; then packets that came too early are delivered again, and those that were sent.
    #[tactic(auto, using(crate::proofs::Leading::quiet_here, crate::proofs::Leading::quiet_then, crate::proofs::Leading::want_then, crate::proofs::Leading::quiet_then_ok, crate::proofs::Leading::want_then_err))]
    fn turn<A: App + Drop>(
        &mut self,
        world: &mut StoreWorld<A>,
        lost: Option<u8>,
    ) -> Result<(), Fault>
        ensures quiet { OnOk result (LeadsQuietly A.meaning Never (is_lost lost) world.old world.new) }
        ensures want { OnErr result (LeadsToWant A.meaning Never (is_lost lost) world.old world.new) }
        ensures only { IsOkUnless result Fault.OutOfMemory }
    {
        self.work(world)?;
        self.deliver_early(world, lost)?;
        self.deliver_sent(world, lost)
    }

    /// Whether nothing is left to do: no packet that wasn't delivered here, and no node that is to work.
    fn is_idle<A: App + Drop>(&self, world: &StoreWorld<A>) -> bool {
        for seat in &self.seats {
            if seat.is_woken {
                return false;
            }
        }
        self.delivered >= sent(world)
    }

    /// Packets are delivered and nodes work until nothing is left to do. Each turn but the last delivers a packet or merges an
    /// epoch, and of both there are fewer than 2^63.
    #[tactic(auto, using(crate::proofs::Leading::quiet_here, crate::proofs::Leading::quiet_then, crate::proofs::Leading::want_then))]
    pub fn work_on<A: App + Drop>(
        &mut self,
        world: &mut StoreWorld<A>,
        lost: Option<u8>,
    ) -> Result<(), Fault>
        ensures quiet { OnOk result (LeadsQuietly A.meaning Never (is_lost lost) world.old world.new) }
        ensures want { OnErr result (LeadsToWant A.meaning Never (is_lost lost) world.old world.new) }
        ensures only { IsOkUnless result Fault.OutOfMemory }
    {
        for _ in 0..u64::MAX {
            self.turn(world, lost)?;
            if self.is_idle(world) {
                break;
            }
        }
        Ok(())
    }

    /// Where packets are repeated, delivers each of the first ones again that is for a node and isn't lost, from the one with the
    /// greatest number down.
    #[tactic(auto, using(crate::proofs::Leading::quiet_here, crate::proofs::Leading::quiet_then, crate::proofs::Leading::want_then))]
    pub fn deliver_again<A: App + Drop>(
        &mut self,
        world: &mut StoreWorld<A>,
        packets: usize,
        schedule: &Schedule,
    ) -> Result<(), Fault>
        ensures again { OnOk result (Repeats A.meaning schedule.now.repeats (is_lost schedule.now.lost) packets world.old world.new) }
        ensures want { OnErr result (LeadsToWant A.meaning Never (is_lost schedule.now.lost) world.old world.new) }
        ensures only { IsOkUnless result Fault.OutOfMemory }
    {
        if !schedule.repeats {
            return Ok(());
        }
        for done in 0..packets {
            let _reached = self.deliver(world, packets - done - 1, schedule.lost)?;
        }
        Ok(())
    }
}

/// The name of the node that stands at a place among all.
fn id_at(config: &Config, at: usize) -> NodeId {
    let partitions = config.partitions as usize;
    NodeId {
        replica: (at / partitions).min(255) as u8,
        partition: (at % partitions).min(255) as u8,
    }
}

/// The epoch that a node merges next.
fn next_to_merge<A: App + Drop>(world: &StoreWorld<A>, id: NodeId) -> Option<u64> {
    world.node(id)?.next_to_merge()
}

/// Whether a node has merged an epoch. True also where there is no such node, or no epoch is left.
fn has_merged<A: App + Drop>(world: &StoreWorld<A>, id: NodeId, epoch: u64) -> bool {
    match next_to_merge(world, id) {
        Some(next) => epoch < next,
        None => true,
    }
}

/// The greatest of the epochs that the nodes of a replica merge next.
fn greatest_to_merge<A: App + Drop>(world: &StoreWorld<A>, replica: u8, partitions: u8) -> u64 {
    let mut greatest = 0;
    for partition in 0..partitions {
        let id = NodeId { replica, partition };
        if let Some(epoch) = next_to_merge(world, id) {
            greatest = greatest.max(epoch);
        }
    }
    greatest
}

/// A node merges the epochs up to `last`, as far as they are decided. Says whether it merged one.
#[tactic(auto, using(crate::proofs::Leading::quiet_here, crate::proofs::Leading::quiet_then, crate::proofs::Leading::want_then))]
fn merge_up_to<A: App + Drop>(
    world: &mut StoreWorld<A>,
    id: NodeId,
    last: u64,
) -> Result<bool, Fault>
    ensures quiet { OnOk result (LeadsQuietly A.meaning Never everyone world.old world.new) }
    ensures want { OnErr result (LeadsToWant A.meaning Never everyone world.old world.new) }
    ensures only { IsOkUnless result Fault.OutOfMemory }
{
    let mut merged = false;
    for _ in 0..u64::MAX {
        if has_merged(world, id, last) {
            break;
        }
        let Outcome::Done = happen_at(world, id, Act::Merge)? else {
            break;
        };
        merged = true;
    }
    Ok(merged)
}

/// A node merges the epochs up to `last`, as far as they are decided, and lets all that is merged ask for its locks. Says whether an
/// epoch was merged.
#[tactic(auto, using(crate::proofs::Leading::quiet_here, crate::proofs::Leading::quiet_then, crate::proofs::Leading::want_then))]
fn admit<A: App + Drop>(world: &mut StoreWorld<A>, id: NodeId, last: u64) -> Result<bool, Fault>
    ensures quiet { OnOk result (LeadsQuietly A.meaning Never everyone world.old world.new) }
    ensures want { OnErr result (LeadsToWant A.meaning Never everyone world.old world.new) }
    ensures only { IsOkUnless result Fault.OutOfMemory }
{
    let merged = merge_up_to(world, id, last)?;
    lock_all(world, id)?;
    Ok(merged)
}

/// A node merges and admits what it can of the epochs up to `last`; then what is ready runs. Says whether an epoch was merged: there
/// may be another one.
#[tactic(auto, using(crate::proofs::Leading::quiet_here, crate::proofs::Leading::quiet_then, crate::proofs::Leading::want_then))]
fn work_at<A: App + Drop>(
    world: &mut StoreWorld<A>,
    seat: &mut Seat,
    last: u64,
) -> Result<bool, Fault>
    ensures quiet { OnOk result (LeadsQuietly A.meaning Never everyone world.old world.new) }
    ensures want { OnErr result (LeadsToWant A.meaning Never everyone world.old world.new) }
    ensures only { IsOkUnless result Fault.OutOfMemory }
{
    let merged = admit(world, seat.id, last)?;
    run_ready(world, seat)?;
    Ok(merged)
}

/// All that a node merged asks for its locks, one after another, until none is left: so 2^64 times are enough.
#[tactic(auto, using(crate::proofs::Leading::quiet_here, crate::proofs::Leading::quiet_then, crate::proofs::Leading::want_then))]
fn lock_all<A: App + Drop>(world: &mut StoreWorld<A>, id: NodeId) -> Result<(), Fault>
    ensures quiet { OnOk result (LeadsQuietly A.meaning Never everyone world.old world.new) }
    ensures want { OnErr result (LeadsToWant A.meaning Never everyone world.old world.new) }
    ensures only { IsOkUnless result Fault.OutOfMemory }
{
    for _ in 0..u64::MAX {
        let Outcome::Done = lock_at(world, id)? else {
            break;
        };
    }
    Ok(())
}

/// The requests of a node that have their locks run, in the order of their places, up to the epoch of the first that
/// awaits rows. A request that is done gives its locks to later ones only, so one time over them is enough; there are
/// fewer than 2^64.
#[tactic(auto, using(crate::proofs::Leading::quiet_here, crate::proofs::Leading::quiet_then, crate::proofs::Leading::want_then))]
fn run_ready<A: App + Drop>(world: &mut StoreWorld<A>, seat: &mut Seat) -> Result<(), Fault>
    ensures quiet { OnOk result (LeadsQuietly A.meaning Never everyone world.old world.new) }
    ensures want { OnErr result (LeadsToWant A.meaning Never everyone world.old world.new) }
    ensures only { IsOkUnless result Fault.OutOfMemory }
{
    let mut after = None;
    let mut last_epoch = u64::MAX;
    for _ in 0..u64::MAX {
        let Some(place) = ready_after(world, seat.id, after) else {
            break;
        };
        if place.epoch > last_epoch {
            break;
        }
        if awaits(run(world, seat, place)?) {
            last_epoch = place.epoch;
        }
        after = Some(place);
    }
    Ok(())
}

/// The least place of a node after another whose request has its locks and isn't done.
pub(crate) fn ready_after<A: App + Drop>(
    world: &StoreWorld<A>,
    id: NodeId,
    after: Option<Place>,
) -> Option<Place> {
    world.node(id)?.first_ready(after)
}

/// Whether a request that was to be finished awaits rows of another partition.
fn awaits(outcome: Outcome) -> bool {
    matches!(outcome, Outcome::Refused(Fault::ReadsMissing))
}

/// The request at a place is finished if it can be, and begins before that, if it has not begun.
fn run<A: App + Drop>(
    world: &mut StoreWorld<A>,
    seat: &mut Seat,
    place: Place,
) -> Result<Outcome, Fault>
    ensures quiet { OnOk result (LeadsQuietly A.meaning Never everyone world.old world.new) }
    ensures want { OnErr result (LeadsToWant A.meaning Never everyone world.old world.new) }
    ensures only { IsOkUnless result Fault.OutOfMemory }
{
    if seat.is_past_last_run(place) {
        seat.last_run = Some(place);
        return run_first(world, seat.id, place);
    }
    run_again(world, seat.id, place)
}

/// The request at a place is finished if it can be; where it has not begun it begins before that.
#[tactic(auto, using(crate::proofs::Leading::quiet_here, crate::proofs::Leading::quiet_then, crate::proofs::Leading::want_then, crate::proofs::Leading::quiet_then_ok, crate::proofs::Leading::want_then_err))]
fn run_again<A: App + Drop>(
    world: &mut StoreWorld<A>,
    id: NodeId,
    place: Place,
) -> Result<Outcome, Fault>
    ensures quiet { OnOk result (LeadsQuietly A.meaning Never everyone world.old world.new) }
    ensures want { OnErr result (LeadsToWant A.meaning Never everyone world.old world.new) }
    ensures only { IsOkUnless result Fault.OutOfMemory }
{
    match finish_at(world, id, place)? {
        Outcome::Refused(Fault::NotReady) => run_first(world, id, place),
        outcome => Ok(outcome),
    }
}

/// The request at a place begins, if it has not begun, and is finished if it can be.
#[tactic(auto, using(crate::proofs::Leading::quiet_here, crate::proofs::Leading::quiet_then, crate::proofs::Leading::want_then, crate::proofs::Leading::quiet_then_ok, crate::proofs::Leading::want_then_err))]
fn run_first<A: App + Drop>(
    world: &mut StoreWorld<A>,
    id: NodeId,
    place: Place,
) -> Result<Outcome, Fault>
    ensures quiet { OnOk result (LeadsQuietly A.meaning Never everyone world.old world.new) }
    ensures want { OnErr result (LeadsToWant A.meaning Never everyone world.old world.new) }
    ensures only { IsOkUnless result Fault.OutOfMemory }
{
    let _begun = begin_at(world, id, place)?;
    finish_at(world, id, place)
}
