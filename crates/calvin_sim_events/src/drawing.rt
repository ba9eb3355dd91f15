//! Events that are drawn.
ghost use Rattle.std.specs.Prelude.{◌≡◌, true, false, IfSome, OnOk, OnErr, IsOkUnless};
ghost use Rattle.calvin_world.specs.declared.event.Event.TheVariants.{At};
ghost use Rattle.calvin_report.specs.Reports.{is_lost};
ghost use Rattle.calvin_sim_events.specs.Quiet.{may_restart, is_allowed, is_lossy, LeadsQuietlyBy, LeadsToWant};

use crate::schedule::{Restarts, Schedule};
use crate::stepping::{attempt, is_of_lost, sent};
use calvin_app::App;
use calvin_node::Act;
use calvin_store::Rows;
use calvin_types::{Config, Fault, Key, NodeId, Place, Slot};
use calvin_world::{Event, StoreWorld};
use rand_core::utils::NextWord;
use rand_pcg::Lcg64Xsh32;

/// The stream of the generator.
const STREAM: u64 = 54;

/// Half of the packets that are delivered are drawn from the last so many.
const RECENT: u32 = 64;

/// How far a node has come: the least place whose request has its locks and isn't done, and the last epoch at whose end it
/// stands, the first ones where there are none; and the epoch of the point that is open.
#[derive(Clone, Copy)]
struct Front {
    place: Place,
    epoch: u64,
    marked: Option<u64>,
}

/// From what events are drawn: a generator, the nodes that there are, and how many epochs were closed.
#[derive(Drop)]
struct Drawing {
    generator: Lcg64Xsh32,
    config: Config,
    epochs: u64,
}

impl Drawing {
    /// A number below `below`; 0, where that is 0.
    fn draw(&mut self, below: u32) -> u32 {
        self.generator.next_word().checked_rem(below).unwrap_or(0)
    }

    /// A number below `below`; 0, where that is 0.
    fn draw_byte(&mut self, below: u8) -> u8 {
        self.draw(below as u32).min(255) as u8
    }

    /// A number below `below` and below 2^32; 0, where `below` is 0.
    fn draw_index(&mut self, below: usize) -> usize {
        self.draw(below.min(u32::MAX as usize) as u32) as usize
    }

    fn draw_node(&mut self) -> NodeId {
        NodeId {
            replica: self.draw_byte(self.config.replicas),
            partition: self.draw_byte(self.config.partitions),
        }
    }

    fn draw_epoch(&mut self) -> u64 {
        self.draw_index(self.epochs as usize) as u64
    }

    fn draw_slot(&mut self) -> Slot {
        Slot {
            epoch: self.draw_epoch(),
            group: self.draw_byte(self.config.partitions),
        }
    }

    /// The number of one of so many packets; in half of the cases of one of the last.
    fn draw_packet(&mut self, packets: usize) -> usize {
        if self.draw(2) == 0 {
            return self.draw_index(packets);
        }
        let back = self.draw(RECENT) as usize;
        packets.saturating_sub(back).saturating_sub(1)
    }

    /// Whether a node restarts now, where it may.
    fn draw_restart(&mut self, id: NodeId, restarts: Restarts) -> bool
        ensures { result ≡ true → may_restart restarts id ≡ true }
    {
        match restarts {
            Restarts::Never => false,
            Restarts::AboveReplicaZero => id.replica > 0 && self.draw(16) == 0,
        }
    }

    /// An act of a node that has come so far.
    fn draw_act<Args>(&mut self, id: NodeId, front: Front, restarts: Restarts) -> Act<Args>
        ensures { is_allowed restarts (At id result) ≡ true }
    {
        if self.draw_restart(id, restarts) {
            return Act::Restart;
        }
        match self.draw(11) {
            0 | 1 => Act::Propose(self.draw_epoch()),
            2 => Act::Merge,
            3 | 4 => Act::Lock,
            5 | 6 => Act::Begin(front.place),
            7 => Act::Finish(front.place),
            8 => Act::Snapshot(front.epoch),
            9 => Act::AskForReads(front.place, self.draw_byte(self.config.replicas)),
            _ => Act::AskForBatch(self.draw_slot(), self.draw_node()),
        }
    }

    /// A key that a node stores: one that a request writes whose batch it holds.
    fn draw_key<A: App + Drop>(&mut self, world: &StoreWorld<A>, id: NodeId) -> Option<Key> {
        let slot = self.draw_slot();
        let batch = world.node(id)?.held(slot)?;
        let txn = batch.get(self.draw_index(batch.len()))?;
        let keys = txn.sets.writes.part(&self.config, id.partition);
        keys.get(self.draw_index(keys.len()))
    }

    /// The epoch of a point: the one at whose end a node stands, or the one after it, whose requests may be under way.
    fn draw_point(&mut self, front: Front) -> u64 {
        front.epoch.saturating_add(u64::from(self.draw(2)))
    }

    /// Where nodes restart, what they do with their rows beside requests: a point is opened, a snapshot of it is taken, or a
    /// row cools.
    fn draw_act_on_rows<A: App + Drop>(
        &mut self,
        world: &StoreWorld<A>,
        id: NodeId,
        front: Front,
        restarts: Restarts,
    ) -> Option<Act<A::Args>>
        ensures { IfSome result (λ act. is_allowed restarts (At id act) ≡ true) }
    {
        if restarts == Restarts::Never {
            return None;
        }
        match self.draw(16) {
            0 => Some(Act::Mark(self.draw_point(front))),
            1 | 2 => Some(Act::Snapshot(front.marked?)),
            3..=6 => Some(Act::Cool(self.draw_key(world, id)?)),
            _ => None,
        }
    }

    /// An event of a world: more often than not the delivery of a packet, unless that is lost.
    fn draw_event<A: App + Drop>(
        &mut self,
        world: &StoreWorld<A>,
        schedule: &Schedule,
    ) -> Event<A::Args>
        ensures allowed { is_allowed schedule.now.restarts result ≡ true }
        ensures kept { is_lossy (is_lost schedule.now.lost) world.now.packets result ≡ false }
    {
        if self.draw(3) > 0 {
            let number = self.draw_packet(sent(world));
            if !is_of_lost(world, number, schedule.lost) {
                return Event::Deliver(number);
            }
        }
        let id = self.draw_node();
        let front = front_of(world, id);
        match self.draw_act_on_rows(world, id, front, schedule.restarts) {
            Some(act) => Event::At(id, act),
            None => Event::At(id, self.draw_act(id, front, schedule.restarts)),
        }
    }
}

/// How far a node has come.
fn front_of<A: App + Drop>(world: &StoreWorld<A>, id: NodeId) -> Front {
    let first = Place { epoch: 0, n: 0 };
    match world.node(id) {
        Some(node) => Front {
            place: node.first_ready(None).unwrap_or(first),
            epoch: node.stands_at().unwrap_or(0),
            marked: node.rows().marked(),
        },
        None => Front {
            place: first,
            epoch: 0,
            marked: None,
        },
    }
}

/// Lets as many drawn events happen as the schedule says, of a script with so many epochs; a node restarts only where the
/// schedule lets it, and no packet is delivered that it loses. `config` is what the world was opened with. Refused with `OutOfMemory` alone, as soon as an event is.
#[tactic(auto, using(crate::proofs::Leading::quiet_here_by, crate::proofs::Leading::quiet_then_by, crate::proofs::Leading::want_then_by))]
pub fn draw_events<A: App + Drop>(
    world: &mut StoreWorld<A>,
    config: &Config,
    epochs: u64,
    schedule: &Schedule,
) -> Result<(), Fault>
    ensures quiet { OnOk result (LeadsQuietlyBy A.meaning schedule.now.restarts (is_lost schedule.now.lost) schedule.now.steps world.old world.new) }
    ensures want { OnErr result (LeadsToWant A.meaning schedule.now.restarts (is_lost schedule.now.lost) world.old world.new) }
    ensures only { IsOkUnless result Fault.OutOfMemory }
{
    let mut drawing = Drawing {
        generator: Lcg64Xsh32::new(schedule.start, STREAM),
        config: *config,
        epochs,
    };
    for _step in 0..schedule.steps {
        let event = drawing.draw_event(world, schedule);
        let _outcome = attempt(world, &event)?;
    }
    Ok(())
}
