//! The rows that a partition reads for the others that run a request.
ghost use Rattle.std.specs.Prelude.{◌≡◌, ◌++◌, ◌≤◌, None};
ghost use Rattle.std.specs.Option.{ForSome};
ghost use Rattle.calvin_types.specs.Participants.{site};
ghost use Rattle.calvin_node_packets.specs.declared.packet.Content.TheVariants.{Reads};
ghost use Rattle.calvin_node_packets.specs.Packets.{to_each};
ghost use Rattle.calvin_sched.specs.Scheduling.{turn_at, other_active};

use calvin_app::App;
use calvin_lock::Locks;
use calvin_node_packets::Outbox;
use calvin_sched::Scheduler;
use calvin_store::Rows;
use calvin_types::{Config, MOST_KEYS, NodeId, Place};

/// The rows that the request at a place read at this node are sent to the other partitions of the replica that run it, if it
/// is admitted (Thomson et al. 2012, section 3.2: remote reads); else nothing is sent. There is room for `MOST_KEYS` packets.
pub fn post_served<A: App, L: Locks + Drop, S: Rows<A::Row> + Drop>(
    scheduler: &Scheduler<A, L, S>,
    config: &Config,
    me: NodeId,
    place: Place,
    outbox: &mut Outbox<A>,
)
    requires { MOST_KEYS ≤ outbox.old.room }
    ensures some { ForSome (turn_at scheduler.now.scheduling place)
        (λ x. outbox.new.packets ≡ outbox.old.packets ++ to_each me me.replica (Reads place x.served) (other_active
        (site config.now.partitions me.partition) x.request)) }
    ensures none { turn_at scheduler.now.scheduling place ≡ None → outbox.new.packets ≡ outbox.old.packets }
{
    if let Some(turn) = scheduler.turn(place) {
        let others = turn.others(config, me.partition);
        outbox.post_reads(me, place, turn.rows(), &others);
    }
}
