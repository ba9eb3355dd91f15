//! One event after the submissions.
ghost use Rattle.std.specs.Prelude.{◌≡◌, ◌≢◌, true, false, ℕ, Bool, length, is_some, IfOk, OnOk, OnErr, IsOkUnless};
ghost use Rattle.calvin_types.specs.declared.fault.Fault.TheVariants.{OutOfMemory};
ghost use Rattle.calvin_report.specs.Reports.{is_lost};
ghost use Rattle.calvin_node_acts.specs.declared.act.Act.TheVariants.{Lock, Begin, Finish};
ghost use Rattle.calvin_world.specs.declared.event.Event.TheVariants.{At, Deliver};
ghost use Rattle.calvin_world.specs.declared.event.Outcome.TheVariants.{Refused};
ghost use Rattle.calvin_world.specs.SettledWorlds.{outcome_of, SettledStep};
ghost use Rattle.calvin_sim_events.specs.declared.schedule.Restarts.{Restarts};
ghost use Rattle.calvin_sim_events.specs.declared.schedule.Restarts.TheVariants.{Never};
ghost use Rattle.calvin_sim_events.specs.Passes.{is_due, IsRedelivery};
ghost use Rattle.calvin_sim_events.specs.Quiet.{is_allowed, is_lossy, everyone, LeadsQuietly, LeadsQuietlyBy, LeadsToWant};

use calvin_app::App;
use calvin_node::Act;
use calvin_node_packets::Address;
use calvin_report::is_lost;
use calvin_types::{Fault, NodeId, Place};
use calvin_world::{Event, Outcome, StoreWorld, outcome_of};

/// Lets an event happen, and says how it ended: never for want of memory. Refused with `OutOfMemory` alone, where the event
/// was.
pub(crate) fn attempt<A: App + Drop>(
    world: &mut StoreWorld<A>,
    event: &Event<A::Args>,
) -> Result<Outcome, Fault>
    ensures quiet { (restarts : Restarts) (lost : ℕ → Bool) → is_allowed restarts event.now ≡ true → is_lossy lost world.old.packets event.now ≡ false
        → OnOk result (LeadsQuietlyBy A.meaning restarts lost 1 world.old world.new) }
    ensures want { (restarts : Restarts) (lost : ℕ → Bool) → is_allowed restarts event.now ≡ true → is_lossy lost world.old.packets event.now ≡ false
        → OnErr result (LeadsToWant A.meaning restarts lost world.old world.new) }
    ensures step { IfOk result (λ outcome. SettledStep A.meaning world.old event.now outcome world.new × (outcome ≢ Refused OutOfMemory)) }
    ensures only { IsOkUnless result Fault.OutOfMemory }
{
    without_want(world.step(event))
}

/// Lets a node act without a submission, a closing or a restart, as those do that bring the nodes on, and says how that ended: never
/// for want of memory. Refused with `OutOfMemory` alone, where the event was.
pub(crate) fn happen_at<A: App + Drop>(
    world: &mut StoreWorld<A>,
    id: NodeId,
    act: Act<A::Args>,
) -> Result<Outcome, Fault>
    requires { is_allowed Never (At id act) ≡ true }
    ensures quiet { OnOk result (LeadsQuietly A.meaning Never everyone world.old world.new) }
    ensures want { OnErr result (LeadsToWant A.meaning Never everyone world.old world.new) }
    ensures only { IsOkUnless result Fault.OutOfMemory }
{
    attempt(world, &Event::At(id, act))
}

/// Lets the next merged request of a node ask for its locks, and says how that ended: never for want of memory. Refused with
/// `OutOfMemory` alone, where the event was.
pub(crate) fn lock_at<A: App + Drop>(
    world: &mut StoreWorld<A>,
    id: NodeId,
) -> Result<Outcome, Fault>
    ensures quiet { OnOk result (LeadsQuietly A.meaning Never everyone world.old world.new) }
    ensures want { OnErr result (LeadsToWant A.meaning Never everyone world.old world.new) }
    ensures step { IfOk result (λ outcome. SettledStep A.meaning world.old (At id Lock) outcome world.new × (outcome ≢ Refused OutOfMemory)) }
    ensures only { IsOkUnless result Fault.OutOfMemory }
{
    without_want(world.lock(id))
}

/// The same of a request that begins at a place.
pub(crate) fn begin_at<A: App + Drop>(
    world: &mut StoreWorld<A>,
    id: NodeId,
    place: Place,
) -> Result<Outcome, Fault>
    ensures quiet { OnOk result (LeadsQuietly A.meaning Never everyone world.old world.new) }
    ensures want { OnErr result (LeadsToWant A.meaning Never everyone world.old world.new) }
    ensures step { IfOk result (λ outcome. SettledStep A.meaning world.old (At id (Begin place)) outcome world.new × (outcome ≢ Refused OutOfMemory)) }
    ensures only { IsOkUnless result Fault.OutOfMemory }
{
    without_want(world.begin(id, place))
}

/// The same of a request that is finished at a place.
pub(crate) fn finish_at<A: App + Drop>(
    world: &mut StoreWorld<A>,
    id: NodeId,
    place: Place,
) -> Result<Outcome, Fault>
    ensures quiet { OnOk result (LeadsQuietly A.meaning Never everyone world.old world.new) }
    ensures want { OnErr result (LeadsToWant A.meaning Never everyone world.old world.new) }
    ensures step { IfOk result (λ outcome. SettledStep A.meaning world.old (At id (Finish place)) outcome world.new × (outcome ≢ Refused OutOfMemory)) }
    ensures only { IsOkUnless result Fault.OutOfMemory }
{
    without_want(world.finish(id, place))
}

/// How an event ended, if not for want of memory. Refused with `OutOfMemory` where it did.
fn without_want(answer: Result<(), Fault>) -> Result<Outcome, Fault>
    ensures ok { IfOk result (λ outcome. (outcome ≡ outcome_of answer) × (outcome ≢ Refused OutOfMemory)) }
    ensures want { OnErr result (outcome_of answer ≡ Refused OutOfMemory) }
    ensures only { IsOkUnless result Fault.OutOfMemory }
{
    match outcome_of(answer) {
        Outcome::Refused(Fault::OutOfMemory) => Err(Fault::OutOfMemory),
        outcome => Ok(outcome),
    }
}

/// Delivers the packet of a number, if it is for a node and not of the replica whose packets are lost. Says which node it reached,
/// where it took effect there. Answers to clients stay. Refused with `OutOfMemory` alone, where the event was.
pub(crate) fn deliver<A: App + Drop>(
    world: &mut StoreWorld<A>,
    number: usize,
    lost: Option<u8>,
) -> Result<Option<NodeId>, Fault>
    ensures quiet { OnOk result (LeadsQuietly A.meaning Never (is_lost lost) world.old world.new) }
    ensures want { OnErr result (LeadsToWant A.meaning Never (is_lost lost) world.old world.new) }
    ensures delivered { OnOk result (IsRedelivery A.meaning (is_lost lost) number world.old world.new) }
    ensures only { IsOkUnless result Fault.OutOfMemory }
{
    let Some(id) = addressee(world, number, lost) else {
        return Ok(None);
    };
    match attempt(world, &Event::Deliver(number))? {
        Outcome::Done => Ok(Some(id)),
        Outcome::Refused(_) => Ok(None),
    }
}

/// How many packets were sent so far.
pub(crate) fn sent<A: App + Drop>(world: &StoreWorld<A>) -> usize
    ensures { result ≡ length world.now.packets }
{
    world.packets().len()
}

/// Whether the packet of a number is there and of the replica whose packets are lost.
pub(crate) fn is_of_lost<A: App + Drop>(
    world: &StoreWorld<A>,
    number: usize,
    lost: Option<u8>,
) -> bool
    ensures { result ≡ is_lossy {Args = A.Args} (is_lost lost) world.now.packets (Deliver number) }
{
    let packets = world.packets();
    number < packets.len() && is_lost(lost, packets.sender(number).replica)
}

/// The node that the packet of a number is for: none, where it is for a client, or its replica is the one whose packets are lost, or
/// no packet has the number.
pub(crate) fn addressee<A: App + Drop>(
    world: &StoreWorld<A>,
    number: usize,
    lost: Option<u8>,
) -> Option<NodeId>
    ensures { is_some result ≡ is_due (is_lost lost) world.now.packets number }
{
    let packets = world.packets();
    let to = packets.address(number)?;
    if is_lost(lost, packets.sender(number).replica) {
        return None;
    }
    match to {
        Address::AtNode(id) => Some(id),
        Address::AtClient(_) => None,
    }
}
