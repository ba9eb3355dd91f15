//! A group of replicas, and every packet that was ever sent.
ghost use Rattle.std.specs.Prelude.{◌≡◌, ◌++◌, List, IfOk, IsOkUnless, OnErr, slice_get};
ghost use Rattle.std.specs.List.{Contains};
ghost use Rattle.std.specs.Option.{option_copied};
ghost use Rattle.calvin_types.specs.declared.place.Slot.{Slot};
ghost use Rattle.calvin_types.specs.declared.txn.Txn.{Txn};
ghost use Rattle.calvin_synod_group.specs.declared.event.GroupEvent.{GroupEvent};
ghost use Rattle.calvin_synod_group.specs.declared.event.Outcome.TheVariants.{Gave};
ghost use Rattle.calvin_synod_group.specs.Groups.{opening, recorded_by, Step, Leads, Chosen, IsBeginning};
ghost use Rattle.calvin_synod_group.specs.Deeds.{ended};

use crate::event::{GroupEvent, Outcome};
use crate::happening;
use crate::packet::Packet;
use calvin_synod::{Given, Member, Recorded};
use calvin_types::{Batch, Config, Fault, Slot};
use std::alloc::Global;
use std::marker::Model;

/// All replicas of one group, and the packets between them.
#[derive(Drop)]
pub struct Group<Args> {
    alloc: Global,
    size: u8,
    members: Vec<Member<Args>>,
    packets: Vec<Packet<Batch<Args>>>,
}

impl<Args> Model for Group<Args> {
    ghost use Rattle.std.specs.Prelude.{List};
    ghost use Rattle.calvin_types.specs.declared.txn.Txn.{Txn};
    ghost use Rattle.calvin_synod_group.specs.Groups.{GroupState, IsReached};
    ghost use Rattle.calvin_synod_group.specs.Deeds.{IsGroup, group_of};
    ghost use Rattle.calvin_synod.specs.MessageCodes.{coded_batch};
    ghost use Rattle.calvin_synod_group.specs.Codes.{coded_group};

    ghost Value = { GroupState (List (Txn Args)) };

    ghost coded = { coded_group (coded_batch Args.code) };

    ghost view = { λ g. group_of g.members.items g.packets.items };

    ghost invariant = { λ g. IsGroup g.size g.members.items × IsReached g.size (group_of g.members.items g.packets.items) };
}

impl<Args: Copy> Group<Args> {
    /// A group of as many replicas as there are, which have sent nothing. Refused with `OutOfMemory` where there was no
    /// room for them.
    pub fn new(alloc: Global, config: &Config) -> Result<Group<Args>, Fault>
        ensures ok { IfOk result (λ g. g ≡ opening config.now.replicas) }
        ensures only { IsOkUnless result Fault.OutOfMemory }
    {
        let mut members = Vec::new(alloc);
        for replica in 0..config.replicas {
            members.push(Member::new(alloc, config, replica))?;
        }
        Ok(Group {
            alloc,
            size: config.replicas,
            members,
            packets: Vec::new(alloc),
        })
    }

    /// Every packet sent so far, in the order in which they were sent.
    pub fn packets(&self) -> &[Packet<Batch<Args>>]
        ensures { result.now ≡ self.now.packets }
    {
        self.packets.as_slice()
    }

    /// What a replica has recorded of a slot, if there is such a replica and it recorded something.
    pub fn recorded(&self, replica: u8, slot: Slot) -> Option<&Recorded<Batch<Args>>>
        ensures { option_copied result ≡ recorded_by (slice_get self.now.replicas replica) slot }
    {
        match self.members.get(replica as usize) {
            Some(member) => member.recorded(slot),
            None => None,
        }
    }

    /// Lets events happen one after another, and says how each ended. Refused with `OutOfMemory` where there was no room
    /// for that: then none happened. Whatever ran before, what is promised holds after the events and after each
    /// beginning of them.
    pub fn run(
        &mut self,
        events: &[GroupEvent<Batch<Args>>],
    ) -> Result<Vec<Outcome<Batch<Args>>>, Fault>
        ensures ran { IfOk result (λ outcomes. Leads self.old events.now outcomes.items self.new) }
        ensures err { OnErr result (self.new ≡ self.old) }
        ensures only { IsOkUnless result Fault.OutOfMemory }
        // What a learner gave for a slot is chosen.
        ensures given { IfOk result (λ outcomes. (slot : Slot) (batch : List (Txn Args)) → Contains outcomes.items (Gave slot batch) → Chosen self.new slot batch) }
        // Two batches chosen for one slot are the same.
        ensures one { (slot : Slot) (x y : List (Txn Args)) → Chosen self.new slot x → Chosen self.new slot y → x ≡ y }
        // The same was so after each beginning of the events.
        ensures beginnings { IfOk result (λ outcomes. (early late : List (GroupEvent (List (Txn Args)))) → events.now ≡ early ++ late → IsBeginning self.old early late outcomes.items self.new) }
        // What was chosen before stays chosen.
        ensures stays { (slot : Slot) (batch : List (Txn Args)) → Chosen self.old slot batch → Chosen self.new slot batch }
    {
        let mut outcomes = Vec::with_capacity(self.alloc, events.len())?;
        for event in events {
            outcomes.push_reserved(outcome_of(self.happen(event)));
        }
        Ok(outcomes)
    }

    /// Lets one event happen.
    fn happen(&mut self, event: &GroupEvent<Batch<Args>>) -> Result<Given<Batch<Args>>, Fault>
        ensures { Step self.old event.now (ended result) self.new }
    {
        match event {
            GroupEvent::Propose(replica, slot, batch) => happening::propose(
                &mut self.members,
                &mut self.packets,
                self.size,
                *replica,
                *slot,
                batch,
            ),
            GroupEvent::Deliver(number) => {
                happening::deliver(&mut self.members, &mut self.packets, self.size, *number)
            }
            GroupEvent::Restart(replica) => {
                happening::restart(&mut self.members, self.size, *replica)
            }
        }
    }
}

fn outcome_of<B>(answer: Result<Given<B>, Fault>) -> Outcome<B>
    ensures { result ≡ ended answer }
{
    match answer {
        Ok(Some((slot, batch))) => Outcome::Gave(slot, batch),
        Ok(None) => Outcome::Done,
        Err(fault) => Outcome::Refused(fault),
    }
}
