//! The learner of one replica: it counts votes, and gives a slot's batch with the vote that makes a majority.
ghost use Rattle.std.specs.Prelude.{◌≡◌, ◌↔◌, ◌⊎◌, ◌+◌, true, false, length, is_some, Some, None, nat_eq, IfOk, IfErr, IsOk, OnOk, OnErr, IsErrOf, IsOkUnless, if◌then◌else◌};
ghost use Rattle.std.specs.List.{list_any};
ghost use Rattle.std.specs.FinMap as map;
ghost use Rattle.calvin_synod.specs.Roles.{voters_of, knows, completes, learned};

use crate::by_slot::BySlot;
use crate::quorum::majority;
use crate::tallies::{Proposal, Tallies};
use calvin_types::{Ballot, Config, Fault, Few, Slot};
use std::alloc::Global;
use std::marker::Model;

/// Whose votes one replica has counted, and which slots' batches it gave ("Paxos Made Simple", section 2.3: a learner
/// finds out that a value was chosen where a majority of acceptors tells it that they accepted it).
#[derive(Drop)]
pub struct Learner {
    replicas: u8,
    counted: Tallies,
    given: BySlot<Ballot>,
    ready: bool,
}

impl Model for Learner {
    ghost use Rattle.std.specs.Prelude.{◌≡◌, ◌<◌, true};
    ghost use Rattle.calvin_synod.specs.States.{LearnerState, IsLearner};
    ghost use Rattle.calvin_synod.specs.Codes.{coded_learner};

    ghost Value = { LearnerState };

    ghost coded = { coded_learner };

    ghost view = { λ l. record { replicas = l.replicas; learning = record { counted = l.counted.counted; given = l.given.entries }; ready = l.ready } };

    ghost invariant = { λ l. IsLearner l.replicas l.counted l.given.room l.ready };
}

impl Learner {
    /// A learner of a group of as many replicas as there are: it has counted no vote.
    pub fn new(alloc: Global, config: &Config) -> Learner
        ensures { result ≡ record { replicas = config.now.replicas; learning = record { counted = map.empty; given = map.empty }; ready = false } }
    {
        Learner {
            replicas: config.replicas,
            counted: Tallies::new(alloc),
            given: BySlot::new(alloc),
            ready: false,
        }
    }

    /// Whether with a vote of this replica, slot and ballot there would be a majority. Refused with `Known` where that
    /// vote is counted, or the slot's batch was given.
    pub fn completes(&self, from: u8, slot: Slot, ballot: Ballot) -> Result<bool, Fault>
        ensures completes { IfOk result (λ b. b ≡ completes self.now.replicas self.now.learning slot ballot) }
        ensures known { IsErrOf result Fault.Known ↔ (knows self.now.learning from slot ballot ≡ true) }
        ensures only { IsOkUnless result Fault.Known }
    {
        let voters = self.counted.voters(Proposal { slot, ballot });
        if self.given.get(slot).is_some() || has(&voters, from) {
            return Err(Fault::Known);
        }
        Ok(majority(self.replicas) <= voters.len() + 1)
    }

    /// Counts a vote. With the one that makes a majority of distinct replicas for the slot and the ballot, the batch is
    /// given back, once for a slot. Refused with `Known` where that vote is counted, or the slot's batch was given; else
    /// with `OutOfMemory` where a growth was refused.
    pub fn on_vote<B: Drop>(
        &mut self,
        from: u8,
        slot: Slot,
        ballot: Ballot,
        batch: B,
    ) -> Result<Option<B>, Fault>
        ensures given { IfOk result (λ given. given ≡ (if completes self.old.replicas self.old.learning slot ballot then Some batch else None)) }
        ensures learned { OnOk result (self.new ≡ record self.old { learning = learned self.old.replicas self.old.learning from slot ballot; ready = false }) }
        ensures known { IsErrOf result Fault.Known ↔ (knows self.old.learning from slot ballot ≡ true) }
        ensures only { IfErr result (λ fault. (fault ≡ Fault.Known) ⊎ (fault ≡ Fault.OutOfMemory)) }
        ensures err { OnErr result (self.new ≡ self.old) }
        ensures reserved { self.old.ready ≡ true → IsOkUnless result Fault.Known }
    {
        let proposal = Proposal { slot, ballot };
        if self.completes(from, slot, ballot)? {
            self.given.insert(slot, ballot)?;
            self.counted.remove(proposal);
            self.ready = false;
            return Ok(Some(batch));
        }
        self.counted.add(proposal, from)?;
        self.ready = false;
        Ok(None)
    }

    /// Makes room, so that `on_vote`, made next, isn't refused with `OutOfMemory`. Refused with that where there is no
    /// room and a growth was refused.
    pub fn reserve_on_vote(&mut self) -> Result<(), Fault>
        ensures ok { OnOk result (self.new ≡ record self.old { ready = true }) }
        ensures err { OnErr result (self.new ≡ self.old) }
        ensures only { IsOkUnless result Fault.OutOfMemory }
        ensures succeeds { self.old.ready ≡ true → IsOk result }
    {
        if !self.ready {
            self.given.reserve()?;
            self.counted.reserve()?;
            self.ready = true;
        }
        Ok(())
    }
}

/// Whether a replica is among the voters.
fn has(voters: &Few<u8>, from: u8) -> bool
    ensures { result ≡ list_any (nat_eq from) voters.now }
{
    for i in 0..voters.len() {
        if from == voters.at(i) {
            return true;
        }
    }
    false
}
