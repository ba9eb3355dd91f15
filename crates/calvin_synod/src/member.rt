//! One replica of a group, with the three roles of the synod.
ghost use Rattle.std.specs.Prelude.{◌≡◌, ◌↔◌, ℕ, List, Ok, None, true, false, IfOk, IsErrOf, IsOkUnless};
ghost use Rattle.std.specs.Option.{option_copied};
ghost use Rattle.std.specs.FinMap as map;
ghost use Rattle.calvin_types.specs.declared.txn.Txn.{Txn};
ghost use Rattle.calvin_synod.specs.Cases as cases;
ghost use Rattle.calvin_synod.specs.Cases.{message_grows};
ghost use Rattle.calvin_synod.specs.Roles as roles;
ghost use Rattle.calvin_synod.specs.Deeds.{Sends, Did};

use crate::acceptor::Acceptor;
use crate::learner::Learner;
use crate::mail::{Given, Mail};
use crate::message::Message;
use crate::proposer::Proposer;
use crate::stable::SynodRecord;
use crate::vote::{Recorded, Vote};
use calvin_types::{Ballot, Batch, Config, Fault, Slot};
use std::alloc::Global;
use std::marker::Model;

/// One replica of a group. What it sends for a message is told beforehand, by `answer`, and what the message makes of
/// it is done by `take`.
#[derive(Drop)]
pub struct Member<Args> {
    alloc: Global,
    config: Config,
    replica: u8,
    acceptor: Acceptor<Batch<Args>>,
    proposer: Proposer<Batch<Args>>,
    learner: Learner,
}

impl<Args> Model for Member<Args> {
    ghost use Rattle.std.specs.Prelude.{List};
    ghost use Rattle.calvin_types.specs.declared.txn.Txn.{Txn};
    ghost use Rattle.calvin_synod.specs.Deeds.{MemberState, IsMember};
    ghost use Rattle.calvin_synod.specs.MessageCodes.{coded_batch, coded_member};

    ghost Value = { MemberState (List (Txn Args)) };

    ghost coded = { coded_member (coded_batch Args.code) };

    ghost view = { λ m. record { size = m.config.replicas; me = m.replica; replica = record { acceptor = m.acceptor.records; proposer = m.proposer.proposing; learner = m.learner.learning } } };

    ghost invariant = { λ m. IsMember m.config.replicas m.replica m.proposer m.learner };
}

impl<Args: Copy> Member<Args> {
    /// A replica that has promised, voted, proposed and counted nothing.
    #[tactic(auto, unfolding(crate::specs::Cases::fresh))]
    pub fn new(alloc: Global, config: &Config, replica: u8) -> Member<Args>
        ensures { result ≡ record { size = config.now.replicas; me = replica; replica = cases.fresh } }
    {
        Member {
            alloc,
            config: *config,
            replica,
            acceptor: Acceptor::new(alloc),
            proposer: Proposer::new(alloc, config, replica, 0),
            learner: Learner::new(alloc, config),
        }
    }

    /// A replica that is opened from what outlived a restart: it has these promises and votes, and has used rounds up to
    /// the greatest one that was. Nothing is proposed or counted.
    pub fn from_record(
        alloc: Global,
        config: &Config,
        replica: u8,
        kept: SynodRecord<Args>,
    ) -> Member<Args>
        ensures { result ≡ record { size = config.now.replicas; me = replica; replica = cases.replica_from kept.acceptor kept.used } }
    {
        Member {
            alloc,
            config: *config,
            replica,
            acceptor: kept.acceptor,
            proposer: Proposer::new(alloc, config, replica, kept.used),
            learner: Learner::new(alloc, config),
        }
    }

    /// What outlives a restart: the promises, the votes and the greatest round used.
    pub fn into_record(self) -> SynodRecord<Args>
        ensures { result ≡ record { acceptor = self.replica.acceptor; used = self.replica.proposer.used } }
    {
        let used = self.proposer.greatest();
        SynodRecord {
            acceptor: self.acceptor,
            used,
        }
    }

    /// What is recorded of a slot.
    pub fn recorded(&self, slot: Slot) -> Option<&Recorded<Batch<Args>>>
        ensures { option_copied result ≡ map.get self.now.replica.acceptor slot }
    {
        self.acceptor.recorded(slot)
    }

    /// Keeps the promises, the votes and the greatest round used, and nothing else.
    pub fn restart(&mut self)
        ensures { Did false (Ok None) (cases.restart self.old.replica) self.old self.new }
    {
        let greatest = self.proposer.greatest();
        self.proposer = Proposer::new(self.alloc, &self.config, self.replica, greatest);
        self.learner = Learner::new(self.alloc, &self.config);
    }

    /// What `propose`, made next for this slot, sends. Refused with `RoundsSpent` where there is no greater round.
    pub fn prepare_to_all(&self, slot: Slot) -> Result<Mail<Batch<Args>>, Fault>
        ensures { (batch : List (Txn Args)) → Sends false result (cases.propose self.now.me slot batch self.now.replica) }
    {
        let ballot = self.proposer.next_ballot()?;
        Ok(Mail::ToAll(Message::Prepare { slot, ballot }))
    }

    /// Begins a new ballot for a slot, with a batch to propose. Refused with `RoundsSpent` where there is no greater
    /// round, else with `OutOfMemory` where a growth was refused.
    pub fn propose(&mut self, slot: Slot, batch: Batch<Args>) -> Result<Given<Batch<Args>>, Fault>
        ensures { Did true result (cases.propose self.old.me slot batch self.old.replica) self.old self.new }
    {
        self.proposer.start(slot, batch)?;
        Ok(None)
    }

    /// What `take`, made next with this message, sends. Refused with the message's own refusal, else with
    /// `OutOfMemory` where a batch can have no more owners.
    pub fn answer(
        &self,
        from: u8,
        message: &Message<Batch<Args>>,
    ) -> Result<Mail<Batch<Args>>, Fault>
        ensures { Sends (message_grows message.now) result (cases.handle self.now.size from message.now self.now.replica) }
    {
        match message {
            Message::Prepare { slot, ballot } => self.answer_prepare(from, *slot, *ballot),
            Message::Promise { slot, ballot, vote } => {
                self.answer_promise(from, *slot, *ballot, vote.as_ref())
            }
            Message::Accept {
                slot,
                ballot,
                batch,
            } => self.answer_accept(from, *slot, *ballot, batch),
            Message::Refused { promise, .. } => self.answer_refused(*promise),
            Message::Accepted { slot, ballot, .. } => { self.answer_accepted(from, *slot, *ballot) }
        }
    }

    /// A promise with the vote cast before, or the promise that stands in the way.
    fn answer_prepare(
        &self,
        from: u8,
        slot: Slot,
        ballot: Ballot,
    ) -> Result<Mail<Batch<Args>>, Fault>
        ensures { Sends true result (cases.prepare from self.now.replica slot ballot (roles.bars_prepare (roles.promise_at self.now.replica.acceptor slot) ballot)) }
    {
        let vote = match self.acceptor.recorded(slot) {
            Some(recorded) => {
                let promise = recorded.promise;
                if ballot <= promise {
                    return Ok(Mail::ToOne(
                        from,
                        Message::Refused {
                            slot,
                            ballot,
                            promise,
                        },
                    ));
                }
                match &recorded.vote {
                    Some(vote) => Some(vote.clone()?),
                    None => None,
                }
            }
            None => None,
        };
        Ok(Mail::ToOne(from, Message::Promise { slot, ballot, vote }))
    }

    /// An accept for all, where the promise makes a majority.
    fn answer_promise(
        &self,
        from: u8,
        slot: Slot,
        ballot: Ballot,
        vote: Option<&Vote<Batch<Args>>>,
    ) -> Result<Mail<Batch<Args>>, Fault>
        ensures { Sends true result (cases.promise self.now.size from self.now.replica slot ballot (option_copied vote.entry) (roles.current self.now.replica.proposer from slot ballot)) }
    {
        match self.proposer.due(from, slot, ballot, vote)? {
            Some(batch) => Ok(Mail::ToAll(Message::Accept {
                slot,
                ballot,
                batch: batch.copy()?,
            })),
            None => Ok(Mail::Nothing),
        }
    }

    /// The vote for all, or the promise that stands in the way.
    fn answer_accept(
        &self,
        from: u8,
        slot: Slot,
        ballot: Ballot,
        batch: &Batch<Args>,
    ) -> Result<Mail<Batch<Args>>, Fault>
        ensures { Sends true result (cases.accept from self.now.replica slot ballot batch.now (roles.bars_accept (roles.promise_at self.now.replica.acceptor slot) ballot)) }
    {
        if let Some(recorded) = self.acceptor.recorded(slot) {
            let promise = recorded.promise;
            if ballot < promise {
                return Ok(Mail::ToOne(
                    from,
                    Message::Refused {
                        slot,
                        ballot,
                        promise,
                    },
                ));
            }
        }
        Ok(Mail::ToAll(Message::Accepted {
            slot,
            ballot,
            batch: batch.copy()?,
        }))
    }

    /// Nothing, where the promise's round is above all used and seen.
    fn answer_refused(&self, promise: Ballot) -> Result<Mail<Batch<Args>>, Fault>
        ensures { Sends false result (cases.refused self.now.replica promise) }
    {
        match self.proposer.next_ballot() {
            Ok(next) => if promise.round < next.round {
                Err(Fault::NotCurrent)
            } else {
                Ok(Mail::Nothing)
            },
            Err(_) => Err(Fault::NotCurrent),
        }
    }

    /// Nothing, where the vote isn't counted and the slot's batch wasn't given.
    fn answer_accepted(
        &self,
        from: u8,
        slot: Slot,
        ballot: Ballot,
    ) -> Result<Mail<Batch<Args>>, Fault>
        ensures { (batch : List (Txn Args)) → Sends true result (cases.accepted self.now.size from self.now.replica slot ballot batch) }
    {
        self.completes(from, slot, ballot)?;
        Ok(Mail::Nothing)
    }

    /// Whether the learner gives the slot's batch with a vote of this replica for this slot and ballot, taken next: there is
    /// a majority with it. Refused with `Known` where that vote is counted, or the slot's batch was given, as `take` is.
    pub fn completes(&self, from: u8, slot: Slot, ballot: Ballot) -> Result<bool, Fault>
        ensures completes { IfOk result (λ b. b ≡ roles.completes self.now.size self.now.replica.learner slot ballot) }
        ensures known { IsErrOf result Fault.Known ↔ (roles.knows self.now.replica.learner from slot ballot ≡ true) }
        ensures only { IsOkUnless result Fault.Known }
    {
        self.learner.completes(from, slot, ballot)
    }

    /// What a message makes of the replica, and the batch that its learner gives for a slot, if any. Refused with the
    /// message's own refusal, else with `OutOfMemory` where a growth was refused.
    pub fn take(
        &mut self,
        from: u8,
        message: Message<Batch<Args>>,
    ) -> Result<Given<Batch<Args>>, Fault>
        ensures { Did (message_grows message) result (cases.handle self.old.size from message self.old.replica) self.old self.new }
    {
        match message {
            Message::Prepare { slot, ballot } => self.take_prepare(slot, ballot),
            Message::Promise { slot, ballot, vote } => {
                self.take_promise(from, slot, ballot, vote)
            }
            Message::Accept {
                slot,
                ballot,
                batch,
            } => self.take_accept(slot, ballot, batch),
            Message::Refused { promise, .. } => self.take_refused(promise),
            Message::Accepted {
                slot,
                ballot,
                batch,
            } => self.take_accepted(from, slot, ballot, batch),
        }
    }

    fn take_prepare(&mut self, slot: Slot, ballot: Ballot) -> Result<Given<Batch<Args>>, Fault>
        ensures { (from : ℕ) → Did true result (cases.prepare from self.old.replica slot ballot (roles.bars_prepare (roles.promise_at self.old.replica.acceptor slot) ballot)) self.old self.new }
    {
        self.acceptor.prepare(slot, ballot)?;
        Ok(None)
    }

    fn take_promise(
        &mut self,
        from: u8,
        slot: Slot,
        ballot: Ballot,
        vote: Option<Vote<Batch<Args>>>,
    ) -> Result<Given<Batch<Args>>, Fault>
        ensures { Did true result (cases.promise self.old.size from self.old.replica slot ballot vote (roles.current self.old.replica.proposer from slot ballot)) self.old self.new }
    {
        self.proposer.on_promise(from, slot, ballot, vote)?;
        Ok(None)
    }

    fn take_accept(
        &mut self,
        slot: Slot,
        ballot: Ballot,
        batch: Batch<Args>,
    ) -> Result<Given<Batch<Args>>, Fault>
        ensures { (from : ℕ) → Did true result (cases.accept from self.old.replica slot ballot batch (roles.bars_accept (roles.promise_at self.old.replica.acceptor slot) ballot)) self.old self.new }
    {
        self.acceptor.accept(slot, ballot, batch)?;
        Ok(None)
    }

    fn take_refused(&mut self, promise: Ballot) -> Result<Given<Batch<Args>>, Fault>
        ensures { Did false result (cases.refused self.old.replica promise) self.old self.new }
    {
        self.proposer.on_refused(promise)?;
        Ok(None)
    }

    fn take_accepted(
        &mut self,
        from: u8,
        slot: Slot,
        ballot: Ballot,
        batch: Batch<Args>,
    ) -> Result<Given<Batch<Args>>, Fault>
        ensures { Did true result (cases.accepted self.old.size from self.old.replica slot ballot batch) self.old self.new }
    {
        let given = self.learner.on_vote(from, slot, ballot, batch)?;
        Ok(given.map(|batch| (slot, batch)))
    }
}
