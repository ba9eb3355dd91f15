//! The proposer of one replica: it begins ballots, and has batches accepted.
ghost use Rattle.std.specs.Prelude.{◌≡◌, ◌↔◌, ◌⊎◌, ◌+◌, ◌≤◌, ◌<◌, true, false, max, Some, None, IfOk, IfErr, IsOk, OnOk, OnErr, IsErrOf, IsOkUnless, IsSome, []};
ghost use Rattle.std.specs.Option.{option_copied, ForSome};
ghost use Rattle.std.specs.FinMap as map;
ghost use Rattle.calvin_types.specs.declared.limits.TheConstants.{MOST_ROUNDS};
ghost use Rattle.calvin_synod.specs.Roles as roles;

use crate::attempt::{Attempt, Report, Reports};
use crate::by_slot::BySlot;
use crate::highest::{has_report, highest};
use crate::quorum::majority;
use crate::vote::Vote;
use calvin_types::{Ballot, Config, Fault, Slot};
use std::alloc::Global;
use std::marker::Model;

/// The ballots under way at one replica, by slot ("Paxos Made Simple", section 2.2: the proposer). `B` is the type of
/// batches. Of it all the greatest round used outlives a restart.
#[derive(Drop)]
pub struct Proposer<B> {
    alloc: Global,
    replicas: u8,
    replica: u8,
    used: u32,
    seen: u32,
    attempts: BySlot<Attempt<B>>,
    spare: Option<Reports<B>>,
    ready: bool,
}

impl<B> Model for Proposer<B> {
    ghost use Rattle.calvin_synod.specs.States.{ProposerState, IsProposer};
    ghost use Rattle.calvin_synod.specs.Codes.{coded_proposer};

    ghost Value = { ProposerState B };

    ghost coded = { coded_proposer B.code };

    ghost view = { λ p. record { replicas = p.replicas; replica = p.replica; proposing = record { used = p.used; seen = p.seen; attempts = p.attempts.entries }; ready = p.ready } };

    ghost invariant = { λ p. IsProposer p.replicas p.attempts p.spare p.ready };
}

impl<B: Drop> Proposer<B> {
    /// The proposer of a replica, of a group of as many as there are, which has used rounds up to the greatest one
    /// given (0 at first) and has no ballot under way.
    pub fn new(alloc: Global, config: &Config, replica: u8, greatest: u32) -> Proposer<B>
        ensures { result ≡ record { replicas = config.now.replicas; replica = replica; proposing = record { used = greatest; seen = 0; attempts = map.empty }; ready = false } }
    {
        Proposer {
            alloc,
            replicas: config.replicas,
            replica,
            used: greatest,
            seen: 0,
            attempts: BySlot::new(alloc),
            spare: None,
            ready: false,
        }
    }

    /// The greatest round used in any slot, 0 before the first.
    pub fn greatest(&self) -> u32
        ensures { result ≡ self.now.proposing.used }
    {
        self.used
    }

    /// The ballot of the attempt that `start`, made next, begins: its round is one above the greater of the greatest
    /// round used and the greatest seen in a refusal. Refused with `RoundsSpent` where that would be above 2^32 - 1.
    pub fn next_ballot(&self) -> Result<Ballot, Fault>
        ensures ballot { IfOk result (λ b. b ≡ roles.next_ballot self.now.replica self.now.proposing) }
        ensures spent { IsErrOf result Fault.RoundsSpent ↔ (MOST_ROUNDS ≤ max self.now.proposing.used self.now.proposing.seen + 1) }
        ensures only { IsOkUnless result Fault.RoundsSpent }
    {
        let greatest = if self.used < self.seen {
            self.seen
        } else {
            self.used
        };
        match greatest.checked_add(1) {
            Some(round) => Ok(Ballot {
                round,
                replica: self.replica,
            }),
            None => Err(Fault::RoundsSpent),
        }
    }

    /// Phase 1a: begins a new ballot for a slot, with the batch to propose where no vote is reported. An older ballot
    /// for the slot is dropped. Refused with `RoundsSpent` where the round would be above 2^32 - 1; else with
    /// `OutOfMemory` where a growth was refused: the batch is given up.
    pub fn start(&mut self, slot: Slot, value: B) -> Result<Ballot, Fault>
        ensures ballot { IfOk result (λ b. b ≡ roles.next_ballot self.old.replica self.old.proposing) }
        ensures started { OnOk result (self.new ≡ record self.old { proposing = roles.started self.old.replica self.old.proposing slot value; ready = false }) }
        ensures spent { IsErrOf result Fault.RoundsSpent ↔ (MOST_ROUNDS ≤ max self.old.proposing.used self.old.proposing.seen + 1) }
        ensures only { IfErr result (λ fault. (fault ≡ Fault.RoundsSpent) ⊎ (fault ≡ Fault.OutOfMemory)) }
        ensures err { OnErr result (self.new ≡ self.old) }
        ensures reserved { self.old.ready ≡ true → IsOkUnless result Fault.RoundsSpent }
    {
        let ballot = self.next_ballot()?;
        let counted = or_new(self.alloc, self.spare.take())?;
        self.attempts.insert(
            slot,
            Attempt {
                ballot,
                own: value,
                counted,
            },
        )?;
        self.used = ballot.round;
        self.ready = false;
        Ok(ballot)
    }

    /// Makes room, so that `start`, made next, isn't refused with `OutOfMemory`. Refused with that where there is no
    /// room and a growth was refused.
    pub fn reserve_start(&mut self) -> Result<(), Fault>
        ensures ok { OnOk result (self.new ≡ record self.old { ready = true }) }
        ensures err { OnErr result (self.new ≡ self.old) }
        ensures only { IsOkUnless result Fault.OutOfMemory }
        ensures succeeds { self.old.ready ≡ true → IsOk result }
    {
        if !self.ready {
            if self.spare.is_none() {
                self.spare = Some(Reports::new(self.alloc)?);
            }
            self.attempts.reserve()?;
            self.ready = true;
        }
        Ok(())
    }

    /// The ballot under way for which a promise counts.
    fn current(&self, from: u8, slot: Slot, ballot: Ballot) -> Option<&Attempt<B>>
        ensures { option_copied result ≡ roles.current self.now.proposing from slot ballot }
    {
        let Some(attempt) = self.attempts.get(slot) else {
            return None;
        };
        if attempt.ballot == ballot && !has_report(attempt.counted.as_slice(), from) {
            Some(attempt)
        } else {
            None
        }
    }

    /// Whether with one report more an attempt has a majority.
    fn is_enough(&self, attempt: &Attempt<B>) -> bool
        ensures { result ≡ roles.is_enough self.now.replicas attempt.now }
    {
        majority(self.replicas) <= attempt.counted.as_slice().len() + 1
    }

    /// The batch that `on_promise`, made next with this promise, gives. Refused with `NotCurrent` where the promise isn't
    /// for the slot's ballot under way, or is counted.
    pub fn due<'a>(
        &'a self,
        from: u8,
        slot: Slot,
        ballot: Ballot,
        vote: Option<&'a Vote<B>>,
    ) -> Result<Option<&'a B>, Fault>
        ensures due { IfOk result (λ due. option_copied due ≡ roles.batch_due self.now.replicas (roles.current self.now.proposing from slot ballot) from (option_copied vote.entry)) }
        ensures not_current { IsErrOf result Fault.NotCurrent ↔ (roles.current self.now.proposing from slot ballot ≡ None) }
        ensures only { IsOkUnless result Fault.NotCurrent }
    {
        let Some(attempt) = self.current(from, slot, ballot) else {
            return Err(Fault::NotCurrent);
        };
        if !self.is_enough(attempt) {
            return Ok(None);
        }
        match highest(attempt.counted.as_slice(), vote) {
            Some(vote) => Ok(Some(&vote.batch)),
            None => Ok(Some(&attempt.own)),
        }
    }

    /// Phase 2a: counts the report of a promise. With the one that makes a majority the attempt ends, and the batch to
    /// send with the accept is given: that of the highest-numbered vote reported, else the own one. Refused with
    /// `NotCurrent` where the promise isn't for the slot's ballot under way, or is counted. Nothing grows.
    pub fn on_promise(
        &mut self,
        from: u8,
        slot: Slot,
        ballot: Ballot,
        vote: Option<Vote<B>>,
    ) -> Result<Option<B>, Fault>
        ensures batch { IfOk result (λ batch. batch ≡ roles.batch_due self.old.replicas (roles.current self.old.proposing from slot ballot) from vote) }
        ensures reported { OnOk result (self.new ≡ record
            self.old {
              proposing = roles.reported self.old.replicas self.old.proposing slot
                  (roles.current self.old.proposing from slot ballot) from vote;
            }) }
        ensures not_current { IsErrOf result Fault.NotCurrent ↔ (roles.current self.old.proposing from slot ballot ≡ None) }
        ensures only { IsOkUnless result Fault.NotCurrent }
        ensures err { OnErr result (self.new ≡ self.old) }
    {
        let Some(attempt) = self.current(from, slot, ballot) else {
            return Err(Fault::NotCurrent);
        };
        let report = Report { from, vote };
        if !self.is_enough(attempt) {
            self.attempts.count(slot, report);
            return Ok(None);
        }
        match self.attempts.remove(slot) {
            Some(mut attempt) => {
                attempt.counted.push(report);
                Ok(Some(attempt.into_batch()))
            }
            None => Err(Fault::NotCurrent),
        }
    }

    /// Takes note of the promise that a refusal names: its round is the greatest seen. Refused with `NotCurrent` where
    /// it isn't above every round used or seen.
    pub fn on_refused(&mut self, promise: Ballot) -> Result<(), Fault>
        ensures seen { OnOk result (self.new ≡ record self.old { proposing = roles.refused_at self.old.proposing promise }) }
        ensures not_current { IsErrOf result Fault.NotCurrent ↔ (promise.round ≤ max self.old.proposing.used self.old.proposing.seen) }
        ensures only { IsOkUnless result Fault.NotCurrent }
        ensures err { OnErr result (self.new ≡ self.old) }
    {
        if promise.round <= self.used || promise.round <= self.seen {
            return Err(Fault::NotCurrent);
        }
        self.seen = promise.round;
        Ok(())
    }
}

/// The reports that are kept for the next attempt, or new ones.
fn or_new<B: Drop>(alloc: Global, spare: Option<Reports<B>>) -> Result<Reports<B>, Fault>
    requires empty { ForSome spare (λ reports. reports ≡ []) }
    ensures none { IfOk result (λ reports. reports ≡ []) }
    ensures only { IsOkUnless result Fault.OutOfMemory }
    ensures succeeds { IsSome spare → IsOk result }
{
    match spare {
        Some(reports) => Ok(reports),
        None => Reports::new(alloc),
    }
}
