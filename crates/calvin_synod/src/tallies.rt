//! Whose votes are counted.
ghost use Rattle.std.specs.Prelude.{◌≡◌, ◌<◌, ◌-◌, ◌++◌, ◌∷◌, [], max, length, IsOk, OnOk, OnErr, IsOkUnless};
ghost use Rattle.std.specs.Option.{unwrap_or};
ghost use Rattle.std.specs.FinMap as map;

use calvin_types::{Ballot, Fault, Few, MOST_REPLICAS, RoomKey, RoomMap, Slot};
use std::alloc::Global;
use std::marker::Model;

/// Which proposal is voted for: that of a slot at a ballot.
#[derive(Clone, Copy, Debug, PartialEq, Eq, PartialOrd, Ord, Hash)]
pub struct Proposal {
    pub slot: Slot,
    pub ballot: Ballot,
}

impl RoomKey for Proposal {
    ghost use Rattle.calvin_synod.specs.ProposalLaws.{proposal_exact};

    ghost exact = { proposal_exact };
}

/// Who voted for each proposal, in the order in which the votes came. Room for some more proposals can be reserved.
#[derive(Drop)]
pub struct Tallies {
    voters: RoomMap<Proposal, Few<u8>>,
}

impl Model for Tallies {
    ghost use Rattle.calvin_types.specs.RoomMaps.{by};
    ghost use Rattle.calvin_synod.specs.Roles.{proposal_cmp};
    ghost use Rattle.calvin_synod.specs.States.{Tallied};
    ghost use Rattle.calvin_synod.specs.Codes.{coded_tallied};

    ghost Value = { Tallied };

    ghost coded = { coded_tallied };

    ghost view = { λ t. record { counted = by proposal_cmp t.voters; room = t.voters.room } };
}

impl Tallies {
    pub fn new(alloc: Global) -> Tallies
        ensures { result ≡ record { counted = map.empty; room = 0 } }
    {
        Tallies {
            voters: RoomMap::new(alloc),
        }
    }

    /// Who voted for a proposal.
    pub fn voters(&self, proposal: Proposal) -> Few<u8>
        ensures { result ≡ unwrap_or (map.get self.now.counted proposal) [] }
    {
        match self.voters.get(proposal) {
            Some(voters) => *voters,
            None => Few::new(),
        }
    }

    /// Counts one vote more for a proposal.
    pub fn add(&mut self, proposal: Proposal, from: u8) -> Result<(), Fault>
        requires few { length (unwrap_or (map.get self.old.counted proposal) []) < MOST_REPLICAS }
        ensures added { OnOk result (self.new ≡ record { counted = map.insert self.old.counted proposal (unwrap_or (map.get self.old.counted proposal) [] ++ from ∷ []); room = self.old.room - 1 }) }
        ensures err { OnErr result (self.new ≡ self.old) }
        ensures only { IsOkUnless result Fault.OutOfMemory }
        ensures succeeds { 0 < self.old.room → IsOk result }
    {
        let mut voters = self.voters(proposal);
        voters.push(from);
        self.voters.insert(proposal, voters)
    }

    /// Ends the count of a proposal.
    pub fn remove(&mut self, proposal: Proposal)
        ensures { self.new ≡ record self.old { counted = map.remove self.old.counted proposal } }
    {
        self.voters.remove(proposal);
    }

    /// Room for one more proposal at least.
    pub fn reserve(&mut self) -> Result<(), Fault>
        ensures ok { OnOk result (self.new ≡ record self.old { room = max 1 self.old.room }) }
        ensures err { OnErr result (self.new ≡ self.old) }
        ensures only { IsOkUnless result Fault.OutOfMemory }
    {
        self.voters.reserve(1)
    }
}
