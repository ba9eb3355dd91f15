//! The names of requests, places, slots, ballots and nodes, each ordered by its fields in turn.
ghost use Rattle.std.specs.Prelude.{◌≡◌, ◌+◌, ◌*◌, ◌%◌, ◌^◌};
ghost use Rattle.std.proofs.Common.{rules};
ghost use Rattle.std.specs.Cmp.Rules.{comparing, hashing};
ghost use Rattle.std.specs.Hash as fed;
ghost use Rattle.calvin_types.specs.Places.{place_cmp, slot_cmp, ballot_cmp, node_cmp};

use crate::room_map::RoomKey;
use std::hash::{Hash, Hasher};

/// The name of a request: its client, and the client's own number for it. New attempts at a request keep its name.
#[derive(Clone, Copy, Debug, PartialEq, Eq, PartialOrd, Ord, Hash)]
pub struct RequestId {
    pub client: u32,
    pub number: u32,
}

/// A place in the global order (Thomson et al. 2012, section 3.1): the epoch, and the number among the epoch's merged
/// requests, from 0.
#[derive(Clone, Copy, Debug, PartialEq, Eq, PartialOrd, Ord)]
pub struct Place {
    pub epoch: u64,
    pub n: u32,
}

/// What one synod decides: the batch of a replication group for an epoch. A group is all replicas of one partition and
/// has the partition's number.
#[derive(Clone, Copy, Debug, PartialEq, Eq, PartialOrd, Ord)]
pub struct Slot {
    pub epoch: u64,
    pub group: u8,
}

/// A ballot of a synod, compared by round first. The replica that proposes it makes it its own ("Paxos Made Simple",
/// section 2.2: a proposal number, of which no two proposers use the same).
#[derive(Clone, Copy, Debug, PartialEq, Eq, PartialOrd, Ord, Hash)]
pub struct Ballot {
    pub round: u32,
    pub replica: u8,
}

/// A node: the machine that holds one partition of one replica (Thomson et al. 2012, section 3).
#[derive(Clone, Copy, Debug, PartialEq, Eq, PartialOrd, Ord, Hash)]
pub struct NodeId {
    pub replica: u8,
    pub partition: u8,
}

/// Both parts as one number, so that a table of places hashes once.
impl Hash for Place {
    ghost hash_input = { λ p. fed.u64 ((p.epoch + p.n * 2 ^ 32) % 2 ^ 64) };

    ghost respects_eq = { Prim.search (hashing, comparing, rules) };

    fn hash<H: Hasher>(&self, state: &mut H) {
        self.epoch
            .wrapping_add(u64::from(self.n) * (1 << 32))
            .hash(state);
    }
}

/// Both parts as one number, so that a table of slots hashes once.
impl Hash for Slot {
    ghost hash_input = { λ s. fed.u64 ((s.epoch + s.group * 2 ^ 56) % 2 ^ 64) };

    ghost respects_eq = { Prim.search (hashing, comparing, rules) };

    fn hash<H: Hasher>(&self, state: &mut H) {
        self.epoch
            .wrapping_add(u64::from(self.group) * (1 << 56))
            .hash(state);
    }
}

impl RoomKey for Slot {
    ghost use Rattle.calvin_types.specs.PlaceLaws.{slot_exact};

    ghost exact = { slot_exact };
}

/// Places, slots, ballots and nodes compare in code as their definitions say, so that what a generic map or search does
/// by `Ord` is by these orders.
pub fn orders_are()
    ensures places { (a b : Place) → ⟦<Place as Ord>⟧.cmp a b ≡ place_cmp a b }
    ensures slots { (a b : Slot) → ⟦<Slot as Ord>⟧.cmp a b ≡ slot_cmp a b }
    ensures ballots { (a b : Ballot) → ⟦<Ballot as Ord>⟧.cmp a b ≡ ballot_cmp a b }
    ensures nodes { (a b : NodeId) → ⟦<NodeId as Ord>⟧.cmp a b ≡ node_cmp a b }
{}
