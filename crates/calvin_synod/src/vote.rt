//! Votes, and what an acceptor keeps of a slot.
use calvin_types::Ballot;

/// A batch, and the ballot at which it is voted for ("Paxos Made Simple", section 2.2: a proposal that an acceptor has
/// accepted, with its number).
#[derive(Clone, Debug, Drop, PartialEq, Eq)]
pub struct Vote<B> {
    pub ballot: Ballot,
    pub batch: B,
}

/// What an acceptor keeps of a slot: the ballot that it promised, which it never votes below, and the vote of the
/// greatest ballot that it cast.
#[derive(Debug, Drop, PartialEq, Eq)]
pub struct Recorded<B> {
    pub promise: Ballot,
    pub vote: Option<Vote<B>>,
}
