//! A plain evaluation of a group, from the table of a message's cases: a batch is a number, and everything is kept in
//! lists.
use calvin_types::{Ballot, Fault, Slot};
use std::alloc::Global;

/// A vote: the ballot, and the batch's number.
pub type Vote = (Ballot, u64);

/// What a packet says of its slot and ballot.
#[derive(Clone, Copy, Debug, PartialEq, Eq)]
pub enum Said {
    Prepare,
    Promise(Option<Vote>),
    Accept(u64),
    Refused(Ballot),
    Accepted(u64),
}

/// A packet.
#[derive(Clone, Copy, Debug, PartialEq, Eq)]
pub struct Letter {
    pub from: u8,
    pub to: u8,
    pub slot: Slot,
    pub ballot: Ballot,
    pub said: Said,
}

/// How an event ended.
#[derive(Clone, Copy, Debug, PartialEq, Eq)]
pub enum End {
    Done,
    Gave(Slot, u64),
    Refused(u8),
}

/// One replica.
#[derive(Drop)]
struct Plain {
    records: Vec<(Slot, Ballot, Option<Vote>)>,
    used: u32,
    seen: u32,
    attempts: Vec<(Slot, Ballot, u64)>,
    reports: Vec<(Slot, u8, Option<Vote>)>,
    votes: Vec<(Slot, Ballot, u8)>,
    given: Vec<Slot>,
}

impl Plain {
    fn new(alloc: Global) -> Plain {
        Plain {
            records: Vec::new(alloc),
            used: 0,
            seen: 0,
            attempts: Vec::new(alloc),
            reports: Vec::new(alloc),
            votes: Vec::new(alloc),
            given: Vec::new(alloc),
        }
    }

    fn recorded(&self, slot: Slot) -> Option<(Ballot, Option<Vote>)> {
        for (at, promise, vote) in self.records.as_slice() {
            if *at == slot {
                return Some((*promise, *vote));
            }
        }
        None
    }

    fn note(&mut self, slot: Slot, promise: Ballot, vote: Option<Vote>) -> Result<(), Fault> {
        self.records.retain(|record| record.0 != slot);
        self.records.push((slot, promise, vote))?;
        Ok(())
    }

    /// The batch of the slot's attempt at this ballot.
    fn attempt(&self, slot: Slot, ballot: Ballot) -> Option<u64> {
        for (at, own_ballot, own) in self.attempts.as_slice() {
            if *at == slot && *own_ballot == ballot {
                return Some(*own);
            }
        }
        None
    }

    fn forget(&mut self, slot: Slot) {
        self.attempts.retain(|attempt| attempt.0 != slot);
        self.reports.retain(|report| report.0 != slot);
    }

    /// How many promises of the slot are counted, whether the replica's is one of them, and the highest vote.
    fn reported(&self, slot: Slot, from: u8) -> (usize, bool, Option<Vote>) {
        let mut count: usize = 0;
        let mut is_counted = false;
        let mut highest: Option<Vote> = None;
        for (at, reporter, vote) in self.reports.as_slice() {
            if *at != slot {
                continue;
            }
            count = count.saturating_add(1);
            if *reporter == from {
                is_counted = true;
            }
            highest = higher(highest, *vote);
        }
        (count, is_counted, highest)
    }
}

fn higher(first: Option<Vote>, second: Option<Vote>) -> Option<Vote> {
    match (first, second) {
        (Some(a), Some(b)) => if b.0 > a.0 { Some(b) } else { Some(a) },
        (Some(a), None) => Some(a),
        (None, b) => b,
    }
}

/// A group.
#[derive(Drop)]
pub struct PlainGroup {
    replicas: Vec<Plain>,
    pub letters: Vec<Letter>,
}

impl PlainGroup {
    pub fn new(alloc: Global, size: u8) -> Result<PlainGroup, Fault> {
        let mut replicas = Vec::new(alloc);
        for _ in 0..size {
            replicas.push(Plain::new(alloc))?;
        }
        Ok(PlainGroup {
            replicas,
            letters: Vec::new(alloc),
        })
    }

    fn send_to_all(&mut self, letter: Letter) -> Result<End, Fault> {
        let mut to: u8 = 0;
        for _ in self.replicas.as_slice() {
            self.letters.push(Letter { to, ..letter })?;
            to = to.saturating_add(1);
        }
        Ok(End::Done)
    }

    fn send_back(&mut self, letter: Letter, said: Said) -> Result<End, Fault> {
        self.letters.push(Letter {
            from: letter.to,
            to: letter.from,
            said,
            ..letter
        })?;
        Ok(End::Done)
    }

    pub fn propose(&mut self, replica: u8, slot: Slot, batch: u64) -> Result<End, Fault> {
        let Some(plain) = self.replicas.get_mut(replica as usize) else {
            return Ok(End::Refused(60));
        };
        let greatest = if plain.used > plain.seen {
            plain.used
        } else {
            plain.seen
        };
        let Some(round) = greatest.checked_add(1) else {
            return Ok(End::Refused(20));
        };
        let ballot = Ballot { round, replica };
        plain.used = round;
        plain.forget(slot);
        plain.attempts.push((slot, ballot, batch))?;
        self.send_to_all(Letter {
            from: replica,
            to: 0,
            slot,
            ballot,
            said: Said::Prepare,
        })
    }

    pub fn restart(&mut self, replica: u8) -> End {
        let Some(plain) = self.replicas.get_mut(replica as usize) else {
            return End::Refused(60);
        };
        plain.seen = 0;
        plain.attempts.clear();
        plain.reports.clear();
        plain.votes.clear();
        plain.given.clear();
        End::Done
    }

    pub fn deliver(&mut self, number: usize) -> Result<End, Fault> {
        let Some(letter) = self.letters.get(number).copied() else {
            return Ok(End::Refused(61));
        };
        match letter.said {
            Said::Prepare => self.prepare(letter),
            Said::Promise(vote) => self.promise(letter, vote),
            Said::Accept(batch) => self.accept(letter, batch),
            Said::Refused(promise) => Ok(self.refused(letter, promise)),
            Said::Accepted(batch) => self.accepted(letter, batch),
        }
    }

    fn prepare(&mut self, letter: Letter) -> Result<End, Fault> {
        let Some(plain) = self.replicas.get_mut(letter.to as usize) else {
            return Ok(End::Refused(60));
        };
        let said = match plain.recorded(letter.slot) {
            Some((promise, _)) if promise >= letter.ballot => Said::Refused(promise),
            Some((_, vote)) => {
                plain.note(letter.slot, letter.ballot, vote)?;
                Said::Promise(vote)
            }
            None => {
                plain.note(letter.slot, letter.ballot, None)?;
                Said::Promise(None)
            }
        };
        self.send_back(letter, said)
    }

    fn promise(&mut self, letter: Letter, vote: Option<Vote>) -> Result<End, Fault> {
        let majority = self.replicas.len() / 2 + 1;
        let Some(plain) = self.replicas.get_mut(letter.to as usize) else {
            return Ok(End::Refused(60));
        };
        let Some(own) = plain.attempt(letter.slot, letter.ballot) else {
            return Ok(End::Refused(21));
        };
        if plain.reported(letter.slot, letter.from).1 {
            return Ok(End::Refused(21));
        }
        plain.reports.push((letter.slot, letter.from, vote))?;
        let (count, _, highest) = plain.reported(letter.slot, letter.from);
        if count < majority {
            return Ok(End::Done);
        }
        let batch = match highest {
            Some(vote) => vote.1,
            None => own,
        };
        plain.forget(letter.slot);
        self.send_to_all(Letter {
            from: letter.to,
            said: Said::Accept(batch),
            ..letter
        })
    }

    fn accept(&mut self, letter: Letter, batch: u64) -> Result<End, Fault> {
        let Some(plain) = self.replicas.get_mut(letter.to as usize) else {
            return Ok(End::Refused(60));
        };
        if let Some((promise, _)) = plain.recorded(letter.slot) {
            if promise > letter.ballot {
                return self.send_back(letter, Said::Refused(promise));
            }
        }
        plain.note(letter.slot, letter.ballot, Some((letter.ballot, batch)))?;
        self.send_to_all(Letter {
            from: letter.to,
            said: Said::Accepted(batch),
            ..letter
        })
    }

    fn refused(&mut self, letter: Letter, promise: Ballot) -> End {
        let Some(plain) = self.replicas.get_mut(letter.to as usize) else {
            return End::Refused(60);
        };
        if promise.round > plain.used && promise.round > plain.seen {
            plain.seen = promise.round;
            End::Done
        } else {
            End::Refused(21)
        }
    }

    fn accepted(&mut self, letter: Letter, batch: u64) -> Result<End, Fault> {
        let majority = self.replicas.len() / 2 + 1;
        let Some(plain) = self.replicas.get_mut(letter.to as usize) else {
            return Ok(End::Refused(60));
        };
        let vote = (letter.slot, letter.ballot, letter.from);
        if plain.given.contains(&letter.slot) || plain.votes.contains(&vote) {
            return Ok(End::Refused(22));
        }
        plain.votes.push(vote)?;
        let mut count: usize = 0;
        for (slot, ballot, _) in plain.votes.as_slice() {
            if *slot == letter.slot && *ballot == letter.ballot {
                count = count.saturating_add(1);
            }
        }
        if count < majority {
            return Ok(End::Done);
        }
        plain.given.push(letter.slot)?;
        Ok(End::Gave(letter.slot, batch))
    }
}
