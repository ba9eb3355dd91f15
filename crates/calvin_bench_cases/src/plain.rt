//! A plain evaluation of one replica of a given order, from the table of a scheduler's calls. A request is known by its
//! number in the order; its locks are its entry in a list of what is unreleased, and all lists are searched from the front.
use crate::drawing::Placed;
use crate::plain_kv::{Entry, answer, value_of};
use calvin_app::{Answer, KvReply, KvRequest};
use calvin_bench::Step;
use calvin_types::{Fault, Few, Key, KeySet, MOST_KEYS, Place, Txn};
use std::alloc::Global;

/// How a step ended.
#[derive(Clone, Copy, PartialEq)]
pub enum End {
    Admitted,
    Served(Few<Entry>),
    Received,
    Answered(Answer<KvReply>),
    Refused(u8),
}

/// An order.
#[derive(Drop)]
struct Order {
    count: u8,
    entries: Vec<Placed>,
}

impl Order {
    /// The request at a place, and its number.
    fn find(&self, place: Place) -> Option<(usize, Txn<KvRequest>)> {
        let mut number: usize = 0;
        for (at, txn) in self.entries.as_slice() {
            if *at == place {
                return Some((number, *txn));
            }
            number = number.saturating_add(1);
        }
        None
    }

    fn is_local(&self, key: Key, partition: u8) -> bool {
        key.id.checked_rem(self.count as u64) == Some(partition as u64)
    }

    fn has_local(&self, keys: &KeySet, partition: u8) -> bool {
        for i in 0..keys.len() {
            if self.is_local(keys.at(i), partition) {
                return true;
            }
        }
        false
    }

    fn is_participant(&self, txn: &Txn<KvRequest>, partition: u8) -> bool {
        self.has_local(&txn.sets.reads, partition) || self.has_local(&txn.sets.writes, partition)
    }

    /// A partition runs a request where it stores what is written, or is the least one that stores a key of it.
    fn is_active(&self, txn: &Txn<KvRequest>, partition: u8) -> bool {
        if self.has_local(&txn.sets.writes, partition) {
            return true;
        }
        for lesser in 0..partition {
            if self.is_participant(txn, lesser) {
                return false;
            }
        }
        self.is_participant(txn, partition)
    }

    /// Whether one request writes a key that is stored in a partition and that the other uses.
    fn writes_into(&self, one: &Txn<KvRequest>, other: &Txn<KvRequest>, partition: u8) -> bool {
        for i in 0..one.sets.writes.len() {
            let key = one.sets.writes.at(i);
            let is_used = other.sets.reads.has(key) || other.sets.writes.has(key);
            if self.is_local(key, partition) && is_used {
                return true;
            }
        }
        false
    }

    fn conflict(&self, one: &Txn<KvRequest>, other: &Txn<KvRequest>, partition: u8) -> bool {
        self.writes_into(one, other, partition) || self.writes_into(other, one, partition)
    }
}

/// One partition.
#[derive(Drop)]
struct Plain {
    partition: u8,
    admitted: usize,
    unreleased: Vec<usize>,
    begun: Vec<usize>,
    served: Vec<(usize, Entry)>,
    came: Vec<(usize, u8)>,
    brought: Vec<(usize, Entry)>,
    rows: Vec<Entry>,
}

impl Plain {
    fn new(alloc: Global, partition: u8) -> Plain {
        Plain {
            partition,
            admitted: 0,
            unreleased: Vec::new(alloc),
            begun: Vec::new(alloc),
            served: Vec::new(alloc),
            came: Vec::new(alloc),
            brought: Vec::new(alloc),
            rows: Vec::new(alloc),
        }
    }

    /// Whether an earlier unreleased request conflicts with this one.
    fn is_blocked(&self, order: &Order, number: usize, txn: &Txn<KvRequest>) -> bool {
        for earlier in self.unreleased.as_slice() {
            if let Some((_, other)) = order.entries.get(*earlier) {
                if *earlier < number && order.conflict(other, txn, self.partition) {
                    return true;
                }
            }
        }
        false
    }

    fn is_done(&self, number: usize) -> bool {
        self.begun.contains(&number) && !self.unreleased.contains(&number)
    }

    fn release(&mut self, number: usize) {
        self.unreleased.retain(|other| *other != number);
    }

    fn admit(&mut self, order: &Order) -> Result<End, Fault> {
        let Some((_, txn)) = order.entries.get(self.admitted) else {
            return Ok(End::Refused(48));
        };
        if order.is_participant(txn, self.partition) {
            self.unreleased.push(self.admitted)?;
        }
        self.admitted = self.admitted.saturating_add(1);
        Ok(End::Admitted)
    }

    fn begin(&mut self, order: &Order, place: Place) -> Result<End, Fault> {
        let Some((number, txn)) = order.find(place) else {
            return Ok(End::Refused(41));
        };
        if self.begun.contains(&number) {
            return Ok(End::Refused(42));
        }
        if !self.unreleased.contains(&number) || self.is_blocked(order, number, &txn) {
            return Ok(End::Refused(41));
        }
        self.begun.push(number)?;
        let rows = self.serve(order, number, &txn)?;
        if !order.is_active(&txn, self.partition) {
            self.release(number);
        }
        Ok(End::Served(rows))
    }

    /// Reads the keys that are stored here.
    fn serve(
        &mut self,
        order: &Order,
        number: usize,
        txn: &Txn<KvRequest>,
    ) -> Result<Few<Entry>, Fault> {
        let mut rows = Few::new();
        for i in 0..txn.sets.reads.len() {
            let key = txn.sets.reads.at(i);
            if !order.is_local(key, self.partition) {
                continue;
            }
            if let Some(value) = value_of(self.rows.as_slice(), key.id) {
                self.served.push((number, (key.id, value)))?;
                if rows.len() < MOST_KEYS {
                    rows.push((key.id, value));
                }
            }
        }
        Ok(rows)
    }

    /// Whether rows of another partition are still to come.
    fn awaits(&self, order: &Order, number: usize, txn: &Txn<KvRequest>, from: u8) -> bool {
        self.unreleased.contains(&number)
            && order.is_active(txn, self.partition)
            && from != self.partition
            && order.has_local(&txn.sets.reads, from)
            && !self.came.contains(&(number, from))
    }

    fn receive(&mut self, number: usize, from: u8, rows: &[Entry]) -> Result<End, Fault> {
        self.came.push((number, from))?;
        for entry in rows {
            self.brought.push((number, *entry))?;
        }
        Ok(End::Received)
    }

    fn finish(&mut self, alloc: Global, order: &Order, place: Place) -> Result<End, Fault> {
        let Some((number, txn)) = order.find(place) else {
            return Ok(End::Refused(41));
        };
        if !self.begun.contains(&number) || self.is_done(number) {
            return Ok(End::Refused(41));
        }
        for from in 0..order.count {
            if self.awaits(order, number, &txn, from) {
                return Ok(End::Refused(44));
            }
        }
        let mut seen = rows_for(alloc, self.served.as_slice(), number)?;
        for entry in rows_for(alloc, self.brought.as_slice(), number)?.as_slice() {
            seen.push(*entry)?;
        }
        let (answer, writes) = answer(alloc, &txn, seen.as_slice())?;
        self.write(order, writes.as_slice())?;
        self.release(number);
        Ok(End::Answered(answer))
    }

    /// Writes the keys that are stored here.
    fn write(&mut self, order: &Order, writes: &[Entry]) -> Result<(), Fault> {
        for (id, value) in writes {
            let (id, value) = (*id, *value);
            if order.is_local(Key { table: 0, id }, self.partition) {
                self.rows.retain(|row| row.0 != id);
                self.rows.push((id, value))?;
            }
        }
        Ok(())
    }

    /// Whether all with a key here is done up to the end of an epoch, and nothing of a later one.
    fn stands(&self, order: &Order, epoch: u64) -> bool {
        let mut number: usize = 0;
        for (place, txn) in order.entries.as_slice() {
            let is_due = place.epoch <= epoch;
            if order.is_participant(txn, self.partition) && self.is_done(number) != is_due {
                return false;
            }
            number = number.saturating_add(1);
        }
        true
    }
}

/// The rows of a request among those of all.
fn rows_for(alloc: Global, rows: &[(usize, Entry)], number: usize) -> Result<Vec<Entry>, Fault> {
    let mut found = Vec::new(alloc);
    for (other, entry) in rows {
        if *other == number {
            found.push(*entry)?;
        }
    }
    Ok(found)
}

/// A replica.
#[derive(Drop)]
pub struct PlainReplica {
    alloc: Global,
    order: Order,
    parts: Vec<Plain>,
}

impl PlainReplica {
    pub fn new(alloc: Global, count: u8, entries: Vec<Placed>) -> Result<PlainReplica, Fault> {
        let mut parts = Vec::new(alloc);
        for partition in 0..count {
            parts.push(Plain::new(alloc, partition))?;
        }
        Ok(PlainReplica {
            alloc,
            order: Order { count, entries },
            parts,
        })
    }

    pub fn step(&mut self, step: Step) -> Result<End, Fault> {
        match step {
            Step::Admit(p) => match self.parts.get_mut(p as usize) {
                Some(part) => part.admit(&self.order),
                None => Ok(End::Refused(60)),
            },
            Step::Begin(p, place) => match self.parts.get_mut(p as usize) {
                Some(part) => part.begin(&self.order, place),
                None => Ok(End::Refused(60)),
            },
            Step::Reads(p, from, place) => self.receive(p, from, place),
            Step::Finish(p, place) => match self.parts.get_mut(p as usize) {
                Some(part) => part.finish(self.alloc, &self.order, place),
                None => Ok(End::Refused(60)),
            },
        }
    }

    /// The rows that a partition served for a request, if it has begun there.
    fn served(&self, from: u8, number: usize) -> Result<Option<Vec<Entry>>, Fault> {
        match self.parts.get(from as usize) {
            Some(giver) if giver.begun.contains(&number) => {
                Ok(Some(rows_for(self.alloc, giver.served.as_slice(), number)?))
            }
            _ => Ok(None),
        }
    }

    fn receive(&mut self, p: u8, from: u8, place: Place) -> Result<End, Fault> {
        if p >= self.order.count || from >= self.order.count {
            return Ok(End::Refused(60));
        }
        let Some((number, txn)) = self.order.find(place) else {
            return Ok(End::Refused(43));
        };
        let served = self.served(from, number)?;
        let Some(part) = self.parts.get_mut(p as usize) else {
            return Ok(End::Refused(60));
        };
        if !part.awaits(&self.order, number, &txn, from) {
            return Ok(End::Refused(43));
        }
        match served {
            Some(rows) => part.receive(number, from, rows.as_slice()),
            None => Ok(End::Refused(47)),
        }
    }

    /// The number of the first request that a partition has still to finish, or else to admit.
    pub fn first_left(&self, p: u8) -> usize {
        let Some(part) = self.parts.get(p as usize) else {
            return 0;
        };
        match part.unreleased.first() {
            Some(number) => *number,
            None => part.admitted,
        }
    }

    /// The greatest epoch at whose end a partition stands: all epochs of the order are merged.
    pub fn stands_at(&self, p: u8) -> Option<u64> {
        let mut standing = None;
        let (Some(part), Some(last)) = (self.parts.get(p as usize), self.order.entries.last())
        else {
            return None;
        };
        for epoch in 0..last.0.epoch.saturating_add(1) {
            if part.stands(&self.order, epoch) {
                standing = Some(epoch);
            }
        }
        standing
    }

    /// The rows of a partition.
    pub fn rows(&self, p: u8) -> &[Entry] {
        match self.parts.get(p as usize) {
            Some(part) => part.rows.as_slice(),
            None => &[],
        }
    }
}
