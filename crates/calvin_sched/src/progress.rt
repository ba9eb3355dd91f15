//! How far the epochs are merged and done.
ghost use Rattle.std.specs.Prelude.{◌≡◌, ◌⊎◌, ◌&&◌, MatchBool, ◌++◌, ◌+◌, ◌≤◌, ◌<◌, ◌==◌, nat_le, [], max, length, OnOk, OnErr, IfErr};
ghost use Rattle.std.specs.List.{list_all};
ghost use Rattle.calvin_types.specs.Participants.{site};
ghost use Rattle.calvin_sched.specs.Standing.{local_places};
ghost use Rattle.calvin_order.specs.Merged.{end_of};
ghost use Rattle.calvin_sched.specs.Scheduling.{is_before};
ghost use Rattle.calvin_sched.specs.Progress.{from_left, end_of_due, done_at, passes_first, HasReserved};

use crate::turns::Turns;
use calvin_app::App;
use calvin_types::{Config, Fault, Place, Txn};
use std::alloc::Global;
use std::collections::VecDeque;

/// How many epochs are merged; one more than the greatest epoch of which anything is done, or 0; the places at which
/// requests of merged epochs are due, from the first one on that isn't done, with the room that was reserved for more; and
/// how many places were dropped before these, which is about where the first of them stands among the admitted requests.
#[derive(Drop)]
pub(crate) struct Progress {
    pub merged: u128,
    pub done: u128,
    pub due: VecDeque<Place>,
    pub room: usize,
    pub dropped: usize,
}

impl Progress {
    /// So many epochs are merged, and nothing is due.
    pub fn from_epochs(alloc: Global, epochs: u128) -> Progress
        ensures merged { result.merged ≡ epochs }
        ensures done { result.done ≡ 0 }
        ensures due { result.due.items ≡ [] }
        ensures room { result.room ≡ 0 }
        ensures reserved { HasReserved result }
    {
        Progress {
            merged: epochs,
            done: 0,
            due: VecDeque::new(alloc),
            room: 0,
            dropped: 0,
        }
    }

    /// The epoch of the first place that is due, or else how many epochs are merged.
    pub fn end(&self) -> u128
        ensures { result ≡ end_of_due self.now.merged self.now.due.items }
    {
        match self.due.front() {
            Some(place) => u128::from(place.epoch),
            None => self.merged,
        }
    }

    /// Whether so many epochs are none, fewer than were opened, or fewer than those of which anything is done.
    pub fn is_no_standing(&self, end: u128, opened: u128) -> bool
        ensures { MatchBool result ((end ≡ 0) ⊎ ((end < opened) ⊎ (end < self.now.done))) ((0 < end) × (opened ≤ end) × (self.now.done ≤ end)) }
    {
        end == 0 || end < opened || end < self.done
    }

    /// Whether so many epochs are merged, and what they have to do is done.
    pub fn is_done_up_to(&self, epochs: u128) -> bool
        ensures { result ≡ nat_le epochs (end_of_due self.now.merged self.now.due.items) }
    {
        epochs <= self.end()
    }

    /// Whether so many epochs are no fewer than were opened, and nothing past them is done.
    pub fn is_done_no_further(&self, epochs: u128, opened: u128) -> bool
        ensures { result ≡ (nat_le opened epochs && nat_le self.now.done epochs) }
    {
        opened <= epochs && self.done <= epochs
    }

    /// Whether an epoch is the next one, and all requests stand at places of it.
    pub fn is_next<Args: Copy>(&self, epoch: u64, entries: &[(Place, Txn<Args>)]) -> bool
        ensures { result ≡ ((epoch == self.now.merged) && list_all (λ e. e.0.epoch == epoch) entries.now) }
    {
        u128::from(epoch) == self.merged && are_of_epoch(entries, epoch)
    }

    /// Whether there is a first place, and it is done.
    fn is_first_done<A: App>(&self, opened: u128, turns: &Turns<A>) -> bool
        ensures { result ≡ passes_first (done_at opened turns.now.kept) self.now.due.items }
    {
        match self.due.front() {
            Some(place) => is_done(*place, opened, turns, self.dropped),
            None => false,
        }
    }

    /// Drops the first places as long as they are done.
    pub fn skip_done<A: App>(&mut self, opened: u128, turns: &Turns<A>)
        requires { HasReserved self.old }
        ensures merged { self.new.merged ≡ self.old.merged }
        ensures done { self.new.done ≡ self.old.done }
        ensures due { self.new.due.items ≡ from_left (done_at opened turns.now.kept) self.old.due.items }
        ensures room { self.new.room ≡ self.old.room }
        ensures reserved { HasReserved self.new }
    {
        while self.is_first_done(opened, turns) {
            let _done = self.due.pop_front();
            self.dropped = self.dropped.saturating_add(1);
        }
    }

    /// The request at a place is done.
    pub fn finish<A: App>(&mut self, place: Place, opened: u128, turns: &Turns<A>)
        requires { HasReserved self.old }
        ensures merged { self.new.merged ≡ self.old.merged }
        ensures done { self.new.done ≡ max self.old.done (place.epoch + 1) }
        ensures due { self.new.due.items ≡ from_left (done_at opened turns.now.kept) self.old.due.items }
        ensures room { self.new.room ≡ self.old.room }
        ensures reserved { HasReserved self.new }
    {
        self.done = self.done.max(u128::from(place.epoch) + 1);
        self.skip_done(opened, turns);
    }

    /// Room for the places of the requests with a key that is stored in a partition.
    pub fn reserve<Args: Copy>(
        &mut self,
        entries: &[(Place, Txn<Args>)],
        config: &Config,
        partition: u8,
    ) -> Result<(), Fault>
        requires { HasReserved self.old }
        ensures merged { self.new.merged ≡ self.old.merged }
        ensures done { self.new.done ≡ self.old.done }
        ensures due { self.new.due.items ≡ self.old.due.items }
        ensures reserved { HasReserved self.new }
        ensures ok { OnOk result (self.new.room ≡ max (length (local_places (site config.now.partitions partition) entries.now)) self.old.room) }
        ensures err { OnErr result (self.new.room ≡ self.old.room) }
        ensures refused { IfErr result (λ fault. (fault ≡ Fault.OutOfMemory) × (self.old.room < length (local_places (site config.now.partitions partition) entries.now))) }
    {
        self.reserve_places(count_local(entries, config, partition))
    }

    /// Room for so many places.
    pub fn reserve_places(&mut self, places: usize) -> Result<(), Fault>
        requires { HasReserved self.old }
        ensures merged { self.new.merged ≡ self.old.merged }
        ensures done { self.new.done ≡ self.old.done }
        ensures due { self.new.due.items ≡ self.old.due.items }
        ensures reserved { HasReserved self.new }
        ensures ok { OnOk result (self.new.room ≡ max places self.old.room) }
        ensures err { OnErr result (self.new.room ≡ self.old.room) }
        ensures refused { IfErr result (λ fault. (fault ≡ Fault.OutOfMemory) × (self.old.room < places)) }
    {
        if places > self.room {
            self.due.reserve(places)?;
            self.room = places;
        }
        Ok(())
    }

    /// The same as `reserve`, or room for the places of all these requests where that is there: then they aren't counted.
    pub fn reserve_for_all<Args: Copy>(
        &mut self,
        entries: &[(Place, Txn<Args>)],
        config: &Config,
        partition: u8,
    ) -> Result<(), Fault>
        requires { HasReserved self.old }
        ensures merged { self.new.merged ≡ self.old.merged }
        ensures done { self.new.done ≡ self.old.done }
        ensures due { self.new.due.items ≡ self.old.due.items }
        ensures reserved { HasReserved self.new }
        ensures ok { OnOk result (length (local_places (site config.now.partitions partition) entries.now) ≤ self.new.room) }
        ensures err { OnErr result (self.new.room ≡ self.old.room) }
        ensures refused { IfErr result (λ fault. (fault ≡ Fault.OutOfMemory) × (self.old.room < length (local_places (site config.now.partitions partition) entries.now))) }
    {
        match self.reserve_places(entries.len()) {
            Ok(()) => Ok(()),
            Err(_) => self.reserve(entries, config, partition),
        }
    }

    /// An epoch is merged and has these requests: the places of those with a key that is stored in the partition are due.
    /// The room that was reserved for them is taken.
    pub fn merge<Args: Copy>(
        &mut self,
        epoch: u64,
        entries: &[(Place, Txn<Args>)],
        config: &Config,
        partition: u8,
    )
        requires reserved { HasReserved self.old }
        requires room { length (local_places (site config.now.partitions partition) entries.now) ≤ self.old.room }
        ensures merged { self.new.merged ≡ epoch + 1 }
        ensures done { self.new.done ≡ self.old.done }
        ensures due { self.new.due.items ≡ self.old.due.items ++ local_places (site config.now.partitions partition) entries.now }
        ensures room { self.new.room ≡ 0 }
        ensures reserved { HasReserved self.new }
    {
        self.merged = u128::from(epoch) + 1;
        self.room = 0;
        for i in 0..entries.len() {
            if entries[i].1.is_participant(config, partition) {
                self.due.push_back_reserved(entries[i].0);
            }
        }
    }
}

/// Whether a place is done, or counts as done. Its request is looked for first with `near` before it or one more.
fn is_done<A: App>(place: Place, opened: u128, turns: &Turns<A>, near: usize) -> bool
    ensures { result ≡ done_at opened turns.now.kept place }
{
    is_of_first(place, opened) || turns.is_done(place, near)
}

/// Whether a place is of one of the first epochs.
pub(crate) fn is_of_first(place: Place, epochs: u128) -> bool
    ensures { result ≡ is_before place (end_of epochs) }
{
    u128::from(place.epoch) < epochs
}

/// How many requests have a key that is stored in a partition.
fn count_local<Args: Copy>(entries: &[(Place, Txn<Args>)], config: &Config, partition: u8) -> usize
    ensures { result ≡ length (local_places (site config.now.partitions partition) entries.now) }
{
    let mut count = 0;
    for i in 0..entries.len() {
        if entries[i].1.is_participant(config, partition) {
            count += 1;
        }
    }
    count
}

/// Whether all requests stand at places of an epoch.
fn are_of_epoch<Args: Copy>(entries: &[(Place, Txn<Args>)], epoch: u64) -> bool
    ensures { result ≡ list_all (λ e. e.0.epoch == epoch) entries.now }
{
    for i in 0..entries.len() {
        if entries[i].0.epoch != epoch {
            return false;
        }
    }
    true
}
