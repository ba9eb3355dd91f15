//! The requests of one epoch in merged order.
ghost use Rattle.std.specs.Prelude.{◌≡◌, ◌+◌, ◌*◌, ◌<◌, ◌≤◌, List, [], ◌∷◌, ◌++◌, length, is_some, MatchOption};
ghost use Rattle.std.specs.Option.{unwrap_or};
ghost use Rattle.std.specs.Iterator.{at_most};
ghost use Rattle.std.specs.Map.Iter.{TakesFirst};
ghost use Rattle.calvin_types.specs.declared.place.Slot.{Slot as TheSlot};
ghost use Rattle.calvin_order.specs.Configs.{is_woven, merged, order_config};
ghost use Rattle.calvin_order.specs.Merged.{joined};
ghost use Rattle.calvin_order.specs.Walking.{flat, left_behind, placed, IsTurn};

use crate::turns::Turns;
use calvin_types::{Config, MOST_PARTITIONS, MOST_REQUESTS, Place, Slot};
use std::marker::Model;

/// What gives the batch for each slot, wherever the batches lie. `T` is a request, or one with what else is known of it.
pub trait BatchSource<T> {
    /// The batch for each slot.
    ghost assignment: { Self → TheSlot → List T };

    /// The requests of the batch for a slot, as they stand.
    fn requests(&self, slot: Slot) -> &[T]
        ensures requests { result.now ≡ assignment self.now slot }
        ensures at_most { length result.now ≤ MOST_REQUESTS };
}

/// How many requests the batches of an epoch have together, of so many groups.
pub fn count_requests<T, B: BatchSource<T>>(batches: &B, epoch: u64, groups: u8) -> usize
    ensures count { result ≡ length (joined (B.assignment batches.now) epoch groups) }
    ensures at_most { result ≤ MOST_REQUESTS * groups }
{
    let mut count = 0;
    for group in 0..groups {
        count += batches.requests(Slot { epoch, group }).len();
    }
    count
}

/// Whether the batches of an epoch are woven.
pub fn is_woven(config: &Config, epoch: u64) -> bool
    ensures { result ≡ is_woven config.now.woven_from epoch }
{
    match config.woven_from {
        Some(first) => first <= epoch,
        None => false,
    }
}

/// No batch waits yet, in an epoch whose batches take turns.
fn turns_in<'a, T>(config: &Config, epoch: u64) -> Option<Turns<'a, T>>
    ensures woven { is_some result ≡ is_woven config.now.woven_from epoch }
    ensures waiting { unwrap_or result [] ≡ [] }
{
    if is_woven(config, epoch) {
        Some(Turns::new())
    } else {
        None
    }
}

/// What a batch gives before the next group's is looked at: all of it, or, where batches take turns, its first request, and
/// then it waits for its next turn if it has more.
fn first_part<'a, T>(batch: &'a [T], turns: &mut Option<Turns<'a, T>>) -> &'a [T]
    requires { length (unwrap_or turns.old []) < MOST_PARTITIONS }
    ensures woven { is_some turns.new ≡ is_some turns.old }
    ensures left { (bs : List (List T)) → result.now ++ left_behind (is_some turns.old) bs (unwrap_or turns.new []) ≡ left_behind (is_some turns.old) (batch.now ∷ bs) (unwrap_or turns.old []) }
    ensures count { length result.now + length (flat (unwrap_or turns.new [])) ≡ length batch.now + length (flat (unwrap_or turns.old [])) }
    ensures few { length (unwrap_or turns.new []) ≤ length (unwrap_or turns.old []) + 1 }
{
    match turns {
        Some(turns) => turns.take_first(batch),
        None => batch,
    }
}

/// The first request of the batch whose turn it is, if one waits.
fn next_turn<'a, T>(turns: &mut Option<Turns<'a, T>>) -> Option<&'a [T]>
    ensures woven { is_some turns.new ≡ is_some turns.old }
    ensures turn { MatchOption result ((unwrap_or turns.old [] ≡ []) × (unwrap_or turns.new [] ≡ [])) (λ first. IsTurn (unwrap_or turns.old []) first.now (unwrap_or turns.new [])) }
{
    match turns {
        Some(turns) => turns.take_turn(),
        None => None,
    }
}

/// The requests of one epoch, each with its place: whole batches by ascending group, or the batches woven. It is an iterator
/// over the batches where they lie, which contracts see as the requests that it still gives. Each batch is asked for once, and
/// what a request takes doesn't grow with the number of groups, woven or not.
#[derive(Drop)]
pub struct EpochRequests<'a, T, S: BatchSource<T>> {
    source: &'a S,
    // the next group
    slot: Slot,
    groups: u8,
    // the number of the next request
    n: u32,
    // what is given before anything else: of the group before what it still has, or one request where batches are woven
    rest: &'a [T],
    // what groups before still have, where batches are woven
    turns: Option<Turns<'a, T>>,
}

impl<'a, T, S: BatchSource<T>> Model for EpochRequests<'a, T, S> {
    ghost use Rattle.std.specs.Prelude.{List, [], length, is_some};
    ghost use Rattle.std.specs.Option.{unwrap_or};
    ghost use Rattle.calvin_types.specs.declared.place.Place.{Place};
    ghost use Rattle.calvin_order.specs.Codes.{coded_placed};
    ghost use Rattle.calvin_order.specs.Walking.{left_of, IsWalk};

    ghost Value = { List (Place × T) };

    ghost coded = { coded_placed T.code };

    ghost view = { λ w. left_of (S.assignment w.source.now) w.slot w.groups (is_some w.turns) w.n w.rest.now (unwrap_or w.turns []) };

    ghost invariant = { λ w. IsWalk w.slot.group w.groups w.n (length w.rest.now) (unwrap_or w.turns []) };
}

impl<'a, T, S: BatchSource<T>> EpochRequests<'a, T, S> {
    /// The requests of an epoch of as many groups as there are partitions.
    pub fn new(source: &'a S, epoch: u64, config: &Config) -> EpochRequests<'a, T, S>
        ensures { result ≡ merged (order_config config.now) (S.assignment source.now) epoch }
    {
        EpochRequests {
            source,
            slot: Slot { epoch, group: 0 },
            groups: config.partitions,
            n: 0,
            rest: &[],
            turns: turns_in(config, epoch),
        }
    }
}

impl<'a, T, S: BatchSource<T>> Iterator for EpochRequests<'a, T, S> {
    type Item = (Place, &'a T);

    ghost next_gives = { TakesFirst placed };

    ghost remaining = { λ w. at_most (length w) };

    #[inline(always)]
    fn next(&mut self) -> Option<(Place, &'a T)> {
        while self.rest.is_empty() && self.slot.group < self.groups {
            let batch = self.source.requests(self.slot);
            self.slot.group += 1;
            self.rest = first_part(batch, &mut self.turns);
        }
        if self.rest.is_empty() {
            self.rest = next_turn(&mut self.turns)?;
        }
        let rest = self.rest;
        self.rest = &rest[1..];
        let place = Place {
            epoch: self.slot.epoch,
            n: self.n,
        };
        self.n += 1;
        Some((place, &rest[0]))
    }
}
