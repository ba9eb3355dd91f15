//! Batches that take turns.
ghost use Rattle.std.specs.Prelude.{◌≡◌, ◌<◌, ◌≤◌, [], ◌∷◌, ◌++◌, length, take, MatchOption};
ghost use Rattle.calvin_order.specs.Walking.{turned, IsTurn};

use std::marker::Model;

/// How many batches can wait: one of each group, of at most sixteen.
const MOST_WAITING: usize = 16;

/// Batches that take turns, each turn for one request: what they still have, in the order in which their turns come. None of
/// them is empty, and none is copied. A turn takes the same time however many wait.
#[derive(Drop)]
pub struct Turns<'a, T> {
    // a ring
    waiting: [&'a [T]; MOST_WAITING],
    first: usize,
    count: usize,
}

impl<'a, T> Model for Turns<'a, T> {
    ghost use Rattle.std.specs.Prelude.{List};
    ghost use Rattle.calvin_order.specs.Rings.{window, lists_at, IsRing};

    ghost Value = { List (List T) };

    ghost view = { λ t. window t.first t.count (lists_at t.waiting) };

    ghost invariant = { λ t. IsRing t.first t.count (lists_at t.waiting) };
}

impl<'a, T> Turns<'a, T> {
    /// No batch waits.
    pub fn new() -> Turns<'a, T>
        ensures { result ≡ [] }
    {
        Turns {
            waiting: [&[]; MOST_WAITING],
            first: 0,
            count: 0,
        }
    }

    /// A batch, which has a request, waits behind the others.
    fn push(&mut self, batch: &'a [T])
        requires room { length self.old < MOST_WAITING }
        requires some { 0 < length batch.now }
        ensures { self.new ≡ self.old ++ batch.now ∷ [] }
    {
        let next = (self.first + self.count) % MOST_WAITING;
        let waiting = &mut self.waiting[..];
        waiting[next] = batch;
        self.count += 1;
    }

    /// The batch that has waited for longest waits no more.
    fn pop(&mut self) -> Option<&'a [T]>
        ensures at_most { length self.old ≤ MOST_WAITING }
        ensures first { MatchOption result ((self.old ≡ []) × (self.new ≡ [])) (λ batch. (self.old ≡ batch.now ∷ self.new) × (0 < length batch.now)) }
    {
        if self.count == 0 {
            return None;
        }
        let waiting = &self.waiting[..];
        let batch = waiting[self.first];
        self.first = (self.first + 1) % MOST_WAITING;
        self.count -= 1;
        Some(batch)
    }

    /// The first request of a batch, if it has one; where it has more, it waits behind the others.
    pub fn take_first(&mut self, batch: &'a [T]) -> &'a [T]
        requires { length self.old < MOST_WAITING }
        ensures first { result.now ≡ take 1 batch.now }
        ensures waiting { self.new ≡ turned batch.now self.old }
    {
        if batch.len() <= 1 {
            return batch;
        }
        self.push(&batch[1..]);
        &batch[..1]
    }

    /// The first request of the batch whose turn it is, if one waits.
    pub fn take_turn(&mut self) -> Option<&'a [T]>
        ensures { MatchOption result ((self.old ≡ []) × (self.new ≡ [])) (λ first. IsTurn self.old first.now self.new) }
    {
        let batch = self.pop()?;
        Some(self.take_first(batch))
    }
}
