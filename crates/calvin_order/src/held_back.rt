//! Requests that are held back until some more batches are closed.
ghost use Rattle.std.specs.Prelude.{◌≡◌, ◌+◌, ◌≤◌, ◌++◌, [], length, IsNone};
ghost use Rattle.std.specs.Option.{option_to_list};
ghost use Rattle.std.specs.VecDeque.{deque_len, deque_capacity};
ghost use Rattle.calvin_order.specs.Keeping.{held_of, InTurn};
ghost use Rattle.calvin_order.specs.Sequencing.{ripe, unripe};

use calvin_types::Txn;
use std::collections::VecDeque;

/// A request that is held back, and how many batches had been closed when it was submitted: so no closing has to count up
/// for each request.
#[derive(Clone, Copy)]
pub struct ColdRequest<Args> {
    pub txn: Txn<Args>,
    pub since: usize,
}

/// Takes the first request if it has seen as many closings as it is held back for.
fn take_ripe<Args: Copy>(
    held: &mut VecDeque<ColdRequest<Args>>,
    delay: u8,
    closings: usize,
) -> Option<Txn<Args>>
    requires { InTurn 0 closings held.old.items }
    ensures ripe { ripe delay (held_of closings held.old.items) ≡ option_to_list result ++ ripe delay (held_of closings held.new.items) }
    ensures unripe { unripe delay (held_of closings held.new.items) ≡ unripe delay (held_of closings held.old.items) }
    ensures none { IsNone result → (ripe delay (held_of closings held.new.items) ≡ []) × (unripe delay (held_of closings held.new.items) ≡ held_of closings held.new.items) }
    ensures in_turn { InTurn 0 closings held.new.items }
    ensures len { deque_len held.new + length (option_to_list result) ≡ deque_len held.old }
    ensures capacity { deque_capacity held.new ≡ deque_capacity held.old }
{
    let Some(first) = held.front() else {
        return None;
    };
    if closings - first.since < usize::from(delay) {
        return None;
    }
    match held.pop_front() {
        Some(first) => Some(first.txn),
        None => None,
    }
}

/// The requests that have seen as many closings as they are held back for join the queue's end, in the order of submission.
/// There is room for them.
pub fn join_ripe<Args: Copy>(
    queue: &mut VecDeque<Txn<Args>>,
    held: &mut VecDeque<ColdRequest<Args>>,
    delay: u8,
    closings: usize,
)
    requires in_turn { InTurn 0 closings held.old.items }
    requires room { deque_len queue.old + deque_len held.old ≤ deque_capacity queue.old }
    ensures queue { queue.new.items ≡ queue.old.items ++ ripe delay (held_of closings held.old.items) }
    ensures held { held_of closings held.new.items ≡ unripe delay (held_of closings held.old.items) }
    ensures in_turn { InTurn 0 closings held.new.items }
    ensures len { deque_len queue.new + deque_len held.new ≡ deque_len queue.old + deque_len held.old }
    ensures capacity { deque_capacity queue.new ≡ deque_capacity queue.old }
    ensures held_capacity { deque_capacity held.new ≡ deque_capacity held.old }
{
    while let Some(txn) = take_ripe(held, delay, closings) {
        queue.push_back_reserved(txn);
    }
}
