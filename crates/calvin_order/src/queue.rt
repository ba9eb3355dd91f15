//! The requests that wait for their batch.
ghost use Rattle.std.specs.Prelude.{◌≡◌, ◌+◌, ◌≤◌, ◌++◌, [], length, take, drop, Some, IfOk, IsOkUnless};
ghost use Rattle.std.specs.List.{list_any};
ghost use Rattle.std.specs.Option.{option_copied, unwrap_or};
ghost use Rattle.std.specs.VecDeque.{deque_len, deque_capacity};
ghost use Rattle.calvin_types.specs.declared.limits.TheConstants.{MOST_REQUESTS};
ghost use Rattle.calvin_order.specs.Sequencing.{same_attempt, left_over};

use calvin_types::{Batch, Fault, MOST_REQUESTS, Txn};
use std::alloc::Global;
use std::collections::VecDeque;

/// The batch of the requests at the front, as many as a batch has.
pub fn first_batch<Args: Copy>(
    queue: &VecDeque<Txn<Args>>,
    alloc: Global,
) -> Result<Batch<Args>, Fault>
    ensures batch { IfOk result (λ b. b ≡ take MOST_REQUESTS queue.now.items) }
    ensures only { IsOkUnless result Fault.OutOfMemory }
{
    let most = queue.len().min(MOST_REQUESTS);
    let mut txns = Vec::with_capacity(alloc, most)?;
    for i in 0..most {
        txns.push_reserved(queue[i]);
    }
    Batch::new(alloc, txns)
}

/// Takes some requests away from the front.
#[tactic(auto, using(crate::proofs::Queues::drop_one))]
pub fn drop_first<Args: Copy>(queue: &mut VecDeque<Txn<Args>>, requests: usize)
    ensures items { queue.new.items ≡ drop requests queue.old.items }
    ensures len { deque_len queue.new ≤ deque_len queue.old }
    ensures capacity { deque_capacity queue.new ≡ deque_capacity queue.old }
{
    for _ in 0..requests {
        let _first = queue.pop_front();
    }
}

/// Whether two are the same request and attempt.
fn is_same<Args: Copy>(a: &Txn<Args>, b: &Txn<Args>) -> bool
    ensures { result ≡ same_attempt a.now b.now }
{
    a.id.client == b.id.client && a.id.number == b.id.number && a.attempt == b.attempt
}

/// Whether a batch has a request. It is looked for first with `near` requests before it, and then from the front.
fn is_among<Args: Copy>(txn: &Txn<Args>, batch: &[Txn<Args>], near: usize) -> bool
    ensures { result ≡ list_any (same_attempt txn.now) batch.now }
{
    if near < batch.len() && is_same(txn, &batch[near]) {
        return true;
    }
    for other in batch {
        if is_same(txn, other) {
            return true;
        }
    }
    false
}

/// Puts those of some requests that the decided batch hasn't at the front, for which there is room.
fn put_missing<Args: Copy>(
    queue: &mut VecDeque<Txn<Args>>,
    closed: &[Txn<Args>],
    decided: &[Txn<Args>],
)
    requires room { deque_len queue.old + length closed.now ≤ deque_capacity queue.old }
    ensures items { queue.new.items ≡ left_over (Some closed.now) decided.now ++ queue.old.items }
    ensures len { deque_len queue.new ≤ deque_len queue.old + length closed.now }
    ensures capacity { deque_capacity queue.new ≡ deque_capacity queue.old }
{
    let mut i = closed.len();
    while i > 0 {
        i -= 1;
        let txn = &closed[i];
        if !is_among(txn, decided, i) {
            queue.push_front_reserved(*txn);
        }
    }
}

/// Puts those of the closed requests that the decided batch hasn't at the front, for which there is room.
pub fn put_back<Args: Copy>(
    queue: &mut VecDeque<Txn<Args>>,
    closed: Option<&Batch<Args>>,
    decided: &Batch<Args>,
)
    requires room { deque_len queue.old + length (unwrap_or (option_copied closed) []) ≤ deque_capacity queue.old }
    ensures items { queue.new.items ≡ left_over (option_copied closed.entry) decided.now ++ queue.old.items }
    ensures len { deque_len queue.new ≤ deque_len queue.old + length (unwrap_or (option_copied closed.entry) []) }
    ensures capacity { deque_capacity queue.new ≡ deque_capacity queue.old }
{
    if let Some(closed) = closed {
        put_missing(queue, closed.as_slice(), decided.as_slice());
    }
}
