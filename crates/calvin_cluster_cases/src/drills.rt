//! What went wrong on purpose in a book.
use crate::stores::same;
use calvin_app::Kv;
use calvin_book::StoreBook;
use calvin_cluster::Drill;
use calvin_node::Act;
use calvin_node_packets::Address;
use calvin_types::Fault;
use calvin_world::Event;
use std::alloc::Global;
use std::process::Abort;

/// Whether a number, counted from 0, is the last one of its group of so many.
fn is_last_of(size: usize, number: usize) -> bool {
    match number.checked_rem(size) {
        Some(at) => at.saturating_add(1) == size,
        None => false,
    }
}

/// The numbers of the packets that were delivered, ascending.
fn delivered(alloc: Global, book: &StoreBook<Kv>) -> Result<Vec<usize>, Fault> {
    let mut numbers = Vec::new(alloc);
    for number in 0..book.events().len() {
        if let Some(Event::Deliver(packet)) = book.events().get(number) {
            numbers.push(packet)?;
        }
    }
    numbers.sort()?;
    Ok(numbers)
}

/// Whether a number stands twice among numbers that ascend, at the last place of a group of so many.
fn has_double(numbers: &[usize], size: usize) -> bool {
    let mut last = None;
    for number in numbers {
        if last == Some(*number) && is_last_of(size, *number) {
            return true;
        }
        last = Some(*number);
    }
    false
}

/// Whether a packet for a node has a number at the last place of a group of so many.
fn has_lost(book: &StoreBook<Kv>, size: usize) -> bool {
    let packets = book.world().packets();
    (0..packets.len()).any(|number| {
        matches!(packets.address(number), Some(Address::AtNode(_))) && is_last_of(size, number)
    })
}

/// How often nodes of replica 0 restarted, and how often those of all others.
fn restarts(book: &StoreBook<Kv>) -> (usize, usize) {
    let mut first = 0_usize;
    let mut others = 0_usize;
    for number in 0..book.events().len() {
        if let Some(Event::At(id, Act::Restart)) = book.events().get(number) {
            if id.replica == 0 {
                first = first.saturating_add(1);
            } else {
                others = others.saturating_add(1);
            }
        }
    }
    (first, others)
}

/// What a drill says went wrong, and nothing else: packets were lost, and none of them was delivered; others were delivered
/// twice; and nodes restarted, of replica 0 none.
pub(crate) fn check_drill<R: Abort>(
    rt: &R,
    alloc: Global,
    drill: &Drill,
    book: &StoreBook<Kv>,
) -> Result<(), Fault> {
    let numbers = delivered(alloc, book)?;
    let came = numbers
        .iter()
        .any(|number| is_last_of(drill.lose_every, *number));
    same(rt, came, false);
    same(rt, has_lost(book, drill.lose_every), drill.lose_every > 0);
    let doubled = has_double(&numbers, drill.double_every);
    same(rt, doubled, drill.double_every > 0);
    let (first, others) = restarts(book);
    same(rt, (first, others > 0), (0, drill.restart_every > 0));
    Ok(())
}
