//! Drawn events: losses, repeats, restarts and competing proposers, compared with a plain evaluation.
use crate::checks::same;
use crate::group::{batch_of, number_of};
use crate::plain::{End, Letter, PlainGroup, Said, Vote};
use calvin_synod::Message;
use calvin_synod_group::{Group, GroupEvent, Outcome, Packet};
use calvin_types::{Batch, Config, Fault, Slot};
use rand_core::utils::NextWord;
use rand_pcg::Pcg32;
use std::alloc::Global;
use std::process::Abort;
use std::test::Fail;

/// A number below `below`, which isn't 0.
fn draw(generator: &mut Pcg32, below: u32) -> u32 {
    generator.next_word().checked_rem(below).unwrap_or(0)
}

/// A packet, as the plain evaluation has it.
fn plain_of(packet: &Packet<Batch<u64>>) -> Letter {
    let (slot, ballot, said) = match &packet.message {
        Message::Prepare { slot, ballot } => (*slot, *ballot, Said::Prepare),
        Message::Promise { slot, ballot, vote } => {
            let vote: Option<Vote> = match vote {
                Some(vote) => Some((vote.ballot, number_of(&vote.batch))),
                None => None,
            };
            (*slot, *ballot, Said::Promise(vote))
        }
        Message::Accept {
            slot,
            ballot,
            batch,
        } => (*slot, *ballot, Said::Accept(number_of(batch))),
        Message::Refused {
            slot,
            ballot,
            promise,
        } => (*slot, *ballot, Said::Refused(*promise)),
        Message::Accepted {
            slot,
            ballot,
            batch,
        } => (*slot, *ballot, Said::Accepted(number_of(batch))),
    };
    Letter {
        from: packet.from,
        to: packet.to,
        slot,
        ballot,
        said,
    }
}

/// An outcome, as the plain evaluation has it.
fn end_of(outcome: &Outcome<Batch<u64>>) -> End {
    match outcome {
        Outcome::Done => End::Done,
        Outcome::Gave(slot, batch) => End::Gave(*slot, number_of(batch)),
        Outcome::Refused(fault) => End::Refused(fault.number()),
    }
}

/// Draws an event for a group of so many, and lets it happen to the plain evaluation.
fn next_event(
    alloc: Global,
    generator: &mut Pcg32,
    size: u8,
    number: u64,
    plain: &mut PlainGroup,
) -> Result<(GroupEvent<Batch<u64>>, End), Fault> {
    let replica = draw(generator, size as u32).min(255) as u8;
    let slot = Slot {
        epoch: draw(generator, 2) as u64,
        group: 0,
    };
    let kind = draw(generator, 100);
    if kind < 12 {
        let end = plain.propose(replica, slot, number)?;
        return Ok((
            GroupEvent::Propose(replica, slot, batch_of(alloc, number)?),
            end,
        ));
    }
    if kind < 14 {
        return Ok((GroupEvent::Restart(replica), plain.restart(replica)));
    }
    let sent = plain.letters.len();
    let back = if kind < 80 {
        draw(generator, 12)
    } else {
        draw(generator, 60)
    };
    let deliver = sent.saturating_sub(back as usize);
    Ok((GroupEvent::Deliver(deliver), plain.deliver(deliver)?))
}

/// No two batches are given for one slot; says how many were given.
fn are_agreed(rt: &impl Abort, ends: &[End]) -> usize {
    let mut first: [Option<u64>; 2] = [None, None];
    let mut count: usize = 0;
    for end in ends {
        if let End::Gave(slot, batch) = end {
            count = count.saturating_add(1);
            for i in 0..2 {
                if slot.epoch == i as u64 {
                    match first[i] {
                        Some(given) => same(rt, given, *batch),
                        None => first[i] = Some(*batch),
                    }
                }
            }
        }
    }
    count
}

/// Draws 600 events for a group of so many, and notes how each ends in the plain evaluation.
fn draw_all(
    alloc: Global,
    size: u8,
    start: u64,
    plain: &mut PlainGroup,
    events: &mut Vec<GroupEvent<Batch<u64>>>,
    ends: &mut Vec<End>,
) -> Result<(), Fault> {
    let mut generator = Pcg32::new(start, 7);
    for number in 0..600 {
        let (event, end) = next_event(alloc, &mut generator, size, number, plain)?;
        events.push(event)?;
        ends.push(end)?;
    }
    Ok(())
}

/// Whether each outcome is as the plain evaluation has it.
fn ends_are(outcomes: &[Outcome<Batch<u64>>], ends: &[End]) -> bool {
    outcomes.len() == ends.len()
        && outcomes
            .iter()
            .zip(ends.iter())
            .all(|(outcome, end)| end_of(outcome) == *end)
}

/// Whether each packet is as the plain evaluation has it.
fn letters_are(packets: &[Packet<Batch<u64>>], letters: &[Letter]) -> bool {
    packets.len() == letters.len()
        && packets
            .iter()
            .zip(letters.iter())
            .all(|(packet, letter)| plain_of(packet) == *letter)
}

/// The events happen to a group, and end and send as in the plain evaluation.
fn check_events(
    rt: &impl Abort,
    alloc: Global,
    (size, start): (u8, u64),
    plain: &PlainGroup,
    events: &[GroupEvent<Batch<u64>>],
    ends: &[End],
) -> Result<(), Fault> {
    let mut group = Group::new(alloc, &Config::new(1, size)?)?;
    let are_ends = group.run(events).map(|outcomes| ends_are(&outcomes, ends));
    let are_letters = letters_are(group.packets(), plain.letters.as_slice());
    drop(group);
    same(rt, (size, start, are_ends), (size, start, Ok(true)));
    same(rt, (size, start, are_letters), (size, start, true));
    Ok(())
}

/// Draws events that end and send as in the plain evaluation; says how many batches were given.
fn compare(rt: &impl Abort, alloc: Global, size: u8, start: u64) -> Result<usize, Fault> {
    let mut plain = PlainGroup::new(alloc, size)?;
    let mut events = Vec::new(alloc);
    let mut ends = Vec::new(alloc);
    let mut outcome = draw_all(alloc, size, start, &mut plain, &mut events, &mut ends);
    if outcome.is_ok() {
        outcome = check_events(rt, alloc, (size, start), &plain, &events, &ends);
    }
    drop(plain);
    drop(events);
    outcome?;
    Ok(are_agreed(rt, ends.as_slice()))
}

#[test]
fn as_the_plain_evaluation(rt: HostRuntime) -> Result<(), Fail> {
    let mut given: usize = 0;
    for size in [1, 2, 3, 5] {
        for start in 1..11 {
            given = given.saturating_add(compare(&rt, rt.alloc(), size, start)?);
        }
    }
    same(&rt, (given, given > 80), (given, true));
    Ok(())
}
