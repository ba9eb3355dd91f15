//! Lists of events for the worked cases of `calvin check`, and what has to be printed of them.
use crate::checks::Runtime;
use crate::lines::runs;
use std::alloc::{AllocError, Global};

/// A list of events in a world, and what becomes of them.
#[derive(Clone, Copy)]
pub(crate) struct Events<'a> {
    pub(crate) partitions: u8,
    pub(crate) replicas: u8,
    /// The events, in pieces as they stand in a script, each without a comma at its ends.
    pub(crate) pieces: &'a [&'a str],
    /// How many events there are.
    pub(crate) count: u64,
    /// Which of them are refused, each with the number of the fault. All others take effect.
    pub(crate) refused: &'a [(u64, u8)],
    /// The lines after those of the events.
    pub(crate) ending: &'a str,
}

/// The pieces of a list, with commas between them.
pub(crate) fn joined(alloc: Global, pieces: &[&str]) -> Result<String, AllocError> {
    let mut list = String::new(alloc);
    for piece in pieces {
        if !list.is_empty() {
            list.push(',')?;
        }
        list.push_str(piece)?;
    }
    Ok(list)
}

/// The deliveries of packets, in this order.
pub(crate) fn deliveries(alloc: Global, packets: &[u64]) -> Result<String, AllocError> {
    let mut list = String::new(alloc);
    for packet in packets {
        if !list.is_empty() {
            list.push(',')?;
        }
        let event = format!(in alloc; "[\"deliver\",{packet}]")?;
        list.push_str(&event)?;
    }
    Ok(list)
}

/// The line of an event.
fn line_of(alloc: Global, event: u64, refused: &[(u64, u8)]) -> Result<String, AllocError> {
    for (number, fault) in refused {
        if *number == event {
            return format!(in alloc; "{event} refused {fault}\n");
        }
    }
    format!(in alloc; "{event} ok\n")
}

/// What has to be printed.
fn text_of(alloc: Global, list: &Events) -> Result<String, AllocError> {
    let mut text = String::new(alloc);
    for event in 0..list.count {
        let line = line_of(alloc, event, list.refused)?;
        text.push_str(&line)?;
    }
    text.push_str(list.ending)?;
    Ok(text)
}

/// Runs `calvin check` on the list, and compares what it prints.
pub(crate) fn happens(rt: &impl Runtime, alloc: Global, list: &Events) -> Result<(), AllocError> {
    happens_with(rt, alloc, "", list)
}

/// The same for a script with further members, each with a comma behind it.
pub(crate) fn happens_with(
    rt: &impl Runtime,
    alloc: Global,
    members: &str,
    list: &Events,
) -> Result<(), AllocError> {
    let (partitions, replicas) = (list.partitions, list.replicas);
    let events = joined(alloc, list.pieces)?;
    let script = format!(in alloc;
        "{{\"partitions\":{partitions},\"replicas\":{replicas},\"app\":\"kv\",{members}\"events\":[{events}]}}"
    )?;
    let text = text_of(alloc, list)?;
    runs(rt, alloc, &["calvin", "check"], &script, 0, &text, "");
    Ok(())
}
