//! A script of events is read both ways.
use calvin_event_tokens::{AppEventScript, read_event_script, usual_event_script};
use calvin_script::{Document, Kept, Operation};
use calvin_script_events::{EventScript, ListedEvent, event_script_of};
use calvin_types::Fault;
use std::alloc::Global;

/// Whether two lists have the same events.
fn is_same_list<Op: Operation + Eq>(
    one: &[ListedEvent<Kept<Op>>],
    other: &[ListedEvent<Kept<Op>>],
) -> bool {
    if one.len() != other.len() {
        return false;
    }
    for i in 0..one.len() {
        let same = match (one.get(i), other.get(i)) {
            (Some(a), Some(b)) => a.event() == b.event(),
            _ => false,
        };
        if !same {
            return false;
        }
    }
    true
}

/// Whether a text is this script, as the general way reads it.
fn is_read_so<Op: Operation + Eq>(
    alloc: Global,
    text: &str,
    script: &EventScript<Kept<Op>>,
) -> Result<bool, Fault> {
    let document = Document::read(alloc, text.as_bytes())?;
    let other = event_script_of::<Op>(alloc, document)?;
    let is_same = script.config == other.config
        && script.expect == other.expect
        && is_same_list(&script.events, &other.events);
    drop(other);
    Ok(is_same)
}

/// Reads a script. Says whether it was read in the usual way, and whether it is the one that the general way reads.
pub(crate) fn read(alloc: Global, text: &str) -> Result<(bool, bool), Fault> {
    let usual = usual_event_script(alloc, text.as_bytes());
    let is_usual = usual.is_some();
    drop(usual);
    let mut bytes = Vec::new(alloc);
    bytes.extend_from_slice(text.as_bytes())?;
    let script = read_event_script(alloc, bytes)?;
    let is_same = match &script {
        AppEventScript::Kv(script) => is_read_so(alloc, text, script),
        AppEventScript::Stock(script) => is_read_so(alloc, text, script),
        AppEventScript::Once(script) => is_read_so(alloc, text, script),
    };
    drop(script);
    Ok((is_usual, is_same?))
}
