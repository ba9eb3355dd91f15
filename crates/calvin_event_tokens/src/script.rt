//! The whole script, read from tokens.
ghost use Rattle.std.specs.Prelude.{◌≡◌, IfSome, Ok};
ghost use Rattle.serde_json.specs.Data.{no_members};
ghost use Rattle.calvin_script_events.specs.EventScripts.{world_contents, world_script};
ghost use Rattle.calvin_script_tokens.specs.Spelled.{Spells};
ghost use Rattle.calvin_event_tokens.specs.EventReading.{events_from};
ghost use Rattle.calvin_event_tokens.specs.Members.{HoldsEvents};

use crate::event::events_of;
use calvin_script::Kept;
use calvin_script_events::{EventScript, ListedEvent};
use calvin_script_tokens::{
    Object, OperationTokens, Scratch, between, epoch_value, is_same, list_of, read_object,
    string_at,
};
use calvin_types::{Config, MOST_DELAY, MOST_PARTITIONS, MOST_REPLICAS};
use json::Reader;
use std::alloc::Global;

/// The members of a script of events that were read.
#[derive(Drop)]
pub(crate) struct EventMembers<R> {
    partitions: Option<u8>,
    replicas: Option<u8>,
    /// Its application was read, and is the wanted one.
    has_app: bool,
    /// 0 where it wasn't read.
    delay: u8,
    /// Where it wasn't read, no batch is woven.
    woven_from: Option<u64>,
    events: Option<Vec<ListedEvent<R>>>,
    /// Where it wasn't read, any answers are expected.
    expect: Option<Vec<String>>,
}

impl<Op: OperationTokens> EventMembers<Kept<Op>> {
    /// Those of a script of which nothing was read.
    fn none() -> EventMembers<Kept<Op>>
        ensures { HoldsEvents Op.grammar no_members result }
    {
        EventMembers {
            partitions: None,
            replicas: None,
            has_app: false,
            delay: 0,
            woven_from: None,
            events: None,
            expect: None,
        }
    }
}

impl<Op: OperationTokens> Object for EventMembers<Kept<Op>> {
    ghost use Rattle.calvin_event_tokens.specs.Members.{HoldsEvents};

    ghost holds = { HoldsEvents Op.grammar };

    ghost deep = { 124 };

    fn read_member(&mut self, alloc: Global, reader: &mut Reader<'_>, name: &str) -> Option<()> {
        if is_same(name, "partitions") {
            self.partitions = Some(between(1, MOST_PARTITIONS, reader)?);
            return Some(());
        }
        if is_same(name, "replicas") {
            self.replicas = Some(between(1, MOST_REPLICAS, reader)?);
            return Some(());
        }
        if is_same(name, "app") {
            if !is_same(string_at(reader)?, Op::app_name()) {
                return None;
            }
            self.has_app = true;
            return Some(());
        }
        if is_same(name, "events") {
            self.events = Some(events_of(alloc, reader)?);
            return Some(());
        }
        if is_same(name, "delay") {
            self.delay = between(0, MOST_DELAY, reader)?;
            return Some(());
        }
        if is_same(name, "woven_from") {
            self.woven_from = Some(epoch_value(reader)?);
            return Some(());
        }
        if is_same(name, "expect") {
            self.expect = Some(list_of(alloc, reader)?);
            return Some(());
        }
        None
    }
}

/// The script of events that the next tokens spell.
fn read_script<Op: OperationTokens>(
    alloc: Global,
    reader: &mut Reader<'_>,
) -> Option<EventScript<Kept<Op>>>
    ensures { IfSome result (λ s. Spells (world_script Op.grammar) 125 reader.old (world_contents s) reader.new) }
{
    let mut members = EventMembers::none();
    read_object(alloc, reader, &mut members)?;
    if !members.has_app {
        return None;
    }
    let partitions = members.partitions?;
    let replicas = members.replicas?;
    let config = Config {
        partitions,
        replicas,
        delay: members.delay,
        woven_from: members.woven_from,
    };
    let events = members.events?;
    Some(EventScript {
        config,
        events,
        expect: members.expect,
    })
}

/// The script of events that a text is, for an application, where it is written as usual: then it is read without a value of
/// the whole JSON. There is no answer for another text, script or not, nor where memory runs out. What reading needs of memory
/// is lent, so that who tries one application after another needs it once.
pub(crate) fn script_in_text<Op: OperationTokens>(
    alloc: Global,
    text: &str,
    scratch: &mut Scratch,
) -> Option<EventScript<Kept<Op>>>
    ensures { IfSome result (λ s. events_from Op.grammar text.now ≡ Ok (world_contents s)) }
{
    let Ok(mut reader) = Reader::new(text, scratch) else {
        return None;
    };
    let script = read_script(alloc, &mut reader)?;
    if reader.next().is_some() {
        return None;
    }
    Some(script)
}
