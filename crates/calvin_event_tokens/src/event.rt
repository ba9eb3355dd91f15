//! Events, read from tokens.
ghost use Rattle.std.specs.Prelude.{map, IfSome};
ghost use Rattle.calvin_script.specs.Spelling.{list};
ghost use Rattle.calvin_script_events.specs.EventForms.{event_of, event};
ghost use Rattle.calvin_script_tokens.specs.Spelled.{Spells};

use crate::act::act_at;
use calvin_script::Kept;
use calvin_script_events::ListedEvent;
use calvin_script_tokens::{
    OperationTokens, ends_array, is_same, one_number, opens_array, string_at, u8_value,
};
use calvin_types::NodeId;
use json::Reader;
use std::alloc::Global;

/// The event that the next tokens spell.
fn event_at<Op: OperationTokens>(
    alloc: Global,
    reader: &mut Reader<'_>,
) -> Option<ListedEvent<Kept<Op>>>
    ensures { IfSome result (λ e. Spells (event Op.grammar) 123 reader.old (event_of e) reader.new) }
{
    opens_array(reader)?;
    let name = string_at(reader)?;
    if is_same(name, "deliver") {
        let number = one_number(reader)?;
        return Some(ListedEvent::Deliver(number as usize));
    }
    let replica = u8_value(reader)?;
    let partition = u8_value(reader)?;
    let act = act_at(alloc, name, reader)?;
    Some(ListedEvent::At(NodeId { replica, partition }, act))
}

/// The list of events that the next tokens spell. It keeps no more memory than it needs.
pub(crate) fn events_of<Op: OperationTokens>(
    alloc: Global,
    reader: &mut Reader<'_>,
) -> Option<Vec<ListedEvent<Kept<Op>>>>
    ensures { IfSome result (λ v. Spells (list (event Op.grammar)) 124 reader.old (map event_of v.items) reader.new) }
{
    opens_array(reader)?;
    let mut found = Vec::new(alloc);
    'events: while !ends_array(reader) {
        let event = event_at(alloc, reader)?;
        let Ok(()) = found.push(event) else {
            return None;
        };
    }
    found.shrink_to_fit();
    Some(found)
}
