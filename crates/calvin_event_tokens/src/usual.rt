//! Scripts of events for the application that they name.
ghost use Rattle.std.specs.Prelude.{◌≡◌, IfSome, Ok};
ghost use Rattle.calvin_script.specs.Documents.{data_of};
ghost use Rattle.calvin_script.specs.Reading.{Reads};
ghost use Rattle.calvin_event_tokens.specs.EventReading.{event_contents, app_events, event_script_from};

use crate::contents::AppEventScript;
use crate::script::script_in_text;
use calvin_script::{AppName, Document};
use calvin_script_events::event_script_of;
use calvin_script_tokens::{Scratch, text_of};
use calvin_types::Fault;
use std::alloc::Global;

/// The script of events that bytes are, for the application that they name, where they are written as usual. A script of
/// another application than the one that is tried ends its reading at the application's name, or before that at the first
/// request, unless both applications write that alike.
///
/// As usual are members in any order, also several of one name, but none of a wrong form, numbers in digits alone, and no set
/// of declared keys given twice.
#[tactic(auto, using(crate::proofs::Apps::kv_read, crate::proofs::Apps::stock_read, crate::proofs::Apps::once_read))]
pub fn usual_event_script(alloc: Global, bytes: &[u8]) -> Option<AppEventScript>
    ensures { IfSome result (λ script. event_script_from bytes.now ≡ Ok (event_contents script)) }
{
    let text = text_of(bytes)?;
    let mut scratch = Scratch::new(alloc);
    if let Some(script) = script_in_text(alloc, text, &mut scratch) {
        return Some(AppEventScript::Kv(script));
    }
    if let Some(script) = script_in_text(alloc, text, &mut scratch) {
        return Some(AppEventScript::Stock(script));
    }
    let script = script_in_text(alloc, text, &mut scratch)?;
    Some(AppEventScript::Once(script))
}

/// The script of events that a document is for the application that it names. Refused with `BadScript` where it names none, or
/// doesn't have the form of a script for that one, and with `OutOfMemory`.
fn script_of(alloc: Global, document: Document) -> Result<AppEventScript, Fault>
    ensures { Reads event_contents result (app_events (data_of document)) }
{
    match document.app() {
        Some(AppName::Kv) => Ok(AppEventScript::Kv(event_script_of(alloc, document)?)),
        Some(AppName::Stock) => Ok(AppEventScript::Stock(event_script_of(alloc, document)?)),
        Some(AppName::Once) => Ok(AppEventScript::Once(event_script_of(alloc, document)?)),
        None => Err(Fault::BadScript),
    }
}

/// The script of events that bytes are, for the application that they name. Where it is written as usual it is read without its
/// JSON as a value. The bytes are given back. Refused with `BadJson` where the bytes aren't JSON, with `BadScript` where the
/// JSON names no application or doesn't have the form of a script of events for it, and with `OutOfMemory`.
#[tactic(auto, unfolding(crate::specs::EventReading::event_script_from))]
pub fn read_event_script(alloc: Global, bytes: Vec<u8>) -> Result<AppEventScript, Fault>
    ensures { Reads event_contents result (event_script_from bytes.items) }
{
    if let Some(script) = usual_event_script(alloc, &bytes) {
        return Ok(script);
    }
    let document = Document::read(alloc, &bytes)?;
    drop(bytes);
    script_of(alloc, document)
}
