//! Scripts for the application that they name.
ghost use Rattle.std.specs.Prelude.{◌≡◌, IfSome, Ok};
ghost use Rattle.calvin_script.specs.Applications.{app_contents, app_script_from};
ghost use Rattle.calvin_script.specs.Reading.{Reads};

use crate::script::{script_in_text, text_of};
use calvin_script::{AppScript, Document};
use calvin_types::Fault;
use json::Scratch;
use std::alloc::Global;

/// The script that bytes are, for the application that they name, where they are written as usual, as `usual_script` says. A
/// script of another application than the one that is tried ends its reading at the application's name, or before that at the
/// first operation, unless both applications write that alike.
#[tactic(auto, using(calvin_script::proofs::Applications::kv_read, calvin_script::proofs::Applications::stock_read, calvin_script::proofs::Applications::once_read))]
fn usual_app_script(alloc: Global, bytes: &[u8]) -> Option<AppScript>
    ensures { IfSome result (λ script. app_script_from bytes.now ≡ Ok (app_contents script)) }
{
    let text = text_of(bytes)?;
    let mut scratch = Scratch::new(alloc);
    if let Some(script) = script_in_text(alloc, text, &mut scratch) {
        return Some(AppScript::Kv(script));
    }
    if let Some(script) = script_in_text(alloc, text, &mut scratch) {
        return Some(AppScript::Stock(script));
    }
    let script = script_in_text(alloc, text, &mut scratch)?;
    Some(AppScript::Once(script))
}

/// The script that bytes are, for the application that they name. Where it is written as usual it is read without its JSON as a
/// value. The bytes are given back. Refused with `BadJson` where the bytes aren't JSON, with `BadScript` where the JSON names no
/// application or doesn't have the form of a script for it, and with `OutOfMemory`.
#[tactic(auto, unfolding(calvin_script::specs::Applications::app_script_from))]
pub fn read_script(alloc: Global, bytes: Vec<u8>) -> Result<AppScript, Fault>
    ensures { Reads app_contents result (app_script_from bytes.items) }
{
    if let Some(script) = usual_app_script(alloc, &bytes) {
        return Ok(script);
    }
    let document = Document::read(alloc, &bytes)?;
    drop(bytes);
    document.into_app_script(alloc)
}
