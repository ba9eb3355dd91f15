//! From JSON to a script of events.
ghost use Rattle.std.specs.Prelude.{◌≡◌, ◌≤◌, IfSome, option_map};
ghost use Rattle.serde_json.specs.View.{view};
ghost use Rattle.calvin_types.specs.declared.limits.TheConstants.{MOST_DELAY};
ghost use Rattle.calvin_script.specs.Gives.{Gives};
ghost use Rattle.calvin_script.specs.Documents.{data_of};
ghost use Rattle.calvin_script.specs.Reading.{Reads};
ghost use Rattle.calvin_script.specs.Spelling.{between, optional};
ghost use Rattle.calvin_script_events.specs.EventScripts.{world_contents, world_script, world_script_in};

use crate::contents::EventScript;
use crate::texts::expected;
use calvin_script::{Document, Kept, Operation, between, first_woven, has_only, list_of};
use calvin_types::{Config, Fault, MOST_DELAY, MOST_PARTITIONS, MOST_REPLICAS};
use serde_json::Value;
use std::alloc::Global;

/// For how many closings requests are held back: 0 where no number is given.
fn delay_of(value: Option<&Value>) -> Option<u8>
    ensures given { result ≡ optional 0 (between 0 MOST_DELAY) (option_map (λ v. view v.now) value.entry) }
    ensures in_range { IfSome result (λ delay. delay ≤ MOST_DELAY) }
{
    match value {
        None => Some(0),
        Some(value) => between(0, MOST_DELAY, value),
    }
}

#[tactic(auto, unfolding(crate::specs::EventScripts::world_script))]
fn script_of<Op: Operation>(alloc: Global, mut value: Value) -> Result<EventScript<Kept<Op>>, Fault>
    ensures { Gives world_contents result (world_script Op.grammar (view value)) }
{
    if !has_only(
        &value,
        &[
            "partitions",
            "replicas",
            "app",
            "delay",
            "woven_from",
            "events",
            "expect",
        ],
    ) {
        return Err(Fault::BadScript);
    }
    let partitions = value.get("partitions").ok_or(Fault::BadScript)?;
    let partitions = between(1, MOST_PARTITIONS, partitions).ok_or(Fault::BadScript)?;
    let replicas = value.get("replicas").ok_or(Fault::BadScript)?;
    let replicas = between(1, MOST_REPLICAS, replicas).ok_or(Fault::BadScript)?;
    let app = value.get("app").ok_or(Fault::BadScript)?;
    let app = app.as_str().ok_or(Fault::BadScript)?;
    if app != Op::app_name() {
        return Err(Fault::BadScript);
    }
    let delay = delay_of(value.get("delay")).ok_or(Fault::BadScript)?;
    let woven_from = first_woven(value.get("woven_from")).ok_or(Fault::BadScript)?;
    let expect = expected(alloc, value.get("expect"))?;
    let events = value.get_mut("events").ok_or(Fault::BadScript)?.take();
    let events = list_of(alloc, events)?;
    let config = Config {
        partitions,
        replicas,
        delay,
        woven_from,
    };
    Ok(EventScript {
        config,
        events,
        expect,
    })
}

/// The script of events that a piece of JSON is, for an application. Refused with `BadScript` where it doesn't have the
/// form of one for this application, and with `OutOfMemory`.
#[tactic(auto, using(calvin_script::proofs::Refusals::script_read))]
pub fn event_script_of<Op: Operation>(
    alloc: Global,
    document: Document,
) -> Result<EventScript<Kept<Op>>, Fault>
    ensures { Reads world_contents result (world_script_in Op.grammar (data_of document)) }
{
    script_of(alloc, document.into_value())
}
