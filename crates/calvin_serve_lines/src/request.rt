//! From a line of input to a request.
ghost use Rattle.std.specs.Prelude.{◌≡◌, ◌<◌, codes, option_map, if◌then◌else◌};
ghost use Rattle.calvin_types.specs.declared.fault.Fault.TheVariants.{EmptySets, TooManyAttempts};
ghost use Rattle.calvin_types.specs.Limits.{IsInRange};
ghost use Rattle.calvin_types.specs.Submitting.{has_key};
ghost use Rattle.serde_json.specs.Find.{get};
ghost use Rattle.serde_json.specs.View.{view};
ghost use Rattle.calvin_script.specs.Gives.{Gives};
ghost use Rattle.calvin_script.specs.Reading.{json};
ghost use Rattle.calvin_serve_lines.specs.Asking.{asked_or, group_of, request_line, spelled, without, ReadsLine};

use crate::asked::Asked;
use crate::levels::nests_within;
use crate::limits::{MOST_LEVELS, MOST_LINE_BYTES};
use calvin_script::{Document, Kept, Operation};
use calvin_types::Fault;
use serde_json::Value;
use std::alloc::Global;

/// The group that a member gives, below the number of partitions; where it is left out, the client's number modulo that.
fn group_of(partitions: u8, client: u32, given: Option<&Value>) -> Option<u8>
    requires { 0 < partitions }
    ensures { result ≡ group_of partitions client (option_map (λ v. view v.now) given.entry) }
{
    let Some(given) = given else {
        return Some((client % partitions as u32) as u8);
    };
    let group = given.as_u64()?;
    if group < partitions as u64 {
        Some(group as u8)
    } else {
        None
    }
}

/// Takes the member `group` out of an object.
#[tactic(auto, using(crate::proofs::Objects::group_out, crate::proofs::Objects::group_kept))]
fn split_group(value: Value) -> (Option<Value>, Value)
    ensures group { option_map view result.0 ≡ get (codes "group") (view value) }
    ensures rest { view result.1 ≡ without (codes "group") (view value) }
{
    match value {
        Value::Object(mut members) => {
            let group = members.remove("group");
            (group, Value::Object(members))
        }
        _ => (None, value),
    }
}

/// The request that JSON of few levels spells.
fn spelled<Op: Operation>(alloc: Global, json: &Value) -> Result<Kept<Op>, Fault>
    ensures { Gives (λ r. r) result (spelled Op.grammar (view json.now)) }
{
    if !nests_within(json, MOST_LEVELS) {
        return Err(Fault::BadScript);
    }
    Kept::read(alloc, json)
}

/// Why no sequencer takes a request.
fn why_not_taken<Op: Operation>(request: &Kept<Op>) -> Fault
    ensures { result ≡ (if has_key request.now.txn.sets then TooManyAttempts else EmptySets) }
{
    let sets = request.txn().sets;
    if sets.reads.is_empty() && sets.writes.is_empty() {
        Fault::EmptySets
    } else {
        Fault::TooManyAttempts
    }
}

/// What a piece of JSON asks.
#[tactic(auto, using(crate::proofs::Asks::not_spelled, crate::proofs::Asks::no_group, crate::proofs::Asks::asks, crate::proofs::Asks::not_taken))]
fn asked_of<Op: Operation>(alloc: Global, partitions: u8, value: Value) -> Result<Asked<Op>, Fault>
    requires in_range { IsInRange partitions 1 }
    ensures { ReadsLine result (asked_or Op.grammar partitions (view value)) }
{
    let (group, json) = split_group(value);
    let request = spelled(alloc, &json)?;
    let client = request.id().client;
    let group = group_of(partitions, client, group.as_ref()).ok_or(Fault::BadScript)?;
    if request.is_taken() {
        Ok(Asked::new(group, request, json))
    } else {
        Err(why_not_taken(&request))
    }
}

/// The request that a line of input asks, and its group: `{"client":C,"number":N,"op":OP}` as in a script, with optional
/// `"group":G`, which is below the number of partitions; left out it is the client's number modulo that.
///
/// Refused with `BadJson` where the line has more than 65,536 bytes, whatever they are, or is no JSON; with `BadScript` where it
/// has another form, its JSON nests deeper than 16 levels, or there is no such group; with `EmptySets` where the request has no
/// key; with `TooManyAttempts` where its attempt isn't one of 1 to 8; and with `OutOfMemory`.
#[tactic(auto, using(crate::proofs::Asks::too_long, crate::proofs::Asks::no_json, crate::proofs::Asks::line_asks))]
pub fn read_request<Op: Operation>(
    alloc: Global,
    partitions: u8,
    line: &[u8],
) -> Result<Asked<Op>, Fault>
    requires in_range { IsInRange partitions 1 }
    ensures { ReadsLine result (request_line Op.grammar partitions line.now) }
{
    if line.len() > MOST_LINE_BYTES {
        return Err(Fault::BadJson);
    }
    let value = Document::read(alloc, line)?.into_value();
    asked_of(alloc, partitions, value)
}
