//! A request, and the group that it is for.
ghost use Rattle.std.specs.Prelude.{◌≡◌, ◌≤◌, Some, true};
ghost use Rattle.serde_json.specs.Data.{depth};
ghost use Rattle.serde_json.specs.View.{view};
ghost use Rattle.calvin_types.specs.Submitting.{is_taken};
ghost use Rattle.calvin_script.specs.Requests.{request as spelled_request};
ghost use Rattle.calvin_serve_lines.specs.declared.limits.TheConstants.{MOST_LEVELS};

use calvin_script::{Kept, Operation};
use serde_json::Value;
use std::marker::Model;

/// A request that a line asks, one that a sequencer takes, and the group that it is for. The JSON that spells it is kept for the
/// line of its epoch.
#[derive(Drop)]
pub struct Asked<Op: Operation> {
    group: u8,
    request: Kept<Op>,
    json: Value,
}

impl<Op: Operation> Model for Asked<Op> {
    ghost use Rattle.std.specs.Prelude.{◌≡◌, ◌≤◌, Some, true};
    ghost use Rattle.serde_json.specs.Data.{depth};
    ghost use Rattle.serde_json.specs.View.{view as data_of};
    ghost use Rattle.calvin_types.specs.Submitting.{is_taken};
    ghost use Rattle.calvin_script.specs.Requests.{request as spelled_request};
    ghost use Rattle.calvin_serve_lines.specs.declared.limits.TheConstants.{MOST_LEVELS};
    ghost use Rattle.calvin_serve_lines.specs.Asking.{Asked};

    ghost Value = { Asked Op };

    ghost view = { λ a. record { group = a.group; request = a.request } };

    ghost invariant = { λ a. (spelled_request Op.grammar (data_of a.json) ≡ Some a.request)
        × (depth (data_of a.json) ≤ MOST_LEVELS) × (is_taken a.request.txn ≡ true) };
}

impl<Op: Operation> Asked<Op> {
    /// A request with its group, and the JSON that spells it.
    pub(crate) fn new(group: u8, request: Kept<Op>, json: Value) -> Asked<Op>
        requires spelled { spelled_request Op.grammar (view json) ≡ Some request }
        requires shallow { depth (view json) ≤ MOST_LEVELS }
        requires taken { is_taken request.txn ≡ true }
        ensures { result ≡ record { group = group; request = request } }
    {
        Asked {
            group,
            request,
            json,
        }
    }

    /// The group that it is for.
    pub fn group(&self) -> u8
        ensures { result ≡ self.now.group }
    {
        self.group
    }

    /// The request, and the JSON that spells it.
    pub(crate) fn into_parts(self) -> (Kept<Op>, Value)
        ensures request { result.0 ≡ self.request }
        ensures spelled { spelled_request Op.grammar (view result.1) ≡ Some result.0 }
        ensures shallow { depth (view result.1) ≤ MOST_LEVELS }
        ensures taken { is_taken result.0.txn ≡ true }
    {
        (self.request, self.json)
    }
}
