//! Rows that a journal can keep.
ghost use Rattle.std.specs.Prelude.{◌≡◌, ◌<◌, Option, Some, IfOk};
ghost use Rattle.serde_json.specs.Data.{Data, depth};
ghost use Rattle.serde_json.specs.Read.{max_depth};
ghost use Rattle.serde_json.specs.View.{view};

use serde_json::Value;
use std::alloc::{AllocError, Global};

/// A row of an application that a journal can keep. Every row of the application is spelled by JSON that is read as that row and
/// no other.
pub trait StoredRow: Copy {
    /// The row that a piece of JSON spells.
    ghost form: { Data → Option Self };

    /// The row that a piece of JSON spells, if it spells one.
    fn of_json(value: &Value) -> Option<Self>
        ensures { result ≡ form (view value.now) };

    /// JSON that spells the row. It nests less deeply than JSON that is read, so it can stand in a list.
    fn to_json(&self, alloc: Global) -> Result<Value, AllocError>
        ensures spelled { IfOk result (λ v. form (view v) ≡ Some self.now) }
        ensures shallow { IfOk result (λ v. depth (view v) < max_depth) };
}
